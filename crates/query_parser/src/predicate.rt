//! Predicates: comparisons, BETWEEN, IN and IS NULL.
ghost use Rattle.std.specs.Prelude.{◌≡◌, ◌≢◌, MatchOption, Some, None, ◌<◌, length, IfOk, IfErr, IfSome};
ghost use Rattle.table_model.specs.Reading.{Reads};
ghost use Rattle.table_model.specs.declared.refusal.Refusal.TheVariants.{Memory};
ghost use Rattle.query_parser.specs.Descent.{read_predicate, read_after_operand, read_range_or_list, read_range, read_list, read_literals, read_is_null, read_operand, comparison_word};
ghost use Rattle.query_parser.specs.Grammar.{takes_functions};

use crate::cursor::{Read, after, begins_with_name, expect, identifier, syntax};
use crate::number::literal;
use crate::select::{function_word, set_function};
use crate::token::{Sign, Token};
use std::alloc::Global;
use table_model::{Literals, Op, Operand, Predicate};

/// A part of a query that has a condition.
#[derive(Clone, Copy)]
pub(crate) enum Clause {
    Where,
    Having,
}

impl Clause {
    /// Whether the condition may have a set function.
    fn takes_functions(self) -> bool
        ensures { result ≡ takes_functions self }
    {
        match self {
            Clause::Where => false,
            Clause::Having => true,
        }
    }
}

/// A predicate.
#[tactic(auto, unfolding(crate::specs::Descent::read_predicate))]
pub(crate) fn predicate<'t, 'a>(
    alloc: Global,
    clause: Clause,
    tokens: &'t [Token<'a>],
    end: u64,
) -> Read<'t, 'a, Predicate>
    ensures reads { Reads (λ r. (r.0, r.1.now)) result (read_predicate clause end tokens.now) }
    ensures shorter { IfOk result (λ r. length r.1.now < length tokens.now) }
{
    let (left, rest) = operand(alloc, clause, tokens, end)?;
    after_operand(alloc, clause, left, rest, end)
}

/// What comes after a predicate's first operand.
#[tactic(auto, unfolding(crate::specs::Descent::read_after_operand))]
fn after_operand<'t, 'a>(
    alloc: Global,
    clause: Clause,
    left: Operand,
    tokens: &'t [Token<'a>],
    end: u64,
) -> Read<'t, 'a, Predicate>
    ensures reads { Reads (λ r. (r.0, r.1.now)) result (read_after_operand clause left end tokens.now) }
    ensures shorter { IfOk result (λ r. length r.1.now < length tokens.now) }
{
    if let Some((op, rest)) = comparison_word(tokens) {
        let (right, rest) = operand(alloc, clause, rest, end)?;
        return Ok((Predicate::Compare { left, op, right }, rest));
    }
    if let Some(rest) = after(tokens, Sign::Is) {
        return is_null(left, rest, end);
    }
    match after(tokens, Sign::Not) {
        Some(rest) => range_or_list(alloc, clause, left, true, rest, end),
        None => range_or_list(alloc, clause, left, false, tokens, end),
    }
}

/// The comparison that the tokens begin with, and the tokens after it.
#[tactic(auto, unfolding(crate::specs::Descent::comparison_word))]
fn comparison_word<'t, 'a>(tokens: &'t [Token<'a>]) -> Option<(Op, &'t [Token<'a>])>
    ensures reads { MatchOption result (comparison_word tokens.now ≡ None) (λ r. comparison_word tokens.now ≡ Some (r.0, r.1.now)) }
    ensures shorter { IfSome result (λ r. length r.1.now < length tokens.now) }
{
    if let Some(rest) = after(tokens, Sign::Equal) {
        return Some((Op::Equal, rest));
    }
    if let Some(rest) = after(tokens, Sign::NotEqual) {
        return Some((Op::NotEqual, rest));
    }
    if let Some(rest) = after(tokens, Sign::Less) {
        return Some((Op::Less, rest));
    }
    if let Some(rest) = after(tokens, Sign::LessOrEqual) {
        return Some((Op::LessOrEqual, rest));
    }
    if let Some(rest) = after(tokens, Sign::Greater) {
        return Some((Op::Greater, rest));
    }
    let rest = after(tokens, Sign::GreaterOrEqual)?;
    Some((Op::GreaterOrEqual, rest))
}

/// `BETWEEN operand AND operand | IN "(" literal {"," literal} ")"`
#[tactic(auto, unfolding(crate::specs::Descent::read_range_or_list))]
fn range_or_list<'t, 'a>(
    alloc: Global,
    clause: Clause,
    operand: Operand,
    negated: bool,
    tokens: &'t [Token<'a>],
    end: u64,
) -> Read<'t, 'a, Predicate>
    ensures reads { Reads (λ r. (r.0, r.1.now)) result (read_range_or_list clause operand negated end tokens.now) }
    ensures shorter { IfOk result (λ r. length r.1.now < length tokens.now) }
{
    if let Some(rest) = after(tokens, Sign::Between) {
        return range(alloc, clause, operand, negated, rest, end);
    }
    match after(tokens, Sign::In) {
        Some(rest) => list(alloc, operand, negated, rest, end),
        None => Err(syntax(tokens, end)),
    }
}

/// `operand AND operand`, after BETWEEN
#[tactic(auto, unfolding(crate::specs::Descent::read_range))]
fn range<'t, 'a>(
    alloc: Global,
    clause: Clause,
    subject: Operand,
    negated: bool,
    tokens: &'t [Token<'a>],
    end: u64,
) -> Read<'t, 'a, Predicate>
    ensures reads { Reads (λ r. (r.0, r.1.now)) result (read_range clause subject negated end tokens.now) }
    ensures shorter { IfOk result (λ r. length r.1.now < length tokens.now) }
{
    let (low, rest) = operand(alloc, clause, tokens, end)?;
    let rest = expect(rest, end, Sign::And)?;
    let (high, rest) = operand(alloc, clause, rest, end)?;
    Ok((
        Predicate::Between {
            operand: subject,
            negated,
            low,
            high,
        },
        rest,
    ))
}

/// `"(" literal {"," literal} ")"`, after IN
#[tactic(auto, unfolding(crate::specs::Descent::read_list))]
fn list<'t, 'a>(
    alloc: Global,
    operand: Operand,
    negated: bool,
    tokens: &'t [Token<'a>],
    end: u64,
) -> Read<'t, 'a, Predicate>
    ensures reads { Reads (λ r. (r.0, r.1.now)) result (read_list operand negated end tokens.now) }
    ensures shorter { IfOk result (λ r. length r.1.now < length tokens.now) }
{
    let rest = expect(tokens, end, Sign::OpenParen)?;
    let (numbers, rest) = literals(alloc, rest, end)?;
    let rest = expect(rest, end, Sign::CloseParen)?;
    Ok((
        Predicate::In {
            operand,
            negated,
            literals: Literals::from_vec(numbers),
        },
        rest,
    ))
}

/// `literal {"," literal}`
#[tactic(auto, unfolding(crate::specs::Descent::read_literals, crate::specs::Descent::read_many))]
fn literals<'t, 'a>(alloc: Global, tokens: &'t [Token<'a>], end: u64) -> Read<'t, 'a, Vec<i128>>
    ensures reads { Reads (λ r. (r.0.items, r.1.now)) result (read_literals end tokens.now) }
    ensures shorter { IfOk result (λ r. length r.1.now < length tokens.now) }
{
    let mut numbers = Vec::new(alloc);
    let (first, mut rest) = literal(tokens, end)?;
    numbers.push(first)?;
    while let Some(next) = after(rest, Sign::Comma) {
        let (number, left) = literal(next, end)?;
        numbers.push(number)?;
        rest = left;
    }
    Ok((numbers, rest))
}

/// `[NOT] NULL`, after IS
#[tactic(auto, unfolding(crate::specs::Descent::read_is_null))]
fn is_null<'t, 'a>(operand: Operand, tokens: &'t [Token<'a>], end: u64) -> Read<'t, 'a, Predicate>
    ensures reads { Reads (λ r. (r.0, r.1.now)) result (read_is_null operand end tokens.now) }
    ensures shorter { IfOk result (λ r. length r.1.now < length tokens.now) }
    ensures grows_nothing { IfErr result (λ e. e ≢ Memory) }
{
    match after(tokens, Sign::Not) {
        Some(rest) => {
            let rest = expect(rest, end, Sign::Null)?;
            Ok((
                Predicate::IsNull {
                    operand,
                    negated: true,
                },
                rest,
            ))
        }
        None => {
            let rest = expect(tokens, end, Sign::Null)?;
            Ok((
                Predicate::IsNull {
                    operand,
                    negated: false,
                },
                rest,
            ))
        }
    }
}

/// `identifier | literal | setf`, the last in HAVING only
#[tactic(auto, unfolding(crate::specs::Descent::read_operand))]
fn operand<'t, 'a>(
    alloc: Global,
    clause: Clause,
    tokens: &'t [Token<'a>],
    end: u64,
) -> Read<'t, 'a, Operand>
    ensures reads { Reads (λ r. (r.0, r.1.now)) result (read_operand clause end tokens.now) }
    ensures shorter { IfOk result (λ r. length r.1.now < length tokens.now) }
{
    if begins_with_name(tokens) {
        let (column, rest) = identifier(alloc, tokens, end)?;
        return Ok((Operand::Column(column), rest));
    }
    if clause.takes_functions() {
        if let Some((fold, rest)) = function_word(tokens) {
            let (function, rest) = set_function(alloc, fold, rest, end)?;
            return Ok((Operand::Function(function), rest));
        }
    }
    let (number, rest) = literal(tokens, end)?;
    Ok((Operand::Literal(number), rest))
}
