//! Conditions: predicates under AND, OR, NOT, IS TRUE and the like, and parentheses.
ghost use Rattle.std.specs.Prelude.{◌<◌, ◌≤◌, ◌≢◌, length, IfOk, IfErr};
ghost use Rattle.table_model.specs.Query.{formula_of_primary, formula_of_test, formula_of_factor, formula_of_term};
ghost use Rattle.table_model.specs.Reading.{Reads};
ghost use Rattle.query_parser.specs.Descent.{read_condition, read_term, read_factor, read_test, read_is, read_primary, read_asked, read_truth_word, nested};

use crate::cursor::{Read, after, expect, syntax};
use crate::predicate::{Clause, predicate};
use crate::token::{Sign, Token};
use std::alloc::Global;
use table_model::{Condition, Factor, IsTruth, Primary, Refusal, Term, Test, Truth};

/// `term {OR term}`, in which at most this many levels of parentheses may open.
#[tactic(auto, unfolding(crate::specs::Descent::read_condition, crate::specs::Descent::read_terms, crate::specs::Descent::read_many))]
#[cycle(conditions)]
pub(crate) fn condition<'t, 'a>(
    alloc: Global,
    clause: Clause,
    levels: usize,
    tokens: &'t [Token<'a>],
    end: u64,
) -> Read<'t, 'a, Condition>
    ensures reads { Reads (λ r. (r.0, r.1.now)) result (read_condition clause levels end tokens.now) }
    ensures shorter { IfOk result (λ r. length r.1.now < length tokens.now) }
{
    let mut terms = Vec::new(alloc);
    let (first, mut rest) = term(alloc, clause, levels, tokens, end)?;
    terms.push(first)?;
    while let Some(next) = after(rest, Sign::Or) {
        let (term, left) = term(alloc, clause, levels, next, end)?;
        terms.push(term)?;
        rest = left;
    }
    Ok((Condition { terms }, rest))
}

/// `factor {AND factor}`
#[tactic(auto, unfolding(crate::specs::Descent::read_term, crate::specs::Descent::read_many))]
#[cycle(conditions)]
fn term<'t, 'a>(
    alloc: Global,
    clause: Clause,
    levels: usize,
    tokens: &'t [Token<'a>],
    end: u64,
) -> Read<'t, 'a, Term>
    ensures reads { Reads (λ r. (formula_of_term r.0, r.1.now)) result (read_term clause (nested clause levels end) end tokens.now) }
    ensures shorter { IfOk result (λ r. length r.1.now < length tokens.now) }
{
    let mut factors = Vec::with_capacity(alloc, 1)?;
    let (first, mut rest) = factor(alloc, clause, levels, tokens, end)?;
    factors.push(first)?;
    while let Some(next) = after(rest, Sign::And) {
        let (factor, left) = factor(alloc, clause, levels, next, end)?;
        factors.push(factor)?;
        rest = left;
    }
    Ok((Term { factors }, rest))
}

/// `[NOT] test`
#[tactic(auto, unfolding(crate::specs::Descent::read_factor))]
#[cycle(conditions)]
fn factor<'t, 'a>(
    alloc: Global,
    clause: Clause,
    levels: usize,
    tokens: &'t [Token<'a>],
    end: u64,
) -> Read<'t, 'a, Factor>
    ensures reads { Reads (λ r. (formula_of_factor r.0, r.1.now)) result (read_factor clause (nested clause levels end) end tokens.now) }
    ensures shorter { IfOk result (λ r. length r.1.now < length tokens.now) }
{
    match after(tokens, Sign::Not) {
        Some(rest) => {
            let (test, rest) = test(alloc, clause, levels, rest, end)?;
            Ok((
                Factor {
                    negated: true,
                    test,
                },
                rest,
            ))
        }
        None => {
            let (test, rest) = test(alloc, clause, levels, tokens, end)?;
            Ok((
                Factor {
                    negated: false,
                    test,
                },
                rest,
            ))
        }
    }
}

/// `primary [IS [NOT] (TRUE | FALSE | UNKNOWN)]`
#[tactic(auto, unfolding(crate::specs::Descent::read_test))]
#[cycle(conditions)]
fn test<'t, 'a>(
    alloc: Global,
    clause: Clause,
    levels: usize,
    tokens: &'t [Token<'a>],
    end: u64,
) -> Read<'t, 'a, Test>
    ensures reads { Reads (λ r. (formula_of_test r.0, r.1.now)) result (read_test clause (nested clause levels end) end tokens.now) }
    ensures shorter { IfOk result (λ r. length r.1.now < length tokens.now) }
{
    let (primary, rest) = primary(alloc, clause, levels, tokens, end)?;
    truth_test(primary, rest, end)
}

/// `[IS [NOT] (TRUE | FALSE | UNKNOWN)]`, after a primary
fn truth_test<'t, 'a>(primary: Primary, tokens: &'t [Token<'a>], end: u64) -> Read<'t, 'a, Test>
    ensures reads { Reads (λ r. (formula_of_test r.0, r.1.now)) result (read_is (formula_of_primary primary) end tokens.now) }
    ensures shorter { IfOk result (λ r. length r.1.now ≤ length tokens.now) }
    ensures grows_nothing { IfErr result (λ e. e ≢ Refusal.Memory) }
{
    match after(tokens, Sign::Is) {
        Some(rest) => {
            let (is, rest) = asked(rest, end)?;
            let is = Some(is);
            Ok((Test { primary, is }, rest))
        }
        None => Ok((Test { primary, is: None }, tokens)),
    }
}

/// `"(" cond ")" | predicate`
#[tactic(auto, unfolding(crate::specs::Descent::read_primary, crate::specs::Descent::nested, crate::specs::Descent::read_condition))]
#[cycle(conditions)]
fn primary<'t, 'a>(
    alloc: Global,
    clause: Clause,
    levels: usize,
    tokens: &'t [Token<'a>],
    end: u64,
) -> Read<'t, 'a, Primary>
    ensures reads { Reads (λ r. (formula_of_primary r.0, r.1.now)) result (read_primary clause (nested clause levels end) end tokens.now) }
    ensures shorter { IfOk result (λ r. length r.1.now < length tokens.now) }
{
    match after(tokens, Sign::OpenParen) {
        Some(rest) => {
            if levels == 0 {
                return Err(Refusal::TooDeep);
            }
            let (inner, rest) = condition(alloc, clause, levels - 1, rest, end)?;
            let rest = expect(rest, end, Sign::CloseParen)?;
            Ok((Primary::Nested(Box::new(alloc, inner)?), rest))
        }
        None => {
            let (predicate, rest) = predicate(alloc, clause, tokens, end)?;
            Ok((Primary::Predicate(predicate), rest))
        }
    }
}

/// `[NOT] (TRUE | FALSE | UNKNOWN)`, after IS
#[tactic(auto, unfolding(crate::specs::Descent::read_asked))]
fn asked<'t, 'a>(tokens: &'t [Token<'a>], end: u64) -> Read<'t, 'a, IsTruth>
    ensures reads { Reads (λ r. (r.0, r.1.now)) result (read_asked end tokens.now) }
    ensures shorter { IfOk result (λ r. length r.1.now < length tokens.now) }
    ensures grows_nothing { IfErr result (λ e. e ≢ Refusal.Memory) }
{
    match after(tokens, Sign::Not) {
        Some(rest) => truth_word(true, rest, end),
        None => truth_word(false, tokens, end),
    }
}

/// `TRUE | FALSE | UNKNOWN`
#[tactic(auto, unfolding(crate::specs::Descent::read_truth_word))]
fn truth_word<'t, 'a>(negated: bool, tokens: &'t [Token<'a>], end: u64) -> Read<'t, 'a, IsTruth>
    ensures reads { Reads (λ r. (r.0, r.1.now)) result (read_truth_word negated end tokens.now) }
    ensures shorter { IfOk result (λ r. length r.1.now < length tokens.now) }
    ensures grows_nothing { IfErr result (λ e. e ≢ Refusal.Memory) }
{
    if let Some(rest) = after(tokens, Sign::True) {
        let truth = Truth::True;
        return Ok((IsTruth { negated, truth }, rest));
    }
    if let Some(rest) = after(tokens, Sign::False) {
        let truth = Truth::False;
        return Ok((IsTruth { negated, truth }, rest));
    }
    match after(tokens, Sign::Unknown) {
        Some(rest) => {
            let truth = Truth::Unknown;
            Ok((IsTruth { negated, truth }, rest))
        }
        None => Err(syntax(tokens, end)),
    }
}
