//! Conditions of WHERE over the rows of a vector, as pairs of masks.
ghost use Rattle.std.specs.Prelude.{◌≡◌, ◌≤◌, ◌+◌};
ghost use Rattle.table_model.specs.Condition.{predicate_truth};
ghost use Rattle.table_model.specs.Meaning.{at_row};
ghost use Rattle.table_model.specs.Query.{formula_of_factor, formula_of_primary, formula_of_term, formula_of_test};
ghost use Rattle.query_eval.specs.Read.{IsRead};
ghost use Rattle.query_eval.specs.Mentions.{condition_mentions, predicate_mentions};
ghost use Rattle.query_eval.specs.Vector.{IsThere, row_at, vector_of};
ghost use Rattle.query_eval.specs.Where.{IsPair, truth_in};

use crate::columns::{Columns, VectorId};
use crate::filter::pair::Pair;
use crate::filter::predicates::{among_operand, between_operands};
use crate::filter::side::{compare_operands, null_operand};
use table_model::{Condition, Factor, Predicate, Primary, Term, Test, Truth};
use transpose_order::Mask;

/// A predicate of WHERE at the rows of a mask: each mention of a column takes at most one pass, and none if there are no rows.
pub fn predicate_masks<C: Columns>(
    columns: &mut C,
    id: VectorId,
    predicate: &Predicate,
    mask: &Mask,
) -> Pair
    requires there { IsThere (C.seen columns.old).state id.batch id.vector }
    ensures value { IsPair mask.now (λ n. predicate_truth (at_row (C.seen columns.old).table.columns (row_at (vector_of (C.seen columns.old).state id) n)) predicate.now) result }
    ensures read { IsRead (C.seen columns.old) (C.seen columns.new) (predicate_mentions predicate.now) }
{
    if mask.next_true(0) == 1024 {
        return Pair::everywhere(Truth::Unknown, mask);
    }
    match predicate {
        Predicate::Compare { left, op, right } => compare_operands(
            columns, id, left, *op, right, mask,
        ),
        Predicate::Between {
            operand,
            negated,
            low,
            high,
        } => between_operands(columns, id, operand, low, high, mask).not_if(*negated),
        Predicate::In {
            operand,
            negated,
            literals,
        } => among_operand(columns, id, operand, literals, mask).not_if(*negated),
        Predicate::IsNull { operand, negated } => null_operand(columns, id, operand, mask).not_if(
            *negated,
        ),
    }
}

/// A condition of WHERE at the rows of a mask: each mention of a column takes at most one pass, and none if there are no rows.
#[cycle(masks)]
pub fn condition_masks<C: Columns>(
    columns: &mut C,
    id: VectorId,
    condition: &Condition,
    mask: &Mask,
) -> Pair
    requires there { IsThere (C.seen columns.old).state id.batch id.vector }
    ensures value { IsPair mask.now (truth_in (C.seen columns.old).table (vector_of (C.seen columns.old).state id) condition.now) result }
    ensures read { IsRead (C.seen columns.old) (C.seen columns.new) (condition_mentions condition.now) }
{
    if mask.next_true(0) == 1024 {
        return Pair::everywhere(Truth::Unknown, mask);
    }
    let mut pair = Pair::everywhere(Truth::False, mask);
    for term in &condition.terms {
        let next = term_masks(columns, id, term, mask);
        pair = pair.or(&next);
    }
    pair
}

/// A term at the rows of a mask.
#[cycle(masks)]
fn term_masks<C: Columns>(columns: &mut C, id: VectorId, term: &Term, mask: &Mask) -> Pair
    requires there { IsThere (C.seen columns.old).state id.batch id.vector }
    ensures value { IsPair mask.now (truth_in (C.seen columns.old).table (vector_of (C.seen columns.old).state id) (formula_of_term term.now)) result }
    ensures read { IsRead (C.seen columns.old) (C.seen columns.new) (condition_mentions (formula_of_term term.now)) }
{
    let mut pair = Pair::everywhere(Truth::True, mask);
    for factor in &term.factors {
        let rest = mask.and_not(&pair.no);
        let next = factor_masks(columns, id, factor, &rest);
        pair = pair.and(&next);
    }
    pair
}

/// A factor at the rows of a mask.
#[cycle(masks)]
pub(crate) fn factor_masks<C: Columns>(
    columns: &mut C,
    id: VectorId,
    factor: &Factor,
    mask: &Mask,
) -> Pair
    requires there { IsThere (C.seen columns.old).state id.batch id.vector }
    ensures value { IsPair mask.now (truth_in (C.seen columns.old).table (vector_of (C.seen columns.old).state id) (formula_of_factor factor.now)) result }
    ensures read { IsRead (C.seen columns.old) (C.seen columns.new) (condition_mentions (formula_of_factor factor.now)) }
{
    let pair = test_masks(columns, id, &factor.test, mask);
    if factor.negated { pair.not() } else { pair }
}

/// A test at the rows of a mask.
#[cycle(masks)]
pub(crate) fn test_masks<C: Columns>(
    columns: &mut C,
    id: VectorId,
    test: &Test,
    mask: &Mask,
) -> Pair
    requires there { IsThere (C.seen columns.old).state id.batch id.vector }
    ensures value { IsPair mask.now (truth_in (C.seen columns.old).table (vector_of (C.seen columns.old).state id) (formula_of_test test.now)) result }
    ensures read { IsRead (C.seen columns.old) (C.seen columns.new) (condition_mentions (formula_of_test test.now)) }
{
    let pair = primary_masks(columns, id, &test.primary, mask);
    match test.is {
        None => pair,
        Some(is) => pair.asked(is, mask),
    }
}

/// A predicate, or a condition in parentheses, at the rows of a mask.
#[cycle(masks)]
fn primary_masks<C: Columns>(columns: &mut C, id: VectorId, primary: &Primary, mask: &Mask) -> Pair
    requires there { IsThere (C.seen columns.old).state id.batch id.vector }
    ensures value { IsPair mask.now (truth_in (C.seen columns.old).table (vector_of (C.seen columns.old).state id) (formula_of_primary primary.now)) result }
    ensures read { IsRead (C.seen columns.old) (C.seen columns.new) (condition_mentions (formula_of_primary primary.now)) }
{
    match primary {
        Primary::Nested(condition) => condition_masks(columns, id, condition, mask),
        Primary::Predicate(predicate) => predicate_masks(columns, id, predicate, mask),
    }
}
