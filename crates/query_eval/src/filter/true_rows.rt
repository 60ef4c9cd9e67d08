//! The rows of a vector at which a condition of WHERE is true.
//!
//! WHERE keeps a row if it is true, and at no other truth value. So each term of an OR is evaluated only at the rows at which no
//! earlier term is true, and each factor of an AND only at those at which all earlier factors are. The rows at which a condition is
//! false matter only under NOT and IS, which use pairs of masks.
ghost use Rattle.std.specs.Prelude.{◌≡◌, ◌≤◌, ◌+◌};
ghost use Rattle.table_model.specs.Query.{formula_of_factor, formula_of_primary, formula_of_term, formula_of_test};
ghost use Rattle.table_model.specs.Formula.{says};
ghost use Rattle.query_eval.specs.Read.{IsRead};
ghost use Rattle.query_eval.specs.Mentions.{condition_mentions, predicate_mentions};
ghost use Rattle.query_eval.specs.Pairs.{yes_of};
ghost use Rattle.query_eval.specs.Vector.{IsThere, vector_of};
ghost use Rattle.query_eval.specs.Where.{truth_in};

use crate::columns::{Columns, VectorId};
use crate::filter::predicates::range_rows;
use crate::filter::where_masks::{factor_masks, predicate_masks, test_masks};
use table_model::{Condition, Factor, Operand, Predicate, Primary, Term, Test};
use transpose_order::Mask;

/// The rows of a mask at which a condition is true: each mention of a column takes at most one pass, and none if there are no rows.
#[cycle(rows)]
pub fn condition_rows<C: Columns>(
    columns: &mut C,
    id: VectorId,
    condition: &Condition,
    mask: &Mask,
) -> Mask
    requires there { IsThere (C.seen columns.old).state id.batch id.vector }
    ensures value { result ≡ yes_of mask.now (truth_in (C.seen columns.old).table (vector_of (C.seen columns.old).state id) condition.now) }
    ensures read { IsRead (C.seen columns.old) (C.seen columns.new) (condition_mentions condition.now) }
{
    let mut found = Mask::none();
    for term in &condition.terms {
        let rest = mask.and_not(&found);
        let next = term_rows(columns, id, term, &rest);
        found = found.or(&next);
    }
    found
}

/// The rows of a mask at which a term is true.
#[cycle(rows)]
fn term_rows<C: Columns>(columns: &mut C, id: VectorId, term: &Term, mask: &Mask) -> Mask
    requires there { IsThere (C.seen columns.old).state id.batch id.vector }
    ensures value { result ≡ yes_of mask.now (truth_in (C.seen columns.old).table (vector_of (C.seen columns.old).state id) (formula_of_term term.now)) }
    ensures read { IsRead (C.seen columns.old) (C.seen columns.new) (condition_mentions (formula_of_term term.now)) }
{
    let mut rows = mask.and(mask);
    for factor in &term.factors {
        rows = factor_rows(columns, id, factor, &rows);
    }
    rows
}

/// The rows of a mask at which a factor is true. If there are no rows, nothing is evaluated.
#[cycle(rows)]
fn factor_rows<C: Columns>(columns: &mut C, id: VectorId, factor: &Factor, mask: &Mask) -> Mask
    requires there { IsThere (C.seen columns.old).state id.batch id.vector }
    ensures value { result ≡ yes_of mask.now (truth_in (C.seen columns.old).table (vector_of (C.seen columns.old).state id) (formula_of_factor factor.now)) }
    ensures read { IsRead (C.seen columns.old) (C.seen columns.new) (condition_mentions (formula_of_factor factor.now)) }
{
    if mask.next_true(0) == 1024 {
        return Mask::none();
    }
    if factor.negated {
        let pair = factor_masks(columns, id, factor, mask);
        return pair.yes;
    }
    test_rows(columns, id, &factor.test, mask)
}

/// The rows of a mask at which a test is true.
#[cycle(rows)]
fn test_rows<C: Columns>(columns: &mut C, id: VectorId, test: &Test, mask: &Mask) -> Mask
    requires there { IsThere (C.seen columns.old).state id.batch id.vector }
    ensures value { result ≡ yes_of mask.now (truth_in (C.seen columns.old).table (vector_of (C.seen columns.old).state id) (formula_of_test test.now)) }
    ensures read { IsRead (C.seen columns.old) (C.seen columns.new) (condition_mentions (formula_of_test test.now)) }
{
    match test.is {
        None => primary_rows(columns, id, &test.primary, mask),
        Some(_) => {
            let pair = test_masks(columns, id, test, mask);
            pair.yes
        }
    }
}

/// The rows of a mask at which a predicate, or a condition in parentheses, is true.
#[cycle(rows)]
fn primary_rows<C: Columns>(columns: &mut C, id: VectorId, primary: &Primary, mask: &Mask) -> Mask
    requires there { IsThere (C.seen columns.old).state id.batch id.vector }
    ensures value { result ≡ yes_of mask.now (truth_in (C.seen columns.old).table (vector_of (C.seen columns.old).state id) (formula_of_primary primary.now)) }
    ensures read { IsRead (C.seen columns.old) (C.seen columns.new) (condition_mentions (formula_of_primary primary.now)) }
{
    match primary {
        Primary::Nested(condition) => condition_rows(columns, id, condition, mask),
        Primary::Predicate(predicate) => predicate_rows(columns, id, predicate, mask),
    }
}

/// The rows of a mask at which a predicate is true.
fn predicate_rows<C: Columns>(
    columns: &mut C,
    id: VectorId,
    predicate: &Predicate,
    mask: &Mask,
) -> Mask
    requires there { IsThere (C.seen columns.old).state id.batch id.vector }
    ensures value { result ≡ yes_of mask.now (truth_in (C.seen columns.old).table (vector_of (C.seen columns.old).state id) (says predicate.now)) }
    ensures read { IsRead (C.seen columns.old) (C.seen columns.new) (predicate_mentions predicate.now) }
{
    match predicate {
        Predicate::Between {
            operand,
            negated: false,
            low: Operand::Literal(low),
            high: Operand::Literal(high),
        } => range_rows(columns, id, operand, *low, *high, mask),
        _ => {
            let pair = predicate_masks(columns, id, predicate, mask);
            pair.yes
        }
    }
}
