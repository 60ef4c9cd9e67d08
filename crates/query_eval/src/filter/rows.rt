//! BETWEEN over decoded cells row by row, and IN row by row or literal by literal.
ghost use Rattle.std.specs.Prelude.{◌≡◌, ◌<◌, cond, FitsSigned, IfSome, IsSome, List, None, Some, ℤ, pos, slice_index_or};
ghost use Rattle.std.specs.Int.{w64};
ghost use Rattle.std.specs.List.{All, list_any};
ghost use Rattle.std.specs.Ordering.{int_eq};
ghost use Rattle.table_model.specs.Answer.{whole};
ghost use Rattle.table_model.specs.Condition.{is_among};
ghost use Rattle.transpose_order.specs.Mask.{has, rows_of};
ghost use Rattle.query_eval.specs.Decoded.{decoded_at, rows_among, value_unless};
ghost use Rattle.query_eval.specs.Where.{IsPair, cell_between};

use crate::filter::decoded::Decoded;
use crate::filter::pair::Pair;
use crate::filter::value_rows::equal_rows;
use table_model::{Op, Truth};
use transpose_order::Mask;

/// With more literals than this, they are not compared one by one with all values if few rows are looked at.
const MANY_LITERALS: usize = 5;

/// Comparing this many rows with one literal costs as much as comparing all values with it.
const FEW_ROWS: usize = 256;

/// BETWEEN of three cells.
pub(crate) fn between(cell: Option<i128>, low: Option<i128>, high: Option<i128>) -> Truth
    ensures { result ≡ cell_between cell low high }
{
    Op::GreaterOrEqual
        .compare(cell, low)
        .and(Op::LessOrEqual.compare(cell, high))
}

/// BETWEEN at the rows of a mask.
pub fn between_rows(operand: &Decoded, low: &Decoded, high: &Decoded, mask: &Mask) -> Pair
    ensures { IsPair mask.now (λ n. cell_between (decoded_at operand.now n) (decoded_at low.now n) (decoded_at high.now n)) result }
{
    let mut pair = Pair {
        yes: Mask::none(),
        no: Mask::none(),
    };
    for row in 0..1024 {
        if mask.get(row) {
            pair.put(row, between(operand.at(row), low.at(row), high.at(row)));
        }
    }
    pair
}

/// Whether a value is one of the literals.
fn contains(literals: &[i128], value: i128) -> bool
    ensures { result ≡ list_any (int_eq value) literals.now }
{
    literals.iter().any(|literal| value == *literal)
}

/// IN of a cell.
pub(crate) fn among(cell: Option<i128>, literals: &[i128]) -> Truth
    ensures { result ≡ is_among (whole cell) literals.now }
{
    match cell {
        None => {
            if literals.is_empty() {
                Truth::False
            } else {
                Truth::Unknown
            }
        }
        Some(value) => Truth::from_bool(contains(literals, value)),
    }
}

/// The cell at a row of a column with these nulls and values.
fn cell_of(nulls: &Mask, values: &[i64; 1024], row: usize) -> Option<i128>
    requires { row < 1024 }
    ensures { result ≡ value_unless nulls.now values.now row }
{
    if nulls.get(row) {
        None
    } else {
        Some(i128::from(values[row]))
    }
}

/// IN of a column's cells at the rows of a mask, row by row.
fn among_by_row(nulls: &Mask, values: &[i64; 1024], literals: &[i128], mask: &Mask) -> Pair
    ensures { IsPair mask.now (λ n. is_among (whole (value_unless nulls.now values.now n)) literals.now) result }
{
    let mut pair = Pair {
        yes: Mask::none(),
        no: Mask::none(),
    };
    for row in 0..1024 {
        if mask.get(row) {
            pair.put(row, among(cell_of(nulls, values, row), literals));
        }
    }
    pair
}

/// A literal as a value of 64 bits, or `None` if it isn't one.
pub(crate) fn value_of(literal: i128) -> Option<i64>
    ensures value { IfSome result (λ value. value ≡ literal) }
    ensures answers { FitsSigned w64 literal → IsSome result }
{
    match i64::try_from(literal) {
        Ok(value) => Some(value),
        Err(_) => None,
    }
}

/// The rows whose value is a literal, or `None` if it doesn't fit 64 bits.
fn literal_rows(values: &[i64; 1024], literal: i128) -> Option<Mask>
    ensures answers { FitsSigned w64 literal → IsSome result }
    ensures rows { IfSome result (λ rows. rows ≡ rows_of (λ n. int_eq (slice_index_or values.now n (pos 0)) literal)) }
{
    let value = value_of(literal)?;
    Some(equal_rows(values, value))
}

/// The rows whose value is one of the literals, or `None` if one of them doesn't fit 64 bits.
fn values_among(values: &[i64; 1024], literals: &[i128]) -> Option<Mask>
    ensures answers { All (FitsSigned w64) literals.now → IsSome result }
    ensures rows { IfSome result (λ found. found ≡ rows_among values.now literals.now) }
{
    let mut found = Mask::none();
    for literal in literals {
        let rows = literal_rows(values, *literal)?;
        found = found.or(&rows);
    }
    Some(found)
}

/// IN of a column's cells at the rows of a mask, by the rows whose value is one of the literals: a null is unknown compared with
/// each literal, and false if there is no literal.
fn among_found(nulls: &Mask, found: &Mask, literals: &[i128], mask: &Mask) -> Pair
    ensures { (values : List ℤ) → found.now ≡ rows_among values literals.now → IsPair mask.now (λ n. is_among (whole (value_unless nulls.now values n)) literals.now) result }
{
    let known = if literals.is_empty() {
        *mask
    } else {
        mask.and_not(nulls)
    };
    Pair {
        yes: known.and(found),
        no: known.and_not(found),
    }
}

/// IN of a column with these nulls and values at the rows of a mask. A look at the 1024 values for one literal costs what 256 rows
/// cost with it, so that few rows and many literals go row by row, and so does a literal that doesn't fit 64 bits.
pub fn among_values(nulls: &Mask, values: &[i64; 1024], literals: &[i128], mask: &Mask) -> Pair
    ensures { IsPair mask.now (λ n. is_among (whole (value_unless nulls.now values.now n)) literals.now) result }
{
    if literals.len() > MANY_LITERALS && mask.count() < FEW_ROWS {
        return among_by_row(nulls, values, literals, mask);
    }
    match values_among(values, literals) {
        Some(found) => among_found(nulls, &found, literals, mask),
        None => among_by_row(nulls, values, literals, mask),
    }
}
