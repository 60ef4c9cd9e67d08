//! Predicates of HAVING by columns of numbers, as pairs of masks.
ghost use Rattle.std.specs.Prelude.{◌≡◌, ℕ, IfSome, List};
ghost use Rattle.table_model.specs.Answer.{whole};
ghost use Rattle.table_model.specs.Condition.{between, field_comparison, is_null};
ghost use Rattle.table_model.specs.Truth.{comparison, truth_of};
ghost use Rattle.query_eval.specs.Decoded.{value_unless};
ghost use Rattle.query_eval.specs.FieldPlaces.{group_at, placed_truth};
ghost use Rattle.query_eval.specs.Finished.{GroupFields};
ghost use Rattle.query_eval.specs.GroupNumbers.{HaveNumbers};
ghost use Rattle.query_eval.specs.Where.{IsPair, cell_between};

use crate::answers::compared_rows::compared_rows;
use crate::answers::field_places::PredicatePlaces;
use crate::answers::group_numbers::{GroupNumbers, Numbers};
use crate::filter::{Pair, among_values};
use table_model::{Op, Predicate};
use transpose_order::Mask;

/// The comparison of two columns at the groups of a mask.
fn compare_numbers(op: Op, left: &Numbers, right: &Numbers, mask: &Mask) -> Pair
    ensures { IsPair mask.now (λ n. comparison op (value_unless left.now.nulls left.now.values n) (value_unless right.now.nulls right.now.values n)) result }
{
    let holds = compared_rows(op, &left.values, &right.values);
    let known = mask.and_not(&left.nulls.or(&right.nulls));
    Pair {
        yes: known.and(&holds),
        no: known.and_not(&holds),
    }
}

/// BETWEEN of three columns at the groups of a mask.
fn between_numbers(operand: &Numbers, low: &Numbers, high: &Numbers, mask: &Mask) -> Pair
    ensures { IsPair mask.now (λ n. cell_between (value_unless operand.now.nulls operand.now.values n) (value_unless low.now.nulls low.now.values n) (value_unless high.now.nulls high.now.values n)) result }
{
    let above = compare_numbers(Op::GreaterOrEqual, operand, low, mask);
    let below = compare_numbers(Op::LessOrEqual, operand, high, mask);
    above.and(&below)
}

/// Whether the numbers of a column are null, at the groups of a mask.
fn null_numbers(numbers: &Numbers, mask: &Mask) -> Pair
    ensures { IsPair mask.now (λ n. truth_of (is_null (whole (value_unless numbers.now.nulls numbers.now.values n)))) result }
{
    Pair {
        yes: mask.and(&numbers.nulls),
        no: mask.and_not(&numbers.nulls),
    }
}

/// A predicate of HAVING at the groups of a mask, or `None` if an operand has a mean or a number that doesn't fit 64 bits. It is
/// never inlined, since it needs room for three columns.
#[inline(never)]
pub fn number_masks(
    numbers: &GroupNumbers,
    predicate: &Predicate,
    places: &PredicatePlaces,
    mask: &Mask,
) -> Option<Pair>
    ensures { (groups : List GroupFields) → HaveNumbers groups numbers.now → IfSome result (IsPair mask.now (λ n. placed_truth predicate.now places.now (group_at groups n))) }
{
    let first = numbers.at(places.first)?;
    match predicate {
        Predicate::Compare { op, .. } => {
            let second = numbers.at(places.second)?;
            Some(compare_numbers(*op, &first, &second, mask))
        }
        Predicate::Between { negated, .. } => {
            let low = numbers.at(places.second)?;
            let high = numbers.at(places.third)?;
            let pair = between_numbers(&first, &low, &high, mask);
            Some(pair.not_if(*negated))
        }
        Predicate::In {
            negated,
            literals,
            ..
        } => {
            let pair = among_values(&first.nulls, &first.values, literals.as_slice(), mask);
            Some(pair.not_if(*negated))
        }
        Predicate::IsNull { negated, .. } => {
            let pair = null_numbers(&first, mask);
            Some(pair.not_if(*negated))
        }
    }
}
