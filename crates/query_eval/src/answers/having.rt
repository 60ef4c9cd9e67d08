//! Predicates of HAVING at a finished group.
ghost use Rattle.std.specs.Prelude.{◌≡◌, ◌*ℤ◌, pos};
ghost use Rattle.table_model.specs.Condition.{between, field_comparison, is_among, is_null, not_if};
ghost use Rattle.table_model.specs.Truth.{compared};
ghost use Rattle.query_eval.specs.FieldPlaces.{group_at, placed_truth};

use crate::answers::field_places::PredicatePlaces;
use crate::tallies::FinishedGroup;
use table_model::{Field, Literals, MILLION, Op, Predicate, Truth};

/// The comparison of a whole number, on the left, with a number of millionths.
fn holds_of_whole(op: Op, whole: i128, millionths: i128) -> bool
    ensures { result ≡ compared op (whole *ℤ pos 1000000) millionths }
{
    match whole.checked_mul(MILLION) {
        Some(left) => op.holds(left, millionths),
        None => op.holds(whole, 0),
    }
}

/// The comparison of a number of millionths, on the left, with a whole number.
fn holds_of_millionths(op: Op, millionths: i128, whole: i128) -> bool
    ensures { result ≡ compared op millionths (whole *ℤ pos 1000000) }
{
    match whole.checked_mul(MILLION) {
        Some(right) => op.holds(millionths, right),
        None => op.holds(0, whole),
    }
}

/// The comparison of two fields: in millionths if one of them is a number of millionths, and unknown if one is null.
fn compare_fields(op: Op, left: Field, right: Field) -> Truth
    ensures { result ≡ field_comparison op left right }
{
    match (left, right) {
        (Field::Null, _) | (_, Field::Null) => Truth::Unknown,
        (Field::Whole(x), Field::Whole(y)) | (Field::Millionths(x), Field::Millionths(y)) => {
            Truth::from_bool(op.holds(x, y))
        }
        (Field::Whole(x), Field::Millionths(y)) => Truth::from_bool(holds_of_whole(op, x, y)),
        (Field::Millionths(x), Field::Whole(y)) => Truth::from_bool(holds_of_millionths(op, x, y)),
    }
}

/// Whether a field is one of the literals.
fn among(field: Field, literals: &Literals) -> Truth
    ensures { result ≡ is_among field literals.now }
{
    let mut truth = Truth::False;
    for literal in literals.as_slice() {
        truth = truth.or(compare_fields(Op::Equal, field, Field::Whole(*literal)));
    }
    truth
}

/// Whether a field is neither below one field nor above another.
fn between(field: Field, low: Field, high: Field) -> Truth
    ensures { result ≡ between field low high }
{
    compare_fields(Op::GreaterOrEqual, field, low).and(compare_fields(Op::LessOrEqual, field, high))
}

/// The truth value, under NOT or not.
fn not_if(negated: bool, truth: Truth) -> Truth
    ensures { result ≡ not_if negated truth }
{
    if negated { truth.not() } else { truth }
}

/// Whether a field is null.
fn is_null(field: Field) -> bool
    ensures { result ≡ is_null field }
{
    match field {
        Field::Null => true,
        Field::Whole(_) | Field::Millionths(_) => false,
    }
}

/// A predicate of HAVING at one of some groups, by the places of its operands.
pub fn truth_at(
    predicate: &Predicate,
    places: &PredicatePlaces,
    groups: &[FinishedGroup],
    row: usize,
) -> Truth
    ensures { result ≡ placed_truth predicate.now places.now (group_at groups.now row) }
{
    match predicate {
        Predicate::Compare { op, .. } => {
            let left = places.first.at(groups, row);
            compare_fields(*op, left, places.second.at(groups, row))
        }
        Predicate::Between { negated, .. } => {
            let field = places.first.at(groups, row);
            let low = places.second.at(groups, row);
            let high = places.third.at(groups, row);
            not_if(*negated, between(field, low, high))
        }
        Predicate::In {
            negated,
            literals,
            ..
        } => not_if(*negated, among(places.first.at(groups, row), literals)),
        Predicate::IsNull { negated, .. } => {
            let field = places.first.at(groups, row);
            not_if(*negated, Truth::from_bool(is_null(field)))
        }
    }
}
