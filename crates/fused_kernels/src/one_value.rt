//! Comparisons of two coded vectors, one of which has a single value: the other is compared with that number.
ghost use Rattle.std.specs.Prelude.{◌≡◌, ◌<◌, ℕ, IfSome, IsSome};
ghost use Rattle.transpose_order.specs.Mask.{rows_of};
ghost use Rattle.frame_delta.specs.Frame.{FrameForm, frame_value};
ghost use Rattle.table_model.specs.Truth.{compared};
ghost use Rattle.segment_core.specs.Coded.{value_in, lane_width_of};
ghost use Rattle.segment_core.specs.declared.coded.Coded.TheVariants.{For as InFor};

use crate::range_rows::found_by_literal;
use frame_delta::For;
use segment_core::Coded;
use table_model::Op;
use transpose_order::Mask;

/// The reference of a frame without packed numbers, which is its value at each row; none if it has packed numbers.
fn reference_alone(form: &For) -> Option<i64>
    ensures value { IfSome result (λ value. (n : ℕ) → frame_value form.now n ≡ value) }
    ensures answers { form.now.width ≡ 0 → IsSome result }
{
    if form.width() == 0 {
        return Some(form.reference());
    }
    None
}

/// The value that a vector has at each row if it is a frame without packed numbers; otherwise none.
fn one_value_of(coded: &Coded) -> Option<i64>
    ensures value { IfSome result (λ value. (n : ℕ) → value_in coded.now n ≡ value) }
    ensures answers { (form : FrameForm) → coded.now ≡ InFor form → form.width ≡ 0 → IsSome result }
{
    match coded {
        Coded::For(form) => reference_alone(form.get()),
        Coded::Delta(_) => None,
        Coded::Runs(_) => None,
        Coded::Dict(_) => None,
    }
}

/// The rows at which a comparison of a vector's values with another's holds, if the other is a frame without packed numbers;
/// otherwise none. It can also be none if the vector's lanes have 8 bits.
fn found_beside_right(left: &Coded, op: Op, right: &Coded) -> Option<Mask>
    ensures rows { IfSome result (λ found. found ≡ rows_of (λ n. compared op (value_in left.now n) (value_in right.now n))) }
    ensures answers { (form : FrameForm) → right.now ≡ InFor form → form.width ≡ 0 → 8 < lane_width_of left.now → IsSome result }
{
    match one_value_of(right) {
        None => None,
        Some(value) => found_by_literal(left, op, i128::from(value)),
    }
}

/// The rows at which a comparison of two vectors' values holds, if one of them is a frame without packed numbers; otherwise none.
/// It can also be none if the other's lanes have 8 bits.
pub(crate) fn found_beside_one(left: &Coded, op: Op, right: &Coded) -> Option<Mask>
    ensures rows { IfSome result (λ found. found ≡ rows_of (λ n. compared op (value_in left.now n) (value_in right.now n))) }
    ensures right { (form : FrameForm) → right.now ≡ InFor form → form.width ≡ 0 → 8 < lane_width_of left.now → IsSome result }
    ensures left { (form : FrameForm) → left.now ≡ InFor form → form.width ≡ 0 → 8 < lane_width_of right.now → IsSome result }
{
    match found_beside_right(left, op, right) {
        None => found_beside_right(right, op.turned(), left),
        Some(found) => Some(found),
    }
}
