//! Comparisons of coded vectors with a number, a range of numbers or one another, each with its count of passes.
ghost use Rattle.std.specs.Prelude.{◌≡◌, ◌<◌, ◌&&◌, not, IfSome, IsSome};
ghost use Rattle.table_model.specs.Truth.{compared};
ghost use Rattle.transpose_order.specs.Mask.{rows_of};
ghost use Rattle.frame_delta.specs.Frame.{FrameForm};
ghost use Rattle.segment_core.specs.Coded.{value_in, lane_width_of};
ghost use Rattle.segment_core.specs.declared.coded.Coded.TheVariants.{For as InFor};
ghost use Rattle.table_model.specs.Passes.{raised};
ghost use Rattle.fused_kernels.specs.Seen.{looked_at, between};
ghost use Rattle.fused_kernels.specs.VectorSeen.{vector_seen, native_width};

use crate::columns::{compare_columns, rows_where};
use crate::comparisons::compare;
use crate::meter::Meter;
use crate::one_value::found_beside_one;
use crate::range_rows::{both_parted, found_between, found_by_literal, parted, rows_of_vector};
use crate::ranges::compare_range;
use crate::value_pairs::found_beside;
use crate::vector_lanes::VectorLanes;
use run_dictionary::{Dict, Runs};
use segment_core::{Coded, CodedVector};
use table_model::Op;
use transpose_order::Mask;

/// A comparison of a vector's values with a literal by the vector's lanes.
fn compare_by_lanes(
    vector: &CodedVector,
    op: Op,
    literal: i128,
    mask: &Mask,
    meter: &mut Meter,
) -> (Mask, Mask)
    ensures yes { result.0 ≡ rows_of (λ n. looked_at (vector_seen vector.now 0) mask.now n && compared op (value_in vector.now.coded n) literal) }
    ensures no { result.1 ≡ rows_of (λ n. looked_at (vector_seen vector.now 0) mask.now n && not (compared op (value_in vector.now.coded n) literal)) }
    ensures pass { meter.new ≡ raised 1 meter.old }
{
    compare(&mut VectorLanes::new(vector, meter), op, literal, mask)
}

/// A comparison of a vector's values with a range of numbers by the vector's lanes.
fn compare_range_by_lanes(
    vector: &CodedVector,
    low: i128,
    high: i128,
    mask: &Mask,
    meter: &mut Meter,
) -> (Mask, Mask)
    ensures yes { result.0 ≡ rows_of (λ n. looked_at (vector_seen vector.now 0) mask.now n && between low high (value_in vector.now.coded n)) }
    ensures no { result.1 ≡ rows_of (λ n. looked_at (vector_seen vector.now 0) mask.now n && not (between low high (value_in vector.now.coded n))) }
    ensures pass { meter.new ≡ raised 1 meter.old }
{
    compare_range(&mut VectorLanes::new(vector, meter), low, high, mask)
}

/// Of a vector's rows looked at, those at which the comparison of the value with a literal holds, and those at which it doesn't.
/// The rows looked at are those of the mask that are covered and not null. The meter counts one pass more. Runs are compared one by
/// one, and the codes of a dictionary in place of its values. If the reference and the width of a frame or the ends of a dictionary
/// decide, no word is read.
pub fn compare_vector(
    vector: &CodedVector,
    op: Op,
    literal: i128,
    mask: &Mask,
    meter: &mut Meter,
) -> (Mask, Mask)
    ensures yes { result.0 ≡ rows_of (λ n. looked_at (vector_seen vector.now 0) mask.now n && compared op (value_in vector.now.coded n) literal) }
    ensures no { result.1 ≡ rows_of (λ n. looked_at (vector_seen vector.now 0) mask.now n && not (compared op (value_in vector.now.coded n) literal)) }
    ensures pass { meter.new ≡ raised 1 meter.old }
{
    match found_by_literal(vector.coded(), op, literal) {
        None => compare_by_lanes(vector, op, literal, mask, meter),
        Some(found) => {
            meter.add_pass();
            parted(vector, &found, mask)
        }
    }
}

/// Of a vector's rows looked at, those whose value is neither below `low` nor above `high`, and the others. The rows looked at are
/// those of the mask that are covered and not null. The meter counts one pass more. It uses the coding, as `compare_vector` does.
pub fn compare_vector_range(
    vector: &CodedVector,
    low: i128,
    high: i128,
    mask: &Mask,
    meter: &mut Meter,
) -> (Mask, Mask)
    ensures yes { result.0 ≡ rows_of (λ n. looked_at (vector_seen vector.now 0) mask.now n && between low high (value_in vector.now.coded n)) }
    ensures no { result.1 ≡ rows_of (λ n. looked_at (vector_seen vector.now 0) mask.now n && not (between low high (value_in vector.now.coded n))) }
    ensures pass { meter.new ≡ raised 1 meter.old }
{
    match found_between(vector.coded(), low, high) {
        None => compare_range_by_lanes(vector, low, high, mask, meter),
        Some(found) => {
            meter.add_pass();
            parted(vector, &found, mask)
        }
    }
}

/// Whether a vector's values are decoded faster than its lanes are looked at: they are if it has runs or a dictionary.
fn is_decoded_faster(vector: &CodedVector) -> bool {
    matches!(vector.coded(), Coded::Runs(_) | Coded::Dict(_))
}

/// A comparison of two vectors' values by their lanes.
fn compare_vectors_by_lanes(
    left: &CodedVector,
    op: Op,
    right: &CodedVector,
    mask: &Mask,
    meter: &mut Meter,
) -> (Mask, Mask)
    ensures yes { result.0 ≡ rows_of (λ n. (looked_at (vector_seen left.now 0) mask.now n && looked_at (vector_seen right.now 0) mask.now n)
        && compared op (value_in left.now.coded n) (value_in right.now.coded n)) }
    ensures no { result.1 ≡ rows_of (λ n. (looked_at (vector_seen left.now 0) mask.now n && looked_at (vector_seen right.now 0) mask.now n)
        && not (compared op (value_in left.now.coded n) (value_in right.now.coded n))) }
    ensures pass { meter.new ≡ raised 2 meter.old }
{
    let mut lefts = VectorLanes::new(left, meter);
    let mut rights = VectorLanes::new(right, meter);
    compare_columns(&mut lefts, op, &mut rights, mask)
}

/// A comparison of two vectors' values, decoded. Its room for them is its own: no other comparison needs any.
#[inline(never)]
fn compare_decoded(left: &CodedVector, op: Op, right: &CodedVector, mask: &Mask) -> (Mask, Mask)
    ensures yes { result.0 ≡ rows_of (λ n. (looked_at (vector_seen left.now 0) mask.now n && looked_at (vector_seen right.now 0) mask.now n)
        && compared op (value_in left.now.coded n) (value_in right.now.coded n)) }
    ensures no { result.1 ≡ rows_of (λ n. (looked_at (vector_seen left.now 0) mask.now n && looked_at (vector_seen right.now 0) mask.now n)
        && not (compared op (value_in left.now.coded n) (value_in right.now.coded n))) }
{
    let rows = rows_of_vector(left, mask).and(&rows_of_vector(right, mask));
    let mut lefts = [0; 1024];
    let mut rights = [0; 1024];
    left.coded().decode(&mut lefts);
    right.coded().decode(&mut rights);
    let found = rows_where(&lefts, op, &rights);
    (rows.and(&found), rows.and_not(&found))
}

/// A comparison of two vectors' values: decoded if one of them has runs or a dictionary, otherwise by their lanes.
fn compare_value_by_value(
    left: &CodedVector,
    op: Op,
    right: &CodedVector,
    mask: &Mask,
    meter: &mut Meter,
) -> (Mask, Mask)
    ensures yes { result.0 ≡ rows_of (λ n. (looked_at (vector_seen left.now 0) mask.now n && looked_at (vector_seen right.now 0) mask.now n)
        && compared op (value_in left.now.coded n) (value_in right.now.coded n)) }
    ensures no { result.1 ≡ rows_of (λ n. (looked_at (vector_seen left.now 0) mask.now n && looked_at (vector_seen right.now 0) mask.now n)
        && not (compared op (value_in left.now.coded n) (value_in right.now.coded n))) }
    ensures pass { meter.new ≡ raised 2 meter.old }
{
    if is_decoded_faster(left) || is_decoded_faster(right) {
        meter.add_pass();
        meter.add_pass();
        return compare_decoded(left, op, right, mask);
    }
    compare_vectors_by_lanes(left, op, right, mask, meter)
}

/// The rows at which a comparison of two vectors' values holds. None if they have to be decoded or their lanes looked at.
fn found_of_both(left: &Coded, op: Op, right: &Coded) -> Option<Mask>
    ensures rows { IfSome result (λ found. found ≡ rows_of (λ n. compared op (value_in left.now n) (value_in right.now n))) }
    ensures right { (form : FrameForm) → right.now ≡ InFor form → form.width ≡ 0 → 8 < lane_width_of left.now → IsSome result }
    ensures left { (form : FrameForm) → left.now ≡ InFor form → form.width ≡ 0 → 8 < lane_width_of right.now → IsSome result }
    ensures lanes { native_width left.now ≡ native_width right.now → 8 < native_width left.now → IsSome result }
{
    match found_beside_one(left, op, right) {
        None => found_beside(left, op, right),
        Some(found) => Some(found),
    }
}

/// Of the rows looked at, those at which the comparison of two vectors' values holds, and those at which it doesn't. The rows
/// looked at are those of the mask that both cover and that are null in neither. The meter counts two passes more.
pub fn compare_vectors(
    left: &CodedVector,
    op: Op,
    right: &CodedVector,
    mask: &Mask,
    meter: &mut Meter,
) -> (Mask, Mask)
    ensures yes { result.0 ≡ rows_of (λ n. (looked_at (vector_seen left.now 0) mask.now n && looked_at (vector_seen right.now 0) mask.now n)
        && compared op (value_in left.now.coded n) (value_in right.now.coded n)) }
    ensures no { result.1 ≡ rows_of (λ n. (looked_at (vector_seen left.now 0) mask.now n && looked_at (vector_seen right.now 0) mask.now n)
        && not (compared op (value_in left.now.coded n) (value_in right.now.coded n))) }
    ensures pass { meter.new ≡ raised 2 meter.old }
{
    match found_of_both(left.coded(), op, right.coded()) {
        None => compare_value_by_value(left, op, right, mask, meter),
        Some(found) => {
            meter.add_pass();
            meter.add_pass();
            both_parted(left, right, &found, mask)
        }
    }
}
