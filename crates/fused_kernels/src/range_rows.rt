//! The rows of a coded vector whose value is in a range, found in the way of its coding.
ghost use Rattle.std.specs.Prelude.{◌≡◌, ℕ, ◌<◌, ◌&&◌, not, IfSome, IsSome, if◌then◌else◌};
ghost use Rattle.table_model.specs.Truth.{compared};
ghost use Rattle.transpose_order.specs.Mask.{rows_of, has};
ghost use Rattle.run_dictionary.specs.Runs.{RunForm};
ghost use Rattle.run_dictionary.specs.Dict.{DictForm};
ghost use Rattle.segment_core.specs.Coded.{IsCodedForm, value_in, lane_width_of};
ghost use Rattle.segment_core.specs.declared.coded.Coded.TheVariants.{Runs as InRuns, Dict as InDict};
ghost use Rattle.fused_kernels.specs.Seen.{looked_at, between};
ghost use Rattle.fused_kernels.specs.VectorSeen.{vector_seen};

use crate::codes::dict_between;
use crate::comparisons::range_of;
use crate::lanes::rows_among;
use crate::ranges::{first_from, last_up_to};
use crate::runs::runs_between;
use native_lanes::Packed;
use segment_core::{Coded, CodedVector};
use table_model::Op;
use transpose_order::Mask;

/// The rows of a vector that are looked at: those of the mask that are covered and not null.
pub(crate) fn rows_of_vector(vector: &CodedVector, mask: &Mask) -> Mask
    ensures { result ≡ rows_of (looked_at (vector_seen vector.now 0) mask.now) }
{
    rows_among(vector.rows(), &vector.null_rows(), mask)
}

/// The rows whose value is neither below `low` nor above `high`. None if the lanes have to be looked at, which have 8 bits then.
fn found_by_coding(coded: &Coded, low: i64, high: i64) -> Option<Mask>
    ensures rows { IfSome result (λ found. found ≡ rows_of (λ n. between low high (value_in coded.now n))) }
    ensures wide { 8 < lane_width_of coded.now → IsSome result }
    ensures runs { (form : RunForm) → coded.now ≡ InRuns form → IsSome result }
    ensures dict { (form : DictForm) → coded.now ≡ InDict form → IsSome result }
{
    match coded {
        Coded::For(form) => {
            let found = Packed::Frame(form.get()).within(low, high)?;
            Some(found)
        }
        Coded::Delta(form) => {
            let found = Packed::Deltas(form.get()).within(low, high)?;
            Some(found)
        }
        Coded::Runs(form) => Some(runs_between(form.get(), low, high)),
        Coded::Dict(form) => Some(dict_between(form.get(), low, high)),
    }
}

/// The rows whose value is neither below `low` nor above `high`. None if the lanes have to be looked at, which have 8 bits then.
pub(crate) fn found_between(coded: &Coded, low: i128, high: i128) -> Option<Mask>
    ensures rows { IfSome result (λ found. found ≡ rows_of (λ n. between low high (value_in coded.now n))) }
    ensures wide { 8 < lane_width_of coded.now → IsSome result }
    ensures runs { (form : RunForm) → coded.now ≡ InRuns form → IsSome result }
    ensures dict { (form : DictForm) → coded.now ≡ InDict form → IsSome result }
    ensures form { IsCodedForm coded.now }
{
    coded.keeps_its_rule();
    if i128::from(i64::MAX) < low || high < i128::from(i64::MIN) {
        return Some(Mask::none());
    }
    let found = found_by_coding(coded, first_from(low), last_up_to(high))?;
    Some(found)
}

/// The rows found, or, if `inside` is false, the others.
pub(crate) fn held(found: &Mask, inside: bool) -> Mask
    ensures { result ≡ rows_of (λ n. if inside then has found.now n else not (has found.now n)) }
{
    if inside {
        return Mask::all().and(found);
    }
    found.not()
}

/// The rows at which a comparison of the value with a literal holds. None if the lanes have to be looked at, which have 8 bits
/// then.
pub(crate) fn found_by_literal(coded: &Coded, op: Op, literal: i128) -> Option<Mask>
    ensures rows { IfSome result (λ found. found ≡ rows_of (λ n. compared op (value_in coded.now n) literal)) }
    ensures wide { 8 < lane_width_of coded.now → IsSome result }
    ensures runs { (form : RunForm) → coded.now ≡ InRuns form → IsSome result }
    ensures dict { (form : DictForm) → coded.now ≡ InDict form → IsSome result }
{
    let (low, high, inside) = range_of(op, literal);
    match found_between(coded, low, high) {
        None => None,
        Some(found) => Some(held(&found, inside)),
    }
}

/// The rows of a vector looked at that are among those found, and the other rows looked at.
pub(crate) fn parted(vector: &CodedVector, found: &Mask, mask: &Mask) -> (Mask, Mask)
    ensures yes { result.0 ≡ rows_of (λ n. looked_at (vector_seen vector.now 0) mask.now n && has found.now n) }
    ensures no { result.1 ≡ rows_of (λ n. looked_at (vector_seen vector.now 0) mask.now n && not (has found.now n)) }
{
    let rows = rows_of_vector(vector, mask);
    (rows.and(found), rows.and_not(found))
}

/// The rows of two vectors looked at in both that are among those found, and the other rows looked at in both.
pub(crate) fn both_parted(
    left: &CodedVector,
    right: &CodedVector,
    found: &Mask,
    mask: &Mask,
) -> (Mask, Mask)
    ensures yes { result.0 ≡ rows_of (λ n. (looked_at (vector_seen left.now 0) mask.now n && looked_at (vector_seen right.now 0) mask.now n) && has found.now n) }
    ensures no { result.1 ≡ rows_of (λ n. (looked_at (vector_seen left.now 0) mask.now n && looked_at (vector_seen right.now 0) mask.now n) && not (has found.now n)) }
{
    let rows = rows_of_vector(left, mask).and(&rows_of_vector(right, mask));
    (rows.and(found), rows.and_not(found))
}
