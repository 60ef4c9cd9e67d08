//! Whether deltas are the canonical form.
ghost use Rattle.std.specs.Prelude.{◌≡◌, ◌↔◌, IsTrue, pos};
ghost use Rattle.frame_delta.specs.Frame.{TellApart, AreAbove};
ghost use Rattle.frame_delta.specs.Delta.{delta_values, least_delta};
ghost use Rattle.segment_core.specs.Choice.{choice};
ghost use Rattle.segment_core.specs.CanonicalForm.{IsCanonicalForm};
ghost use Rattle.segment_core.specs.declared.coding.Coding.TheVariants.{Delta as ByDeltas};
ghost use Rattle.segment_core.specs.declared.coded.Coded.TheVariants.{Delta as InDeltas};

use crate::repeats::RepeatingRows;
use frame_delta::{Delta, For};
use run_dictionary::{Dict, Runs};

/// Whether deltas are the canonical form of a vector that is filled by their values: these repeat as the fill asks, their form is
/// the least, and DELTA is chosen for them. `numbers` is room.
pub(crate) fn are_canonical_deltas(
    form: &Delta,
    repeating: &RepeatingRows,
    numbers: &mut [u64; 1024],
) -> bool
    ensures { IsTrue result ↔ IsCanonicalForm repeating.now.rows repeating.now.valueless (InDeltas form.now) }
{
    if !repeating.allow_first(form.value(0)) {
        return false;
    }
    form.unpack(numbers);
    if !form.is_least_of(numbers) {
        return false;
    }
    form.sum(numbers);
    if !repeating.hold(numbers) {
        return false;
    }
    are_deltas_chosen(form, numbers)
}

/// Whether DELTA is chosen for the values of deltas, of which they are the least form and which these numbers by places are, modulo
/// two to the power of the lane width.
fn are_deltas_chosen(form: &Delta, numbers: &[u64; 1024]) -> bool
    requires least { form.now ≡ least_delta form.now.lane_width (delta_values form.now) }
    requires values { AreAbove form.now.lane_width (pos 0) numbers.now (delta_values form.now) }
    requires apart { TellApart numbers.now (delta_values form.now) }
    ensures { IsTrue result ↔ (choice form.now.lane_width (delta_values form.now) ≡ ByDeltas) }
{
    let (lane_width, bytes) = (form.lane_width(), form.bytes_len());
    if For::is_below(lane_width, numbers, bytes + 1) {
        return false;
    }
    if Runs::is_below(lane_width, numbers, bytes) {
        return false;
    }
    !Dict::is_below(lane_width, numbers, bytes)
}
