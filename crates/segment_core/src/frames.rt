//! Whether a frame is the canonical form.
ghost use Rattle.std.specs.Prelude.{◌≡◌, ◌↔◌, ◌+◌, ◌*◌, ◌/◌, ◌≤ℤ◌, IsTrue};
ghost use Rattle.std.specs.Int.{int_gap};
ghost use Rattle.transpose_order.specs.Place.{IsLaneWidth};
ghost use Rattle.bit_interleave.specs.Arithmetic.{least_width};
ghost use Rattle.frame_delta.specs.Frame.{frame_values, least_frame, TellApart, AreAbove};
ghost use Rattle.segment_core.specs.Choice.{choice};
ghost use Rattle.segment_core.specs.CanonicalForm.{IsCanonicalForm};
ghost use Rattle.segment_core.specs.declared.coding.Coding.TheVariants.{For as ByFrame};
ghost use Rattle.segment_core.specs.declared.coded.Coded.TheVariants.{For as InFrame};

use crate::repeats::RepeatingRows;
use bit_interleave::{gap, width_of};
use frame_delta::{Delta, For};
use run_dictionary::{Dict, Runs};

/// Whether a frame is the canonical form of a vector that is filled by its values: these repeat as the fill asks, it is their least
/// form, and FOR is chosen for them. `numbers` is room.
pub(crate) fn is_canonical_frame(
    form: &For,
    repeating: &RepeatingRows,
    numbers: &mut [u64; 1024],
) -> bool
    ensures { IsTrue result ↔ IsCanonicalForm repeating.now.rows repeating.now.valueless (InFrame form.now) }
{
    if form.width() == 0 {
        // All values are the reference: no coding takes fewer bytes, and FOR is the first.
        return repeating.allow_first(form.reference());
    }
    if !repeating.allow_first(form.value(0)) {
        return false;
    }
    form.unpack(numbers);
    if !form.is_least_of(numbers) {
        return false;
    }
    if !repeating.hold(numbers) {
        return false;
    }
    is_frame_chosen(form, numbers)
}

/// Whether FOR is chosen for the values of a frame, of which it is the least form and which these packed numbers by places tell.
fn is_frame_chosen(form: &For, numbers: &[u64; 1024]) -> bool
    requires least { form.now ≡ least_frame form.now.lane_width (frame_values form.now) }
    requires values { AreAbove form.now.lane_width form.now.reference numbers.now (frame_values form.now) }
    requires apart { TellApart numbers.now (frame_values form.now) }
    ensures { IsTrue result ↔ (choice form.now.lane_width (frame_values form.now) ≡ ByFrame) }
{
    let (lane_width, bytes) = (form.lane_width(), form.bytes_len());
    if Runs::is_below(lane_width, numbers, bytes) {
        return false;
    }
    if Delta::is_below(lane_width, numbers, bytes) {
        return false;
    }
    !Dict::is_below(lane_width, numbers, bytes)
}

/// The payload's bytes of the least frame of values from `least` to `greatest`, both reached.
pub(crate) fn frame_bytes(lane_width: usize, least: i64, greatest: i64) -> u16
    requires lane_width { IsLaneWidth lane_width }
    requires order { least ≤ℤ greatest }
    ensures { result ≡ lane_width / 8 + 128 * least_width (int_gap least greatest) }
{
    (lane_width / 8 + 128 * width_of(gap(least, greatest))) as u16
}
