//! Whether runs are the canonical form.
ghost use Rattle.std.specs.Prelude.{◌≡◌, ◌↔◌, ◌<◌, ◌+◌, ◌*◌, ◌/◌, ◌==◌, ℕ, IsTrue, slice_index};
ghost use Rattle.std.specs.Int.{bit_at, w64, cast_unsigned};
ghost use Rattle.transpose_order.specs.Mask.{has};
ghost use Rattle.transpose_order.specs.Place.{IsLaneWidth};
ghost use Rattle.frame_delta.specs.Delta.{is_later, delta_bytes, least_delta};
ghost use Rattle.run_dictionary.specs.Runs.{run_value, run_values, least_runs};
ghost use Rattle.segment_core.specs.Choice.{choice};
ghost use Rattle.segment_core.specs.CanonicalForm.{IsCanonicalForm};
ghost use Rattle.segment_core.specs.LaterRows.{IsMixedWithin};
ghost use Rattle.segment_core.specs.declared.coding.Coding.TheVariants.{Runs as ByRuns};
ghost use Rattle.segment_core.specs.declared.coded.Coded.TheVariants.{Runs as InRuns};

use crate::frames::frame_bytes;
use crate::numbers::write_by_places;
use crate::repeats::RepeatingRows;
use frame_delta::Delta;
use run_dictionary::Runs;
use transpose_order::Mask;

/// Whether runs are the canonical form of a vector that is filled by their values: these repeat as the fill asks, their form is the
/// least, and RLE is chosen for them. `numbers` is room.
pub(crate) fn are_canonical_runs(
    form: &Runs,
    repeating: &RepeatingRows,
    numbers: &mut [u64; 1024],
) -> bool
    ensures { IsTrue result ↔ IsCanonicalForm repeating.now.rows repeating.now.valueless (InRuns form.now) }
{
    if !repeating.allow_first(form.value(0)) {
        return false;
    }
    if !form.is_least() {
        return false;
    }
    let broken = repeating.rows.and(form.starts());
    if broken.next_true(0) < 1024 {
        return false;
    }
    are_runs_chosen(form, numbers)
}

/// Whether RLE is chosen for the values of runs, of which they are the least form. `numbers` is room.
fn are_runs_chosen(form: &Runs, numbers: &mut [u64; 1024]) -> bool
    requires { form.now ≡ least_runs form.now.lane_width (run_values form.now) }
    ensures { IsTrue result ↔ (choice form.now.lane_width (run_values form.now) ≡ ByRuns) }
{
    let (lane_width, bytes) = (form.lane_width(), form.bytes_len());
    let (least, greatest) = form.extremes();
    if frame_bytes(lane_width, least, greatest) <= bytes {
        return false;
    }
    if form.dictionary_is_below(bytes) {
        return false;
    }
    if bytes < bytes_of_one_bit(lane_width) && are_mixed_within(lane_width, form.starts()) {
        return true;
    }
    !are_deltas_below(form, bytes + 1, numbers)
}

/// Whether the least deltas of the values of runs take fewer bytes than a bound. The rows of two places mostly tell that they take no
/// fewer. `numbers` is room.
fn are_deltas_below(form: &Runs, bound: u16, numbers: &mut [u64; 1024]) -> bool
    ensures { IsTrue result ↔ (delta_bytes (least_delta form.now.lane_width (run_values form.now)) < bound) }
{
    let lane_width = form.lane_width();
    let first = values_of_place(form, 0);
    let second = values_of_place(form, 1);
    if !Delta::may_be_below(lane_width, first, second, bound) {
        return false;
    }
    let mut values = [0; 1024];
    form.decode(&mut values);
    write_by_places(&values, numbers);
    Delta::is_below(lane_width, numbers, bound)
}

/// The values of the sixteen rows of a place.
fn values_of_place(form: &Runs, place: usize) -> [u64; 16]
    requires { place < 64 }
    ensures { (i : ℕ) → i < 16 → slice_index result i ≡ cast_unsigned w64 (run_value form.now (64 * i + place)) }
{
    let mut numbers = [0; 16];
    for i in 0..16 {
        numbers[i] = form.value(64 * i + place).cast_unsigned();
    }
    numbers
}

/// The payload's bytes of deltas of one bit.
fn bytes_of_one_bit(lane_width: usize) -> u16
    requires { IsLaneWidth lane_width }
    ensures { result ≡ lane_width / 8 + 256 }
{
    (lane_width / 8 + 256) as u16
}

/// Whether, of the rows that are not the first of their lane, a mask has one and lacks another.
fn are_mixed_within(lane_width: usize, mask: &Mask) -> bool
    requires { IsLaneWidth lane_width }
    ensures { IsTrue result ↔ IsMixedWithin lane_width mask.now }
{
    let later = later_rows(lane_width);
    let had = later.and(mask);
    let lacked = later.and_not(mask);
    had.next_true(0) < 1024 && lacked.next_true(0) < 1024
}

/// The rows that are not the first of their lane.
fn later_rows(lane_width: usize) -> Mask
    requires { IsLaneWidth lane_width }
    ensures { (n : ℕ) → n < 1024 → has result n ≡ is_later lane_width n }
{
    Mask::from_words([later_in_word(lane_width); 16])
}

/// The rows of a word of a mask that are not the first of their lane.
fn later_in_word(lane_width: usize) -> u64
    requires { IsLaneWidth lane_width }
    ensures { (place : ℕ) → place < 64 → (bit_at result place == 1) ≡ is_later lane_width place }
{
    match lane_width {
        8 => 0xFEFE_FEFE_FEFE_FEFE,
        16 => 0xFFFE_FFFE_FFFE_FFFE,
        32 => 0xFFFF_FFFE_FFFF_FFFE,
        _ => 0xFFFF_FFFF_FFFF_FFFE,
    }
}
