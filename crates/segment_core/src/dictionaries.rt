//! Whether a dictionary and codes are the canonical form.
ghost use Rattle.std.specs.Prelude.{◌≡◌, ◌↔◌, ◌<◌, ◌+◌, ◌*◌, ℕ, IsTrue, length, slice_index};
ghost use Rattle.std.specs.Int.{w64, cast_unsigned};
ghost use Rattle.bit_interleave.specs.Places.{by_place};
ghost use Rattle.bit_interleave.specs.Range.{value_at};
ghost use Rattle.frame_delta.specs.Delta.{delta_bytes, least_delta};
ghost use Rattle.frame_delta.specs.Frame.{TellApart};
ghost use Rattle.run_dictionary.specs.Dict.{code_at, dict_values, least_dict};
ghost use Rattle.segment_core.specs.Choice.{choice};
ghost use Rattle.segment_core.specs.CanonicalForm.{IsCanonicalForm};
ghost use Rattle.segment_core.specs.declared.coding.Coding.TheVariants.{Dict as ByDictionary};
ghost use Rattle.segment_core.specs.declared.coded.Coded.TheVariants.{Dict as InDictionary};

use crate::frames::frame_bytes;
use crate::repeats::RepeatingRows;
use bit_interleave::Values;
use frame_delta::Delta;
use run_dictionary::{Dict, Runs};

/// Whether a dictionary and codes are the canonical form of a vector that is filled by their values: these repeat as the fill asks,
/// their form is the least, and DICT is chosen for them. `codes` is room.
pub(crate) fn is_canonical_dictionary(
    form: &Dict,
    repeating: &RepeatingRows,
    codes: &mut [u64; 1024],
) -> bool
    ensures { IsTrue result ↔ IsCanonicalForm repeating.now.rows repeating.now.valueless (InDictionary form.now) }
{
    if !repeating.allow_first(form.value(0)) {
        return false;
    }
    form.write_codes(codes);
    if !form.is_least_of(codes) {
        return false;
    }
    if !repeating.hold(codes) {
        return false;
    }
    is_dictionary_chosen(form, codes)
}

/// Whether DICT is chosen for the values of a dictionary and codes, of which they are the least form. The codes are by places.
fn is_dictionary_chosen(form: &Dict, codes: &[u64; 1024]) -> bool
    requires least { form.now ≡ least_dict form.now.lane_width (dict_values form.now) }
    requires codes { (n : ℕ) → n < 1024 → by_place codes.now n ≡ code_at form.now n }
    requires below { (n : ℕ) → n < 1024 → by_place codes.now n < length form.now.values }
    requires apart { TellApart codes.now (dict_values form.now) }
    ensures { IsTrue result ↔ (choice form.now.lane_width (dict_values form.now) ≡ ByDictionary) }
{
    let (lane_width, bytes) = (form.lane_width(), form.bytes_len());
    let (least, greatest) = form.ends();
    if frame_bytes(lane_width, least, greatest) <= bytes {
        return false;
    }
    if Runs::is_below(lane_width, codes, bytes + 1) {
        return false;
    }
    !are_deltas_below(form, codes, bytes + 1)
}

/// Whether the least deltas of the values of a dictionary and codes take fewer bytes than a bound. The codes are by places. The rows
/// of two places mostly tell that they take no fewer.
fn are_deltas_below(form: &Dict, codes: &[u64; 1024], bound: u16) -> bool
    requires codes { (n : ℕ) → n < 1024 → by_place codes.now n ≡ code_at form.now n }
    requires below { (n : ℕ) → n < 1024 → by_place codes.now n < length form.now.values }
    ensures { IsTrue result ↔ (delta_bytes (least_delta form.now.lane_width (dict_values form.now)) < bound) }
{
    let (lane_width, dictionary) = (form.lane_width(), form.values());
    let first = values_of_place(dictionary, codes, 0);
    let second = values_of_place(dictionary, codes, 1);
    if !Delta::may_be_below(lane_width, first, second, bound) {
        return false;
    }
    let mut room = [0; 1024];
    let mut numbers = [0; 1024];
    write_values_at(dictionary.in_room(&mut room), codes, &mut numbers);
    Delta::is_below(lane_width, &numbers, bound)
}

/// The dictionary's values at the sixteen codes of a place, of codes by places.
fn values_of_place(dictionary: &Values, codes: &[u64; 1024], place: usize) -> [u64; 16]
    requires place { place < 64 }
    requires below { (i : ℕ) → i < 16 → slice_index codes.now (16 * place + i) < length dictionary.now.values }
    ensures { (i : ℕ) → i < 16 → slice_index result i ≡ cast_unsigned w64 (value_at dictionary.now.values (slice_index codes.now (16 * place + i))) }
{
    let mut numbers = [0; 16];
    for i in 0..16 {
        let code = codes[16 * place + i] as usize;
        numbers[i] = dictionary.get(code).cast_unsigned();
    }
    numbers
}

/// Writes the dictionary's value at each code, in the order of the codes.
fn write_values_at(dictionary: &[i64], codes: &[u64; 1024], numbers: &mut [u64; 1024])
    requires { (k : ℕ) → k < 1024 → slice_index codes.now k < length dictionary.now }
    ensures { (k : ℕ) → k < 1024 → slice_index numbers.new k ≡ cast_unsigned w64 (value_at dictionary.now (slice_index codes.now k)) }
{
    for k in 0..1024 {
        numbers[k] = dictionary[codes[k] as usize].cast_unsigned();
    }
}
