//! Values of a dictionary written to their rows, by the codes of all 64 lanes of a step at once.
ghost use Rattle.std.specs.Prelude.{◌≡◌, ◌≢◌, ℕ, ◌+◌, ◌*◌, ◌%◌, ◌<◌, length, slice_index};
ghost use Rattle.transpose_order.specs.Place.{lane_of};
ghost use Rattle.bit_interleave.specs.Range.{value_at};
ghost use Rattle.run_dictionary.specs.Dict.{dict_values};

use native_lanes::numbers_16;
use run_dictionary::Dict;

/// Writes the values of a group of sixteen codes to the rows at a place of each 64.
#[inline(always)]
fn put_group(values: &[i64], codes: &[u16; 64], group: usize, place: usize, rows: &mut [i64; 1024])
    requires codes { (lane : ℕ) → lane < 64 → slice_index codes.now lane < length values.now }
    requires group { group < 4 }
    requires place { place < 64 }
    ensures written { (i : ℕ) → i < 16 → value_at rows.new (64 * i + place) ≡ value_at values.now (slice_index codes.now (16 * group + i)) }
    ensures others { (n : ℕ) → n % 64 ≢ place → value_at rows.new n ≡ value_at rows.old n }
{
    for i in 0..16 {
        rows[64 * i + place] = values[usize::from(codes[16 * group + i])];
    }
}

/// Writes the values of the codes of all lanes at a step to their rows.
#[inline(always)]
fn put_step(values: &[i64], codes: &[u16; 64], step: usize, rows: &mut [i64; 1024])
    requires codes { (lane : ℕ) → lane < 64 → slice_index codes.now lane < length values.now }
    requires step { step < 16 }
    ensures written { (n : ℕ) → n < 1024 → n % 16 ≡ step → value_at rows.new n ≡ value_at values.now (slice_index codes.now (lane_of 16 n)) }
    ensures others { (n : ℕ) → n % 16 ≢ step → value_at rows.new n ≡ value_at rows.old n }
{
    put_group(values, codes, 0, step, rows);
    put_group(values, codes, 2, step + 16, rows);
    put_group(values, codes, 1, step + 32, rows);
    put_group(values, codes, 3, step + 48, rows);
}

/// Writes the 1024 values of a dictionary's codes in row order.
pub(crate) fn decode_codes(form: &Dict, rows: &mut [i64; 1024])
    ensures { rows.new ≡ dict_values form.now }
{
    let width = form.width();
    let words = form.codes().words_16();
    let mut room = [0; 1024];
    let values = form.values().in_room(&mut room);
    for step in 0..16 {
        let codes = numbers_16(width, words, step);
        put_step(values, &codes, step, rows);
    }
}
