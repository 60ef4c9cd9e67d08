//! Codes of a vector's rows, each of which represents one value: the packed numbers of a frame, or a dictionary's codes.
ghost use Rattle.std.specs.Prelude.{◌≡◌, ◌≢◌, ◌==◌, ℕ, ◌+◌, ◌*◌, ◌%◌, ◌^◌, ◌<◌, ◌≤◌, IfSome, IsSome, None, is_some, cond, length, slice_index, pos, ◌+ℤ◌, ◌-◌, ◌-ℤ◌, ◌≤ℤ◌, int_lt, true};
ghost use Rattle.std.specs.Int.{bit_at};
ghost use Rattle.transpose_order.specs.Mask.{has};
ghost use Rattle.transpose_order.specs.Place.{lane_of, step_of};
ghost use Rattle.bit_interleave.specs.Packing.{packed_value};
ghost use Rattle.bit_interleave.specs.Range.{value_at};
ghost use Rattle.frame_delta.specs.Frame.{FrameForm, frame_value};
ghost use Rattle.run_dictionary.specs.Dict.{DictForm, code_at};
ghost use Rattle.native_lanes.specs.Frames.{IsPlain, top_value};
ghost use Rattle.segment_core.specs.declared.coded.Coded.TheVariants.{For as InFor, Dict as InDict};
ghost use Rattle.table_model.specs.Passes.{raised};
ghost use Rattle.fused_kernels.specs.RowRuns.{AreCodes, AreRowCodes, code_count};

use crate::bounds::is_plain;
use crate::meter::Meter;
use frame_delta::For;
use native_lanes::{Packed, numbers_16};
use run_dictionary::Dict;
use segment_core::{Coded, CodedVector};
use transpose_order::Mask;

/// The greatest width of a frame whose packed numbers are codes.
const WIDEST: usize = 8;

/// Writes how far each value is above a reference, at most 255.
fn write_distances(values: &[i64; 1024], reference: i64, codes: &mut [u16; 1024])
    requires { (n : ℕ) → n < 1024 → (reference ≤ℤ value_at values.now n) × (value_at values.now n ≤ℤ (reference +ℤ pos 255)) }
    ensures { (n : ℕ) → n < 1024 → pos (slice_index codes.new n) ≡ value_at values.now n -ℤ reference }
{
    for row in 0..1024 {
        codes[row] = (values[row] - reference) as u16;
    }
}

/// Writes a reference and the numbers that follow it, as many in all as are asked for.
fn write_keys(reference: i64, count: usize, keys: &mut [i64; 1024])
    requires count { count ≤ 256 }
    requires top { (reference +ℤ pos count) ≤ℤ pos (2 ^ 63) }
    ensures { (k : ℕ) → k < count → value_at keys.new k ≡ reference +ℤ pos k }
{
    for code in 0..count {
        keys[code] = reference + code as i64;
    }
}

/// Writes a group of sixteen codes to the rows at a place of each 64.
#[inline(always)]
fn put_group(numbers: &[u16; 64], group: usize, place: usize, codes: &mut [u16; 1024])
    requires group { group < 4 }
    requires place { place < 64 }
    ensures written { (i : ℕ) → i < 16 → slice_index codes.new (64 * i + place) ≡ slice_index numbers.now (16 * group + i) }
    ensures others { (n : ℕ) → n % 64 ≢ place → slice_index codes.new n ≡ slice_index codes.old n }
{
    for i in 0..16 {
        codes[64 * i + place] = numbers[16 * group + i];
    }
}

/// Writes the codes of all lanes at a step to their rows.
#[inline(always)]
fn put_step(numbers: &[u16; 64], step: usize, codes: &mut [u16; 1024])
    requires { step < 16 }
    ensures written { (n : ℕ) → n < 1024 → n % 16 ≡ step → slice_index codes.new n ≡ slice_index numbers.now (lane_of 16 n) }
    ensures others { (n : ℕ) → n % 16 ≢ step → slice_index codes.new n ≡ slice_index codes.old n }
{
    put_group(numbers, 0, step, codes);
    put_group(numbers, 2, step + 16, codes);
    put_group(numbers, 1, step + 32, codes);
    put_group(numbers, 3, step + 48, codes);
}

/// Writes the packed number of each row, of packed words as `numbers_16` takes them: 64 for each bit of the width, 0 to 16.
fn write_packed(width: usize, words: &[u16], codes: &mut [u16; 1024])
    requires width { width ≤ 16 }
    requires words { length words.now ≡ width * 64 }
    ensures { (n : ℕ) → n < 1024 → slice_index codes.new n ≡ packed_value 16 width words.now (lane_of 16 n) (step_of 16 n) }
{
    for step in 0..16 {
        put_step(&numbers_16(width, words, step), step, codes);
    }
}

/// Writes how far the value of each row of a frame is above its reference: the packed numbers, which lanes of 16 bits give as they
/// are. `values` is room for decoded values.
fn write_numbers(form: &For, reference: i64, values: &mut [i64; 1024], codes: &mut [u16; 1024])
    requires reference { reference ≡ form.now.reference }
    requires narrow { form.now.width ≤ 8 }
    requires plain { int_lt (top_value form.now) (pos (2 ^ (form.now.lane_width - 1))) ≡ true }
    ensures { (n : ℕ) → n < 1024 → pos (slice_index codes.new n) ≡ frame_value form.now n -ℤ form.now.reference }
{
    if form.lane_width() == 16 {
        write_packed(form.width(), form.words().words_16(), codes);
        return;
    }
    Packed::Frame(form).write_values(values);
    write_distances(values, reference, codes);
}

/// Writes the packed number of each row of a frame and the value that each number represents, and answers how many numbers the
/// width has. None if a value can wrap or the width is above 8.
fn frame_codes(form: &For, codes: &mut [u16; 1024], keys: &mut [i64; 1024]) -> Option<usize>
    ensures codes { IfSome result (λ count. AreCodes (InFor form.now) count codes.new keys.new) }
    ensures count { IfSome result (λ count. count ≡ 2 ^ form.now.width) }
    ensures answers { form.now.width ≤ 8 → IsPlain form.now → IsSome result }
    ensures none { result ≡ None → (codes.new ≡ codes.old) × (keys.new ≡ keys.old) }
{
    let width = form.width();
    if width > WIDEST || !is_plain(form) {
        return None;
    }
    let reference = form.reference();
    let count = 1 << width;
    write_numbers(form, reference, keys, codes);
    write_keys(reference, count, keys);
    Some(count)
}

/// Writes the code of each row of a dictionary.
fn write_codes(form: &Dict, codes: &mut [u16; 1024])
    ensures { (n : ℕ) → n < 1024 → slice_index codes.new n ≡ code_at form.now n }
{
    write_packed(form.width(), form.codes().words_16(), codes);
}

/// Writes the values of a dictionary in order.
fn write_values(form: &Dict, keys: &mut [i64; 1024])
    ensures { (k : ℕ) → k < length form.now.values → value_at keys.new k ≡ value_at form.now.values k }
{
    let values = form.values();
    for code in 0..values.len() {
        keys[code] = values.get(code);
    }
}

/// Writes the code of each row of a dictionary and its values, and answers how many values it has.
fn dict_codes(form: &Dict, codes: &mut [u16; 1024], keys: &mut [i64; 1024]) -> usize
    ensures codes { AreCodes (InDict form.now) result codes.new keys.new }
    ensures count { result ≡ length form.now.values }
{
    write_codes(form, codes);
    write_values(form, keys);
    form.values().len()
}

/// Writes a code for each row and the value that each code represents, and answers how many codes there are. None if the coding has
/// no codes.
fn coded_codes(coded: &Coded, codes: &mut [u16; 1024], keys: &mut [i64; 1024]) -> Option<usize>
    ensures codes { IfSome result (λ count. AreCodes coded.now count codes.new keys.new) }
    ensures count { IfSome result (λ count. count ≡ code_count coded.now) }
    ensures frames { (form : FrameForm) → coded.now ≡ InFor form → form.width ≤ 8 → IsPlain form → IsSome result }
    ensures dict { (form : DictForm) → coded.now ≡ InDict form → IsSome result }
    ensures none { result ≡ None → (codes.new ≡ codes.old) × (keys.new ≡ keys.old) }
{
    match coded {
        Coded::For(form) => frame_codes(form.get(), codes, keys),
        Coded::Delta(_) => None,
        Coded::Runs(_) => None,
        Coded::Dict(form) => Some(dict_codes(form.get(), codes, keys)),
    }
}

/// A code if it is put there, otherwise another.
#[inline(always)]
fn code_if(put: bool, code: u16, other: u16) -> u16
    ensures { result ≡ cond put code other }
{
    if put { code } else { other }
}

/// Writes a code at the rows of a word, whose bit `b` is row `first + b`.
#[inline(always)]
fn put_in_word(codes: &mut [u16; 1024], word: u64, first: usize, code: u16)
    requires { first + 64 ≤ 1024 }
    ensures written { (b : ℕ) → b < 64 → slice_index codes.new (first + b) ≡ cond (bit_at word b == 1) code (slice_index codes.old (first + b)) }
    ensures before { (n : ℕ) → n < first → slice_index codes.new n ≡ slice_index codes.old n }
    ensures after { (n : ℕ) → first + 64 ≤ n → slice_index codes.new n ≡ slice_index codes.old n }
{
    for bit in 0..64 {
        codes[first + bit] = code_if(word >> bit & 1 == 1, code, codes[first + bit]);
    }
}

/// Writes a code at the rows of a mask.
fn put_at(codes: &mut [u16; 1024], rows: &Mask, code: u16)
    ensures { (n : ℕ) → n < 1024 → slice_index codes.new n ≡ cond (has rows.now n) code (slice_index codes.old n) }
{
    let words = rows.words();
    for index in 0..16 {
        if words[index] != 0 {
            put_in_word(codes, words[index], 64 * index, code);
        }
    }
}

/// Whether a frame's width has numbers for codes, and at most this many.
fn frame_has_few(form: &For, most: usize) -> bool
    ensures { result ≡ true → 2 ^ form.now.width ≤ most }
{
    let width = form.width();
    width <= WIDEST && 1 << width <= most
}

/// Whether a vector's coding has codes, and at most this many, without a look at its rows. Of a frame only the width is looked at,
/// so a frame may still have none if a value can wrap.
pub fn vector_has_few_codes(vector: &CodedVector, most: usize) -> bool
    ensures { result ≡ true → code_count vector.now.coded ≤ most }
{
    match vector.coded() {
        Coded::For(form) => frame_has_few(form.get(), most),
        Coded::Delta(_) => false,
        Coded::Runs(_) => false,
        Coded::Dict(form) => form.get().values().len() <= most,
    }
}

/// Writes a code for each row of a vector and the value that each code represents, the values ascending from the first place on,
/// and answers how many codes there are, at most 1024. A null row has that number as its code. The codes are the packed numbers of
/// a frame of which no value can wrap, at a width up to 8, or a dictionary's. For other vectors it answers none, and the codes and
/// keys are as they were. A row that isn't covered can have any code. The meter counts one pass more if it answers.
pub fn vector_codes_into(
    vector: &CodedVector,
    codes: &mut [u16; 1024],
    keys: &mut [i64; 1024],
    meter: &mut Meter,
) -> Option<usize>
    ensures codes { IfSome result (λ count. AreRowCodes vector.now count codes.new keys.new) }
    ensures count { IfSome result (λ count. count ≡ code_count vector.now.coded) }
    ensures frames { (form : FrameForm) → vector.now.coded ≡ InFor form → form.width ≤ 8 → IsPlain form → IsSome result }
    ensures dict { (form : DictForm) → vector.now.coded ≡ InDict form → IsSome result }
    ensures none { result ≡ None → (codes.new ≡ codes.old) × (keys.new ≡ keys.old) }
    ensures pass { meter.new ≡ cond (is_some result) (raised 1 meter.old) meter.old }
{
    let count = coded_codes(vector.coded(), codes, keys)?;
    meter.add_pass();
    put_at(codes, &vector.null_rows(), count as u16);
    Some(count)
}
