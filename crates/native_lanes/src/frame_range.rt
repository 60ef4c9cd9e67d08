//! Comparisons of frames with a range of numbers, on the packed numbers.
ghost use Rattle.std.specs.Prelude.{◌≡◌, ℕ, ◌-◌, ◌^◌, ◌<◌, ◌≤◌, ◌&&◌, nat_le, IfSome, IsSome, ◌⊎◌, pos, ◌+ℤ◌, ◌-ℤ◌, ◌≤ℤ◌};
ghost use Rattle.transpose_order.specs.Mask.{rows_of};
ghost use Rattle.transpose_order.specs.Place.{IsLaneWidth, lane_of, step_of};
ghost use Rattle.bit_interleave.specs.Packing.{packed_value};
ghost use Rattle.bit_interleave.specs.PackedWords.{HasWidth};
ghost use Rattle.frame_delta.specs.Frame.{frame_value};
ghost use Rattle.native_lanes.specs.Between.{between};
ghost use Rattle.native_lanes.specs.Frames.{IsPlain, IsDecided};

use crate::native_16::rows_between_16;
use crate::native_32::rows_between_32;
use bit_interleave::Words;
use frame_delta::For;
use transpose_order::Mask;

/// The greatest number of `width` bits, 0 to 64.
pub(crate) fn greatest_number(width: usize) -> u64
    requires { width ≤ 64 }
    ensures { result ≡ 2 ^ width - 1 }
{
    if width == 0 {
        return 0;
    }
    u64::MAX >> (64 - width)
}

/// The greatest value of `lane_width` bits, signed, which are 8, 16, 32 or 64.
fn greatest_value(lane_width: usize) -> i64
    requires { IsLaneWidth lane_width }
    ensures { result ≡ pos (2 ^ (lane_width - 1) - 1) }
{
    match lane_width {
        8 => 0x7F,
        16 => 0x7FFF,
        32 => 0x7FFF_FFFF,
        _ => i64::MAX,
    }
}

/// The reference plus the greatest number of the width, if that is in the range of the lane width, so that no value wraps.
pub(crate) fn top_of(form: &For) -> Option<i64>
    ensures top { IfSome result (λ top. top ≡ form.now.reference +ℤ pos (2 ^ form.now.width - 1)) }
    ensures plain { IfSome result (λ top. (n : ℕ) → frame_value form.now n
        ≡ form.now.reference +ℤ pos (packed_value form.now.lane_width form.now.width form.now.words.numbers (lane_of form.now.lane_width n) (step_of form.now.lane_width n))) }
    ensures answers { IsPlain form.now → IsSome result }
{
    let greatest = greatest_value(form.lane_width());
    let above = greatest_number(form.width());
    let top = form.reference().checked_add_unsigned(above)?;
    if greatest < top {
        return None;
    }
    Some(top)
}

/// How far a value is above a reference that isn't above it.
fn distance(reference: i64, value: i64) -> u64
    requires { reference ≤ℤ value }
    ensures { pos result ≡ value -ℤ reference }
{
    (i128::from(value) - i128::from(reference)) as u64
}

/// The rows whose packed number is neither below `first` nor above `last`, of words of 16 or 32 bits, and none for words of
/// other widths.
fn numbers_between(width: usize, words: &Words, first: u64, last: u64) -> Option<Mask>
    requires width { HasWidth words.now width }
    requires order { first ≤ last }
    requires fit { last < 2 ^ width }
    ensures rows { IfSome result (λ found. found ≡ rows_of (λ n.
        nat_le first (packed_value words.now.lane_width width words.now.numbers (lane_of words.now.lane_width n) (step_of words.now.lane_width n))
        && nat_le (packed_value words.now.lane_width width words.now.numbers (lane_of words.now.lane_width n) (step_of words.now.lane_width n)) last)) }
    ensures answers { (words.now.lane_width ≡ 16) ⊎ (words.now.lane_width ≡ 32) → IsSome result }
{
    match words.lane_width() {
        16 => Some(rows_between_16(width, words.words_16(), first as u16, last as u16)),
        32 => Some(rows_between_32(width, words.words_32(), first as u32, last as u32)),
        _ => None,
    }
}

/// The rows whose value is neither below `low` nor above `high`. None if values can wrap, or if no way is known that is faster than
/// their lanes. If the reference and the width decide, no word is read.
pub(crate) fn frame_between(form: &For, low: i64, high: i64) -> Option<Mask>
    ensures rows { IfSome result (λ found. found ≡ rows_of (λ n. between low high (frame_value form.now n))) }
    ensures answers { IsPlain form.now → (form.now.lane_width ≡ 16) ⊎ (form.now.lane_width ≡ 32) → IsSome result }
    ensures decided { IsPlain form.now → IsDecided form.now low high → IsSome result }
{
    let reference = form.reference();
    let top = top_of(form)?;
    if high < reference || top < low || high < low {
        return Some(Mask::none());
    }
    if low <= reference && top <= high {
        return Some(Mask::all());
    }
    let first = distance(reference, low.max(reference));
    let last = distance(reference, high.min(top));
    let found = numbers_between(form.width(), form.words(), first, last)?;
    Some(found)
}
