//! How many distinct values a vector has, without a sort if their low sixteen bits tell them apart.
ghost use Rattle.std.specs.Prelude.{◌≡◌, ◌==◌, ◌||◌, cond, ℕ, ◌+◌, ◌-◌, ◌*◌, ◌/◌, ◌<◌, ◌≤◌, ◌↔◌, IsSome, IfSome, IfNone, IsTrue, true, false, length, ℤ, pos, ◌≤ℤ◌, ◌+ℤ◌};
ghost use Rattle.transpose_order.specs.Mask.{truth_at};
ghost use Rattle.transpose_order.specs.Place.{IsLaneWidth};
ghost use Rattle.bit_interleave.specs.Arithmetic.{least_width};
ghost use Rattle.bit_interleave.specs.Range.{value_at};
ghost use Rattle.run_dictionary.specs.Dict.{distinct};
ghost use Rattle.run_dictionary.specs.Keys.{key_of, keys_of};

use crate::codes::count_distinct;
use bit_interleave::gap;

/// Which of the numbers below 65,536 are marked: bit `p` of word `j` is number `64 * j + p`.
#[derive(Drop)]
struct Marks {
    words: [u64; 1024],
}

impl Marks {
    fn none() -> Self
        ensures { (n : ℕ) → truth_at result.words n ≡ false }
    {
        Marks { words: [0; 1024] }
    }

    /// Marks a number, and answers 1 if it was not marked before, and else 0.
    fn mark(&mut self, number: u16) -> usize
        ensures new { result ≡ cond (truth_at self.old.words number) 0 1 }
        ensures marked { (n : ℕ) → truth_at self.new.words n ≡ (n == number) || truth_at self.old.words n }
    {
        let place = number as usize;
        let word = self.words[place / 64];
        self.words[place / 64] = word | 1 << (place % 64);
        1 - (word >> (place % 64) & 1) as usize
    }
}

/// The low sixteen bits of a value.
fn key_of(value: i64) -> u16
    ensures { result ≡ key_of value }
{
    (value.cast_unsigned() % 65_536) as u16
}

/// How many keys the values have, if these are no more than `limit`.
fn count_keys(values: &[i64; 1024], limit: usize) -> Option<usize>
    ensures some { IfSome result (λ count. count ≡ length (distinct (keys_of values.now))) }
    ensures within { IfSome result (λ count. count ≤ limit) }
    ensures none { IfNone result (limit < length (distinct (keys_of values.now))) }
{
    let mut marks = Marks::none();
    let mut count = 0;
    for value in values {
        count += marks.mark(key_of(*value));
        if count > limit {
            return None;
        }
    }
    Some(count)
}

/// Whether the values span fewer than 65,536 numbers, so that no two distinct values have one key.
fn are_near(values: &[i64; 1024]) -> bool
    ensures apart { IsTrue result → (m n : ℕ) → m < 1024 → n < 1024
        → key_of (value_at values.now m) ≡ key_of (value_at values.now n) → value_at values.now m ≡ value_at values.now n }
    ensures near { (low : ℤ) → ((n : ℕ) → n < 1024 → low ≤ℤ value_at values.now n)
        → ((n : ℕ) → n < 1024 → value_at values.now n ≤ℤ (low +ℤ pos 65535)) → IsTrue result }
{
    let mut least = values[0];
    let mut greatest = values[0];
    for value in values {
        least = least.min(*value);
        greatest = greatest.max(*value);
    }
    gap(least, greatest) < 65_536
}

/// How many distinct values there are, if these are no more than `limit`. A vector has at least as many values as keys.
pub(crate) fn count_distinct_to(values: &[i64; 1024], limit: usize) -> Option<usize>
    ensures some { IfSome result (λ count. count ≡ length (distinct values.now)) }
    ensures none { IfNone result (limit < length (distinct values.now)) }
{
    let keys = count_keys(values, limit)?;
    if are_near(values) {
        return Some(keys);
    }
    Some(count_distinct(values))
}

/// The bytes of a payload with a number of values, at most 1024, and codes of a number of bits, at most 16.
pub(crate) fn payload_bytes(lane_width: usize, count: usize, width: usize) -> u16
    requires lane_width { IsLaneWidth lane_width }
    requires count { count ≤ 1024 }
    requires width { width ≤ 16 }
    ensures { result ≡ count * lane_width / 8 + 128 * width }
{
    (count * lane_width / 8 + 128 * width) as u16
}

/// How many values of a lane width there are in so many bytes: by a division by a constant.
fn values_in(lane_width: usize, bytes: usize) -> usize
    requires { IsLaneWidth lane_width }
    ensures { result ≡ bytes / (lane_width / 8) }
{
    match lane_width {
        8 => bytes,
        16 => bytes / 2,
        32 => bytes / 4,
        _ => bytes / 8,
    }
}

/// How many distinct values a dictionary has at most whose payload is below a bound.
pub(crate) fn most_values(lane_width: usize, bound: u16) -> usize
    requires { IsLaneWidth lane_width }
    ensures enough { (count : ℕ) → result < count → count ≤ 1024 → bound ≤ count * lane_width / 8 + 128 * least_width (count - 1) }
    ensures many { result ≤ 1024 }
    ensures reached { 0 < result → result * lane_width / 8 + 128 * least_width (result - 1) < bound }
{
    let mut most: usize = 0;
    for width in 0..11 {
        let bytes = (bound as usize).saturating_sub(128 * width + 1);
        most = most.max((1 << width).min(values_in(lane_width, bytes)));
    }
    most
}
