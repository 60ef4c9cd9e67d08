//! The sixteen words of a mask, 64 rows each.
ghost use Rattle.std.specs.Prelude.{◌≡◌, ◌==◌, ℕ, ◌*◌, ◌^◌, ◌<◌, ◌≤◌, if◌then◌else◌, nat_le, nat_lt, ◌&&◌, false, true, slice_index_or};
ghost use Rattle.std.specs.Int.{bit_at};
ghost use Rattle.transpose_order.specs.Mask.{truth_at, count_below, AreMaskWords};

/// The words that `of` makes of the words of two masks, one by one.
pub(crate) fn combined<F: Fn(u64, u64) -> u64>(
    left: &[u64; 16],
    right: &[u64; 16],
    of: F,
) -> [u64; 16]
    requires { F.IsAlwaysCallable of }
    ensures { (j : ℕ) → j < 16
        → F.post of (slice_index_or left.now j 0) (slice_index_or right.now j 0) (slice_index_or result j 0) }
{
    let mut words = [0; 16];
    for j in 0..16 {
        words[j] = of(left[j], right[j]);
    }
    words
}

/// The word whose bits from `low` up to `high`, at most 64, which is not included, are set; there is at least one.
#[inline(always)]
pub fn ones_between(low: usize, high: usize) -> u64
    requires order { low < high }
    requires within { high ≤ 64 }
    ensures { (p : ℕ) → p < 64 → (bit_at result p == 1) ≡ (nat_le low p && nat_lt p high) }
{
    (u64::MAX << low) & (u64::MAX >> (64 - high))
}

/// The word whose bits from `low` up to `high`, at most 64, which is not included, are set. If `low` is `high` none is.
fn ones_if_any(low: usize, high: usize) -> u64
    requires order { low ≤ high }
    requires within { high ≤ 64 }
    ensures { (p : ℕ) → p < 64 → (bit_at result p == 1) ≡ (nat_le low p && nat_lt p high) }
{
    if low == high {
        0
    } else {
        ones_between(low, high)
    }
}

/// A word with its bits from `low` up to `high`, which is not included, set to `value`.
fn with_bits(word: u64, low: usize, high: usize, value: bool) -> u64
    requires order { low ≤ high }
    requires within { high ≤ 64 }
    ensures { (p : ℕ) → p < 64
        → (bit_at result p == 1) ≡ (if nat_le low p && nat_lt p high then value else (bit_at word p == 1)) }
{
    let ones = ones_if_any(low, high);
    if value { word | ones } else { word & !ones }
}

/// Sets the rows from `first` up to `end`, which is not included, to `value`.
pub(crate) fn set_rows(words: &mut [u64; 16], first: usize, end: usize, value: bool)
    requires order { first ≤ end }
    requires within { end ≤ 1024 }
    ensures words { AreMaskWords words.new }
    ensures rows { (n : ℕ) → n < 1024
        → truth_at words.new n ≡ (if nat_le first n && nat_lt n end then value else truth_at words.old n) }
{
    for j in 0..16 {
        let low = first.saturating_sub(64 * j).min(64);
        let high = end.saturating_sub(64 * j).min(64);
        words[j] = with_bits(words[j], low, high, value);
    }
}

/// How many rows below `end` are true.
pub(crate) fn count_rows(words: &[u64; 16], end: usize) -> usize
    requires { end ≤ 1024 }
    ensures { result ≡ count_below (truth_at words.now) end }
{
    let mut count = 0;
    for word in &words[..end / 64] {
        count += word.count_ones() as usize;
    }
    if end % 64 == 0 {
        return count;
    }
    let rest = words[end / 64] & (u64::MAX >> (64 - end % 64));
    count + rest.count_ones() as usize
}

/// The first true row at or after `from`, or 1024 if there is no such row.
pub(crate) fn next_row(words: &[u64; 16], from: usize) -> usize
    requires { from ≤ 1024 }
    ensures order { from ≤ result }
    ensures within { result ≤ 1024 }
    ensures none { (n : ℕ) → from ≤ n → n < result → truth_at words.now n ≡ false }
    ensures here { result < 1024 → truth_at words.now result ≡ true }
{
    if from == 1024 {
        return 1024;
    }
    let rest = words[from / 64] >> (from % 64);
    if rest != 0 {
        return from + rest.trailing_zeros() as usize;
    }
    for j in from / 64 + 1..16 {
        if words[j] != 0 {
            return 64 * j + words[j].trailing_zeros() as usize;
        }
    }
    1024
}
