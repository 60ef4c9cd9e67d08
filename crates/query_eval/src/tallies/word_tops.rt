//! The greatest number of each 64 rows, by which most spans need no look at their rows.
ghost use Rattle.std.specs.Prelude.{◌+◌, ◌/◌, ◌<◌, ◌≤◌, ◌≤ℤ◌, ℕ, pos, slice_index_or};

/// The greatest number of 64 rows from row `first` on.
#[inline(always)]
fn word_top(shown: &[i64; 1024], first: usize) -> i64
    requires { first + 64 ≤ 1024 }
    ensures { (b : ℕ) → b < 64 → slice_index_or shown.now (first + b) (pos 0) ≤ℤ result }
{
    let mut top = i64::MIN;
    for bit in 0..64 {
        top = top.max(shown[first + bit]);
    }
    top
}

/// The greatest number of each 64 rows.
pub fn word_tops(shown: &[i64; 1024]) -> [i64; 16]
    ensures { (n : ℕ) → n < 1024 → slice_index_or shown.now n (pos 0) ≤ℤ slice_index_or result (n / 64) (pos 0) }
{
    let mut tops = [0; 16];
    for index in 0..16 {
        tops[index] = word_top(shown, 64 * index);
    }
    tops
}

/// A number that none from row `first` up to `end` is above.
#[inline(always)]
pub fn span_bound(tops: &[i64; 16], first: usize, end: usize) -> i64
    requires { end ≤ 1024 }
    ensures { (n : ℕ) → first ≤ n → n < end → slice_index_or tops.now (n / 64) (pos 0) ≤ℤ result }
{
    let mut bound = i64::MIN;
    for index in first / 64..(end + 63) / 64 {
        bound = bound.max(tops[index]);
    }
    bound
}
