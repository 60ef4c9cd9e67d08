//! How many rows of a mask come before a row, by the counts of its whole words.
ghost use Rattle.std.specs.Prelude.{◌≡◌, ℕ, ◌*◌, ◌<◌, ◌≤◌, slice_index};
ghost use Rattle.transpose_order.specs.Mask.{truth_at, count_below};

/// How many rows of a mask come before each of its words.
pub(crate) fn rows_before_words(words: &[u64; 16]) -> [usize; 16]
    ensures { (j : ℕ) → j < 16 → slice_index result j ≡ count_below (truth_at words.now) (64 * j) }
{
    let mut before = [0; 16];
    let mut count = 0;
    for j in 0..16 {
        before[j] = count;
        count += words[j].count_ones() as usize;
    }
    before
}

/// How many rows of a mask are below `end`, from how many come before each of its words. One word is looked at.
#[inline(always)]
pub(crate) fn rows_below(words: &[u64; 16], before: &[usize; 16], end: usize) -> usize
    requires some { 0 < end }
    requires within { end ≤ 1024 }
    requires before { (j : ℕ) → j < 16 → slice_index before.now j ≡ count_below (truth_at words.now) (64 * j) }
    ensures { result ≡ count_below (truth_at words.now) end }
{
    let last = end - 1;
    let word = words[last / 64] & (u64::MAX >> (63 - last % 64));
    before[last / 64] + word.count_ones() as usize
}
