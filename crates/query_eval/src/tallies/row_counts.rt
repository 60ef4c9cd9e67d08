//! How many rows of a mask come before a row, by the counts of its whole words.
ghost use Rattle.std.specs.Prelude.{◌≡◌, ℕ, ◌*◌, ◌<◌, ◌≤◌, slice_index};
ghost use Rattle.transpose_order.specs.Mask.{count_below, has};

use transpose_order::Mask;

/// How many rows of a mask come before each of its words.
pub fn rows_before_words(rows: &Mask) -> [usize; 16]
    ensures { (j : ℕ) → j < 16 → slice_index result j ≡ count_below (has rows.now) (64 * j) }
{
    let words = rows.words();
    let mut before = [0; 16];
    let mut count = 0;
    for j in 0..16 {
        before[j] = count;
        count += words[j].count_ones() as usize;
    }
    before
}

/// How many rows of a mask are below `end`, from how many come before each of its words. One word is looked at.
#[inline(always)]
pub fn rows_below(rows: &Mask, before: &[usize; 16], end: usize) -> usize
    requires within { end ≤ 1024 }
    requires before { (j : ℕ) → j < 16 → slice_index before.now j ≡ count_below (has rows.now) (64 * j) }
    ensures { result ≡ count_below (has rows.now) end }
{
    if end == 0 {
        return 0;
    }
    let last = end - 1;
    let words = rows.words();
    let word = words[last / 64] & (u64::MAX >> (63 - last % 64));
    before[last / 64] + word.count_ones() as usize
}
