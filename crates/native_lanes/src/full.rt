//! Whether the bits of words are all set.
ghost use Rattle.std.specs.Prelude.{IsTrue, ◌≡◌, ℕ, ◌<◌, slice_index};
ghost use Rattle.std.specs.Int.{bit_at};

/// Whether the bits of 16 words are all set.
#[inline(always)]
pub(crate) fn are_all_set(words: &[u64; 16]) -> bool
    ensures all { IsTrue result → (j p : ℕ) → j < 16 → p < 64 → bit_at (slice_index words.now j) p ≡ 1 }
    ensures answers { ((j p : ℕ) → j < 16 → p < 64 → bit_at (slice_index words.now j) p ≡ 1) → IsTrue result }
{
    *words == [u64::MAX; 16]
}
