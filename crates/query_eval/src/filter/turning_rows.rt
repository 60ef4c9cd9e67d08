//! The rows at which a mask turns: one of a row and the row before is in it, the other isn't.
ghost use Rattle.std.specs.Prelude.{◌≡◌, ◌==◌, ◌+◌, ◌<◌, ℕ, false};
ghost use Rattle.std.specs.Int.{bit_at};
ghost use Rattle.transpose_order.specs.Mask.{has};

use transpose_order::Mask;

/// The bits of a word that aren't the bit before; the one before the first is the last of the word `before`.
#[inline(always)]
fn turning_bits(word: u64, before: u64) -> u64
    ensures inside { (b : ℕ) → b + 1 < 64 → (bit_at result (b + 1) == 1) ≡ false → (bit_at word (b + 1) == 1) ≡ (bit_at word b == 1) }
    ensures joint { (bit_at result 0 == 1) ≡ false → (bit_at word 0 == 1) ≡ (bit_at before 63 == 1) }
{
    word ^ (word << 1 | before >> 63)
}

/// Rows with those at which a mask turns. Row 0 is one if it is in the mask.
pub fn turning_rows(mask: &Mask) -> Mask
    ensures { (n : ℕ) → n + 1 < 1024 → has result (n + 1) ≡ false → has mask.now (n + 1) ≡ has mask.now n }
{
    let words = mask.words();
    let mut turning = [0; 16];
    let mut before = 0;
    for index in 0..16 {
        turning[index] = turning_bits(words[index], before);
        before = words[index];
    }
    Mask::from_words(turning)
}
