//! Masks: a truth value for each of the 1024 rows of a vector.
ghost use Rattle.std.specs.Prelude.{◌≡◌, ◌==◌, ℕ, ◌/◌, ◌^◌, ◌<◌, ◌≤◌, if◌then◌else◌, nat_le, nat_lt, ◌&&◌, ◌||◌, not, true, false, count_by, IsTrue, ◌↔◌, length};
ghost use Rattle.std.specs.Int.{bit_at};
ghost use Rattle.transpose_order.specs.Mask.{rows_of, has, truth_at, count_below};
ghost use Rattle.transpose_order.specs.MaskBytes.{mask_bytes, rows_of_bytes, MasksComeBack, MaskBytesComeBack, CountsAgree};
ghost use Rattle.transpose_order.specs.Place.{IsLaneWidth, row_at as row_of_place};
ghost use Rattle.transpose_order.specs.SameRows.{same_rows};

use crate::bytes::{bytes_of_words, words_of_bytes};
use crate::places::row_at;
use crate::words::{combined, count_rows, next_row, set_rows};
use std::marker::Model;

/// A truth value for each of the 1024 rows of a vector, in sixteen words of 64 bits: bit `p` of word `j` is row
/// `64 * j + p`.
#[derive(Clone, Copy, Debug)]
pub struct Mask {
    words: [u64; 16],
}

impl Model for Mask {
    ghost use Rattle.std.specs.Prelude.{List, Bool};
    ghost use Rattle.transpose_order.specs.Mask.{rows_of, truth_at, words_of, AreMaskWords};
    ghost use Rattle.transpose_order.specs.MaskWords.{words_of-rows_of};

    ghost Value = { List Bool };

    ghost view = { λ m. rows_of (truth_at m.words) };

    ghost invariant = { λ m. AreMaskWords m.words };

    ghost inverse = { λ rows. record { words = words_of rows } };

    ghost inverse_ok = { λ m h i. record { words = words_of-rows_of m.words h i } };
}

impl PartialEq for Mask {
    ghost use Rattle.std.specs.Cmp.{partial_equiv_from_equiv};
    ghost use Rattle.transpose_order.specs.SameRows.{same_rows-equivalence};

    ghost eq = { λ a b. same_rows a b };

    ghost laws = { partial_equiv_from_equiv same_rows-equivalence };

    /// Whether the masks have the same rows.
    fn eq(&self, other: &Mask) -> bool
        ensures value { result ≡ same_rows self.now other.now }
        ensures exact { IsTrue result ↔ (self.now ≡ other.now) }
    {
        self.words == other.words
    }
}

impl Eq for Mask {
    ghost use Rattle.transpose_order.specs.SameRows.{same_rows-equivalence};

    ghost laws = { same_rows-equivalence };
}

impl Mask {
    /// The mask that is false at every row.
    pub fn none() -> Mask
        ensures { result ≡ rows_of (λ _. false) }
    {
        Mask { words: [0; 16] }
    }

    /// The mask that is true at every row.
    pub fn all() -> Mask
        ensures { result ≡ rows_of (λ _. true) }
    {
        Mask {
            words: [u64::MAX; 16],
        }
    }

    /// The mask with these words: bit `p` of word `j` is row `64 * j + p`.
    pub fn from_words(words: [u64; 16]) -> Mask
        ensures { result ≡ rows_of (truth_at words) }
    {
        Mask { words }
    }

    /// The mask's sixteen words: bit `p` of word `j` is row `64 * j + p`.
    pub fn words(&self) -> &[u64; 16]
        ensures { self.now ≡ rows_of (truth_at result.now) }
    {
        &self.words
    }

    /// The mask's 128 bytes: row `n` is bit `n % 8` of byte `n / 8`.
    pub fn to_le_bytes(&self) -> [u8; 128]
        ensures { result ≡ mask_bytes self.now }
    {
        bytes_of_words(&self.words)
    }

    /// The mask of 128 bytes: row `n` is bit `n % 8` of byte `n / 8`.
    pub fn from_le_bytes(bytes: &[u8; 128]) -> Mask
        ensures value { result ≡ rows_of_bytes bytes.now }
        ensures back { mask_bytes result ≡ bytes.now }
    {
        Mask {
            words: words_of_bytes(bytes),
        }
    }

    /// The rows that are true in both masks.
    pub fn and(&self, other: &Mask) -> Mask
        ensures { result ≡ rows_of (λ n. has self.now n && has other.now n) }
    {
        Mask {
            words: combined(&self.words, &other.words, |a, b| a & b),
        }
    }

    /// The rows that are true in one mask at least.
    pub fn or(&self, other: &Mask) -> Mask
        ensures { result ≡ rows_of (λ n. has self.now n || has other.now n) }
    {
        Mask {
            words: combined(&self.words, &other.words, |a, b| a | b),
        }
    }

    /// The rows that are true in this mask and false in the other.
    pub fn and_not(&self, other: &Mask) -> Mask
        ensures { result ≡ rows_of (λ n. has self.now n && not (has other.now n)) }
    {
        Mask {
            words: combined(&self.words, &other.words, |a, b| a & !b),
        }
    }

    /// The rows that are false in this mask.
    pub fn not(&self) -> Mask
        ensures { result ≡ rows_of (λ n. not (has self.now n)) }
    {
        Mask::all().and_not(self)
    }

    /// Whether every row is true.
    pub fn is_all(&self) -> bool
        ensures all { IsTrue result → (n : ℕ) → n < 1024 → has self.now n ≡ true }
        ensures answers { ((n : ℕ) → n < 1024 → has self.now n ≡ true) → IsTrue result }
    {
        self.words == [u64::MAX; 16]
    }

    /// How many rows are true.
    pub fn count(&self) -> usize
        ensures { result ≡ count_by (λ row. row) self.now }
    {
        count_rows(&self.words, 1024)
    }

    /// How many rows below `end`, at most 1024, are true.
    pub fn count_below(&self, end: usize) -> usize
        requires { end ≤ 1024 }
        ensures { result ≡ count_below (has self.now) end }
    {
        count_rows(&self.words, end)
    }

    /// The first true row at or after `from`, which is at most 1024, or 1024 if there is no such row.
    pub fn next_true(&self, from: usize) -> usize
        requires { from ≤ 1024 }
        ensures order { from ≤ result }
        ensures within { result ≤ 1024 }
        ensures none { (n : ℕ) → from ≤ n → n < result → has self.now n ≡ false }
        ensures here { result < 1024 → has self.now result ≡ true }
    {
        next_row(&self.words, from)
    }

    /// The truth value of a row, 0 to 1023.
    pub fn get(&self, row: usize) -> bool
        requires { row < 1024 }
        ensures { result ≡ has self.now row }
    {
        self.words[row / 64] >> (row % 64) & 1 == 1
    }

    /// Sets the rows from `first` up to `end`, which is not included and at most 1024, to `value`.
    pub fn set_range(&mut self, first: usize, end: usize, value: bool)
        requires order { first ≤ end }
        requires within { end ≤ 1024 }
        ensures { self.new
            ≡ rows_of (λ n. if nat_le first n && nat_lt n end then value else has self.old n) }
    {
        set_rows(&mut self.words, first, end, value);
    }

    /// The truth values of a lane's rows at a lane width of 8, 16, 32 or 64 bits: bit `r` is the lane's row at step `r`, and no bit
    /// above the width is set.
    pub fn piece(&self, lane_width: usize, lane: usize) -> u64
        requires width { IsLaneWidth lane_width }
        requires lane { lane < 1024 / lane_width }
        ensures bits { (step : ℕ) → step < lane_width
            → (bit_at result step == 1) ≡ has self.now (row_of_place lane_width lane step) }
        ensures below { result < 2 ^ lane_width }
    {
        let first = row_at(lane_width, lane, 0);
        (self.words[first / 64] >> (first % 64)) & (u64::MAX >> (64 - lane_width))
    }

    /// The law that a mask is of 1024 rows.
    pub fn keeps_1024_rows(&self)
        ensures { length self.now ≡ 1024 }
    {
        let _ = &self.words;
    }
}

/// The law that a mask and its bytes give each other back.
pub fn masks_and_bytes_come_back()
    ensures masks { MasksComeBack }
    ensures bytes { MaskBytesComeBack }
{}

/// The law that a mask's true rows are counted alike as a list and by their number.
pub fn counts_agree()
    ensures { CountsAgree }
{}
