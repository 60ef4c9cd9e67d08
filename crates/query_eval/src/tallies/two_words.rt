//! Numbers of 128 bits in two words.
ghost use Rattle.std.specs.Prelude.{◌≡◌, ◌+ℤ◌, FitsSigned};
ghost use Rattle.std.specs.Int.{w128};

use std::marker::Model;

/// How many numbers a word has.
const WORD: i128 = 18_446_744_073_709_551_616;

/// A number of 128 bits in two words, so that what holds it is aligned to 8 bytes. Contracts see it as that number.
#[derive(Drop)]
pub struct TwoWords {
    low: u64,
    high: i64,
}

impl Model for TwoWords {
    ghost use Rattle.std.specs.Prelude.{ℤ};
    ghost use Rattle.query_eval.specs.Words.{joined};

    ghost Value = { ℤ };

    ghost view = { λ words. joined words.low words.high };
}

impl TwoWords {
    /// A number in two words.
    #[inline]
    pub fn of(number: i128) -> TwoWords
        ensures { result ≡ number }
    {
        TwoWords {
            low: number.rem_euclid(WORD) as u64,
            high: number.div_euclid(WORD) as i64,
        }
    }

    /// The number.
    #[inline]
    pub fn number(&self) -> i128
        ensures { result ≡ self.now }
    {
        i128::from(self.high) * WORD + i128::from(self.low)
    }

    /// Adds a number, if 128 bits hold the sum. Otherwise nothing changes.
    #[inline]
    pub fn add(&mut self, more: i128)
        ensures { FitsSigned w128 (self.old +ℤ more) → self.new ≡ self.old +ℤ more }
    {
        if let Some(sum) = self.number().checked_add(more) {
            *self = TwoWords::of(sum);
        }
    }
}
