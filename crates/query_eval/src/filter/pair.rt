//! Truth values of a vector's rows, as pairs of masks.
ghost use Rattle.std.specs.Prelude.{◌≡◌, ◌&&◌, ◌<◌, ◌+◌, ℕ, List, Bool, true};
ghost use Rattle.table_model.specs.Condition.{asked, not_if};
ghost use Rattle.table_model.specs.Truth.{and_of, or_of, not_of, same_truth};
ghost use Rattle.table_model.specs.declared.truth.Truth.{Truth as TruthValue};
ghost use Rattle.transpose_order.specs.Mask.{rows_of, has};
ghost use Rattle.query_eval.specs.Below.{IsPairBelow};
ghost use Rattle.query_eval.specs.Pairs.{rows_except};
ghost use Rattle.query_eval.specs.Where.{IsPair, both};

use table_model::{IsTruth, Truth};
use transpose_order::Mask;

/// The rows at which a condition is true, and those at which it is false; at the others it is unknown.
#[derive(Drop)]
pub struct Pair {
    pub yes: Mask,
    pub no: Mask,
}

impl Pair {
    /// The condition that has one truth value at each row of a mask.
    pub fn everywhere(truth: Truth, mask: &Mask) -> Pair
        ensures { IsPair mask.now (λ _. truth) result }
    {
        match truth {
            Truth::True => Pair {
                yes: mask.and(mask),
                no: Mask::none(),
            },
            Truth::False => Pair {
                yes: Mask::none(),
                no: mask.and(mask),
            },
            Truth::Unknown => Pair {
                yes: Mask::none(),
                no: Mask::none(),
            },
        }
    }

    /// AND, row by row. The other condition needs no look at the rows at which this one is false.
    pub fn and(&self, other: &Pair) -> Pair
        ensures rest { (mask rest : List Bool) (s t : ℕ → TruthValue) → IsPair mask s self.now → rest ≡ rows_except mask self.now.no → IsPair rest t other.now → IsPair mask (both s t) result }
        ensures alike { (mask : List Bool) (s t : ℕ → TruthValue) → IsPair mask s self.now → IsPair mask t other.now → IsPair mask (λ n. and_of (s n) (t n)) result }
    {
        Pair {
            yes: self.yes.and(&other.yes),
            no: self.no.or(&other.no),
        }
    }

    /// OR, row by row. The other condition needs no look at the rows at which this one is true.
    pub fn or(&self, other: &Pair) -> Pair
        ensures rest { (mask rest : List Bool) (s t : ℕ → TruthValue) → IsPair mask s self.now → rest ≡ rows_except mask self.now.yes → IsPair rest t other.now → IsPair mask (λ n. or_of (s n) (t n)) result }
        ensures alike { (mask : List Bool) (s t : ℕ → TruthValue) → IsPair mask s self.now → IsPair mask t other.now → IsPair mask (λ n. or_of (s n) (t n)) result }
    {
        Pair {
            yes: self.yes.or(&other.yes),
            no: self.no.and(&other.no),
        }
    }

    /// NOT, row by row.
    pub fn not(self) -> Pair
        ensures { (mask : List Bool) (t : ℕ → TruthValue) → IsPair mask t self → IsPair mask (λ n. not_of (t n)) result }
    {
        Pair {
            yes: self.no,
            no: self.yes,
        }
    }

    /// Under NOT, or not, row by row.
    pub fn not_if(self, negated: bool) -> Pair
        ensures { (mask : List Bool) (t : ℕ → TruthValue) → IsPair mask t self → IsPair mask (λ n. not_if negated (t n)) result }
    {
        if negated { self.not() } else { self }
    }

    /// The rows of a mask at which a condition over it has a truth value.
    fn having(&self, truth: Truth, mask: &Mask) -> Mask
        ensures { (t : ℕ → TruthValue) → IsPair mask.now t self.now → result ≡ rows_of (λ n. has mask.now n && same_truth (t n) truth) }
    {
        match truth {
            Truth::True => self.yes.and(&self.yes),
            Truth::False => self.no.and(&self.no),
            Truth::Unknown => mask.and_not(&self.yes.or(&self.no)),
        }
    }

    /// IS TRUE, IS FALSE and IS UNKNOWN, row by row, of a condition over the rows of a mask.
    pub fn asked(&self, is: IsTruth, mask: &Mask) -> Pair
        ensures { (t : ℕ → TruthValue) → IsPair mask.now t self.now → IsPair mask.now (λ n. asked is (t n)) result }
    {
        let there = self.having(is.truth, mask);
        let elsewhere = mask.and_not(&there);
        if is.negated {
            Pair {
                yes: elsewhere,
                no: there,
            }
        } else {
            Pair {
                yes: there,
                no: elsewhere,
            }
        }
    }

    /// Takes in the truth value of a condition at one row more.
    pub(crate) fn put(&mut self, row: usize, truth: Truth)
        requires { row < 1024 }
        ensures { (mask : List Bool) (t : ℕ → TruthValue) → IsPairBelow row mask t self.old → has mask row ≡ true → t row ≡ truth → IsPairBelow (row + 1) mask t self.new }
    {
        match truth {
            Truth::True => self.yes.set_range(row, row + 1, true),
            Truth::False => self.no.set_range(row, row + 1, true),
            Truth::Unknown => {}
        }
    }
}
