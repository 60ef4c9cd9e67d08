//! The three truth values of conditions.
ghost use Rattle.std.specs.Prelude.{◌≡◌};
ghost use Rattle.std.specs.Ordering.{nat_cmp};
ghost use Rattle.table_model.specs.Truth.{and_of, not_of, or_of, rank, same_truth, truth_of};

use std::cmp::Ordering;

/// A truth value (ISO/IEC 9075:1992, clause 8.12), in the order in which AND is the least and OR the greatest.
#[derive(Clone, Copy, Debug, PartialEq, Eq, PartialOrd, Ord)]
pub enum Truth {
    False,
    Unknown,
    True,
}

impl Truth {
    /// True if the fact holds, else false.
    pub fn from_bool(holds: bool) -> Truth
        ensures { result ≡ truth_of holds }
    {
        if holds { Truth::True } else { Truth::False }
    }

    /// AND: the least of the two.
    pub fn and(self, other: Truth) -> Truth
        ensures { result ≡ and_of self other }
    {
        match (self, other) {
            (Truth::False, _) | (_, Truth::False) => Truth::False,
            (Truth::True, Truth::True) => Truth::True,
            (Truth::Unknown, _) | (_, Truth::Unknown) => Truth::Unknown,
        }
    }

    /// OR: the greatest of the two.
    pub fn or(self, other: Truth) -> Truth
        ensures { result ≡ or_of self other }
    {
        match (self, other) {
            (Truth::True, _) | (_, Truth::True) => Truth::True,
            (Truth::False, Truth::False) => Truth::False,
            (Truth::Unknown, _) | (_, Truth::Unknown) => Truth::Unknown,
        }
    }

    /// NOT: true and false exchanged, unknown kept.
    pub fn not(self) -> Truth
        ensures { result ≡ not_of self }
    {
        match self {
            Truth::False => Truth::True,
            Truth::Unknown => Truth::Unknown,
            Truth::True => Truth::False,
        }
    }

    /// Whether this is that truth value, as IS TRUE, IS FALSE and IS UNKNOWN ask.
    pub fn is(self, value: Truth) -> bool
        ensures { result ≡ same_truth self value }
    {
        self == value
    }

    /// How this truth value compares with another in the derived order: false, unknown, true.
    pub fn order(&self, other: &Truth) -> Ordering
        ensures { result ≡ nat_cmp (rank self.now) (rank other.now) }
    {
        self.cmp(other)
    }
}
