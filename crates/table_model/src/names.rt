//! The names of batches and of rows, and their orders.
ghost use Rattle.std.specs.Prelude.{◌≡◌};
ghost use Rattle.table_model.specs.Name.{is_proper_name, name_cmp, name_text, row_name_cmp};

use std::cmp::Ordering;
use std::fmt;

/// The most digits that an origin or a batch's number is written with.
pub const NUMBER_DIGITS: usize = 10;

/// The most digits that a row's place in its batch is written with.
pub const ORDINAL_DIGITS: usize = 5;

/// The site that numbers a batch: from 1 to `u32::MAX` in a proper name.
#[derive(Clone, Copy, Debug, PartialEq, Eq, PartialOrd, Ord)]
pub struct Origin(pub u32);

/// A batch's number at its origin: from 1 to `u32::MAX` in a proper name.
#[derive(Clone, Copy, Debug, PartialEq, Eq, PartialOrd, Ord)]
pub struct Number(pub u32);

/// The name of a batch, ordered by origin and then by number, and written `1.7`.
#[derive(Clone, Copy, Debug, PartialEq, Eq, PartialOrd, Ord)]
pub struct BatchName {
    pub origin: Origin,
    pub number: Number,
}

/// The name of a row: its batch, and its place there from 0 on.
#[derive(Clone, Copy, Debug, PartialEq, Eq, PartialOrd, Ord)]
pub struct RowName {
    pub batch: BatchName,
    pub ordinal: u16,
}

impl BatchName {
    /// Whether a batch may have this name: neither its origin nor its number is 0.
    pub fn is_proper(self) -> bool
        ensures { result ≡ is_proper_name self }
    {
        self.origin.0 != 0 && self.number.0 != 0
    }

    /// How this name compares with another in the derived order: by origin, and then by number.
    pub fn order(&self, other: &BatchName) -> Ordering
        ensures { result ≡ name_cmp self.now other.now }
    {
        self.cmp(other)
    }
}

impl RowName {
    /// How this name compares with another in the derived order: by batch, and then by ordinal.
    pub fn order(&self, other: &RowName) -> Ordering
        ensures { result ≡ row_name_cmp self.now other.now }
    {
        self.cmp(other)
    }
}

impl fmt::Display for BatchName {
    ghost use Rattle.std.specs.Prelude.{Some};

    ghost output = { λ name. Some (name_text name) };

    fn fmt<W: fmt::Write>(&self, f: &mut fmt::Formatter<W>) -> fmt::Result {
        let origin = self.origin.0;
        let number = self.number.0;
        write!(f, "{origin}.{number}")
    }
}
