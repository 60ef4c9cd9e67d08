//! A run of batch numbers of one origin.
ghost use Rattle.std.specs.Prelude.{◌≡◌, ◌≤◌};

use crate::span::Span;
use table_model::{BatchName, Number};

/// The batches of one origin from a first number to a last one, both included.
#[derive(Clone, Copy)]
pub struct Run {
    pub first: BatchName,
    pub last: Number,
}

impl Run {
    ghost use Rattle.catalogue_join.specs.Run.{run_length};

    /// How many batches the run has.
    pub fn len(self) -> usize
        requires { self.first.number.0 ≤ self.last.0 }
        ensures { result ≡ run_length self }
    {
        self.last.0 as usize + 1 - self.first.number.0 as usize
    }
}

impl Span for Run {
    ghost use Rattle.catalogue_join.specs.Run.{run_shape};
    ghost use Rattle.catalogue_join.specs.RunShape.{run_IsShape};

    ghost shape = { run_shape };

    fn ends_before(self, other: Self) -> bool {
        self.first.origin < other.first.origin
            || self.first.origin == other.first.origin
                && u64::from(self.last.0) + 1 < u64::from(other.first.number.0)
    }

    fn begins_by(self, other: Self) -> bool {
        self.first <= other.first
    }

    fn ends_by(self, other: Self) -> bool {
        self.first.origin < other.first.origin
            || self.first.origin == other.first.origin && self.last <= other.last
    }

    fn reaches(self, other: Self) -> bool {
        other.first.origin < self.first.origin
            || other.first.origin == self.first.origin && other.first.number <= self.last
    }

    fn hull(self, other: Self) -> Self {
        Run {
            first: BatchName {
                origin: self.first.origin,
                number: Number(self.first.number.0.min(other.first.number.0)),
            },
            last: Number(self.last.0.max(other.last.0)),
        }
    }

    ghost law = { run_IsShape };
}
