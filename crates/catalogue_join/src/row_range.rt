//! A range of deleted rows of one batch: its first name, and the ordinal of its last.
ghost use Rattle.std.specs.Prelude.{◌≡◌};
ghost use Rattle.catalogue_join.specs.RowRange.{row_range_shape};
ghost use Rattle.catalogue_join.specs.RowRangeShape.{row_range_IsShape};

use crate::span::Span;
use table_model::RowName;

impl Span for (RowName, u16) {
    ghost shape = { row_range_shape };

    fn ends_before(self, other: Self) -> bool {
        self.0.batch < other.0.batch
            || self.0.batch == other.0.batch
                && usize::from(self.1) + 1 < usize::from(other.0.ordinal)
    }

    fn begins_by(self, other: Self) -> bool {
        self.0 <= other.0
    }

    fn ends_by(self, other: Self) -> bool {
        self.0.batch < other.0.batch || self.0.batch == other.0.batch && self.1 <= other.1
    }

    fn reaches(self, other: Self) -> bool {
        other.0.batch < self.0.batch || other.0.batch == self.0.batch && other.0.ordinal <= self.1
    }

    fn hull(self, other: Self) -> Self {
        let first = RowName {
            batch: self.0.batch,
            ordinal: self.0.ordinal.min(other.0.ordinal),
        };
        (first, self.1.max(other.1))
    }

    ghost law = { row_range_IsShape };
}
