//! Sets of rows made of lists of rows, in whatever order and however often a row comes, at values worked out by hand.
ghost use Rattle.std.specs.Prelude.{◌≡◌};
ghost use Rattle.std.specs.List.{list_all};
ghost use Rattle.table_model.specs.Name.{is_proper_name};

use crate::tests::row;
use catalogue_join::Tombs;
use std::alloc::{AllocError, Global};
use table_model::RowName;

/// A row of origin 1: its batch's number and its ordinal.
type Place = (u32, u16);

/// The rows at these places.
pub(crate) fn rows_at(alloc: Global, places: &[Place]) -> Result<Vec<RowName>, AllocError> {
    let mut rows = Vec::with_capacity(alloc, places.len())?;
    for &(number, ordinal) in places {
        rows.push(row(number, ordinal))?;
    }
    Ok(rows)
}

/// Whether the batches of all rows have proper names.
fn are_proper(rows: &[RowName]) -> bool
    ensures { result ≡ list_all (λ row. is_proper_name row.batch) rows.now }
{
    rows.iter().all(|row| row.batch.is_proper())
}

/// The set of some rows, of batches with proper names.
pub(crate) fn set_of(alloc: Global, rows: &[RowName]) -> Result<Tombs, AllocError> {
    if are_proper(rows) {
        Tombs::from_rows(alloc, rows)
    } else {
        Ok(Tombs::new(alloc))
    }
}
