//! What an import answers.
ghost use Rattle.std.specs.Prelude.{◌≡◌};
ghost use Rattle.replica_changes.specs.Loads.{name_of_some};

use table_model::BatchName;

/// What an import did. The store has changed if one of the batches is new.
#[derive(Clone, Copy, Debug, PartialEq, Eq)]
pub struct Imported {
    /// How many batches the rows made.
    pub batches: u32,
    /// How many of them weren't held.
    pub new: u32,
    /// How many rows there were.
    pub rows: u64,
    /// How many of them were deleted already under their names, so that they are not live.
    pub deleted: u64,
    /// The first batch's name, if there is a batch.
    pub first: Option<BatchName>,
}

/// The first name of a number of batches, if there is a batch.
pub(crate) fn name_of_some(count: usize, name: BatchName) -> Option<BatchName>
    ensures { result ≡ name_of_some count name }
{
    if count == 0 { None } else { Some(name) }
}
