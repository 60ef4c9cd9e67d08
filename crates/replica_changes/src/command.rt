//! The commands that add to what a store holds, and what each answers.
ghost use Rattle.std.specs.Prelude.{◌≡◌};
ghost use Rattle.replica_changes.specs.CommandForms.{has_changed};

use crate::applying::Applied;
use crate::deleting::{Deleted, DeletedRows};
use crate::importing::Imported;
use crate::load::Load;
use replica_store::Offer;
use table_model::{BatchName, RowName};

/// A command that adds to what a store holds.
#[derive(Drop)]
pub enum Command<'a> {
    /// It inserts a load's batches, under the name that is given or under one of random words.
    Import {
        load: Load,
        given: Option<BatchName>,
        words: &'a [u64],
    },
    /// It deletes the rows that aren't deleted and at which a condition is true.
    Delete {
        condition: &'a str,
    },
    /// It deletes the rows of a batch from the first to the ordinal `last`, both included, held or not.
    DeleteRows {
        first: RowName,
        last: u16,
    },
    /// It applies offers, one after another.
    Apply {
        offers: Vec<Offer>,
    },
}

/// What such a command answers.
#[derive(Clone, Copy, Debug, PartialEq, Eq)]
pub enum Answer {
    Imported(Imported),
    Deleted(Deleted),
    DeletedRows(DeletedRows),
    Applied(Applied),
}

impl Answer {
    /// Whether the store has more than before.
    pub fn is_changed(&self) -> bool
        ensures { result ≡ has_changed self.now }
    {
        match self {
            Answer::Imported(done) => done.new != 0,
            Answer::Deleted(done) => done.rows != 0,
            Answer::DeletedRows(done) => done.is_changed,
            Answer::Applied(done) => done.is_changed,
        }
    }
}
