//! Steps of a history over numbered replicas.
ghost use Rattle.std.specs.Prelude.{◌≡◌};
ghost use Rattle.std.specs.String.{string_bytes};

use crate::file_bytes::FileBytes;
use segment_core::Coding;
use std::marker::Model;
use table_model::{BatchName, RowName, Rows};

/// The text of a query or of a condition. Contracts see it as its bytes.
#[derive(Drop)]
pub struct Sql {
    text: String,
}

impl Model for Sql {
    ghost use Rattle.std.specs.Prelude.{List, ℕ};
    ghost use Rattle.std.specs.String.{string_bytes};

    ghost Value = { List ℕ };

    ghost view = { λ sql. string_bytes sql.text };
}

impl Sql {
    /// The query or the condition of this text. It takes no memory.
    pub fn from_string(text: String) -> Sql
        ensures { result ≡ string_bytes text }
    {
        Sql { text }
    }

    /// The text.
    pub fn as_str(&self) -> &str
        ensures { result.now ≡ self.now }
    {
        self.text.as_str()
    }
}

/// What a replica is asked to do. Replicas are numbered from 1.
#[derive(Drop)]
pub enum Step {
    /// Adds a batch of these rows under a new name of the replica's own origin.
    Append {
        replica: u32,
        rows: Rows,
    },
    /// Adds a batch of these rows under the name that is given.
    Insert {
        replica: u32,
        name: BatchName,
        rows: Rows,
    },
    /// Deletes the rows of one batch from the first's ordinal to the last.
    Delete {
        replica: u32,
        first: RowName,
        last: u16,
    },
    /// Deletes the replica's rows at which the condition is true.
    DeleteWhere {
        replica: u32,
        condition: Sql,
    },
    /// Adds to the replica what the other one has.
    Merge {
        replica: u32,
        other: u32,
    },
    /// Puts a vector of a batch at the replica into another coding; no row changes. Columns and vectors count from 0.
    Recode {
        replica: u32,
        name: BatchName,
        column: u32,
        vector: u32,
        coding: Coding,
    },
    /// Makes a message of the names of the batches that the replica has. Messages are numbered from 1.
    Ask {
        replica: u32,
    },
    /// Makes a message of what the replica has in addition to the batches that a message names, and of all its deletions.
    Serve {
        replica: u32,
        message: u32,
    },
    /// Adds to the replica what a message that was so made brings.
    Take {
        replica: u32,
        message: u32,
    },
    /// Adds to the replica what a canonical file brings.
    Open {
        replica: u32,
        file: FileBytes,
    },
    /// Asks the replica for its canonical file.
    Export {
        replica: u32,
    },
    /// Asks the replica for the answer of a query.
    Query {
        replica: u32,
        sql: Sql,
    },
}
