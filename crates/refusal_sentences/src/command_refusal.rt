//! The refusals of commands.
ghost use Rattle.std.specs.Prelude.{◌≡◌};
ghost use Rattle.refusal_sentences.specs.declared.command_refusal.CommandRefusal.TheVariants.{Named};

use std::alloc::AllocError;
use std::error::Error;
use std::fmt;
use table_model::{BatchName, Refusal};

/// Why a command was refused.
#[derive(Clone, Copy, Debug, PartialEq, Eq)]
pub enum CommandRefusal {
    /// A refusal that lines of a script have too.
    Named(Refusal),
    /// Comma-separated values outside the grammar: the line, from 1, and its field, from 1, or 0 for a wrong number of fields.
    BadCsv { line: u64, column: u64 },
    /// There is a file of this name already.
    Exists,
    /// Another command has had the file for ten seconds.
    Busy,
    /// A part of a folder has other bytes than its name says.
    Damaged,
    /// Two partial answers that would count a batch twice, or rows that one of their files deletes; the least batch.
    NotApart(BatchName),
    /// Partial answers of different queries.
    QueryDiffers,
    /// A number of an answer that is past its range.
    TooMany,
    /// A batch that a summary names and a partial answer has not counted; the least.
    Missing(BatchName),
}

impl From<Refusal> for CommandRefusal {
    ghost from_gives = { λ refusal given. given ≡ Named refusal };

    fn from(refusal: Refusal) -> CommandRefusal {
        CommandRefusal::Named(refusal)
    }
}

impl From<AllocError> for CommandRefusal {
    ghost use Rattle.table_model.specs.declared.refusal.Refusal.TheVariants.{Memory};

    ghost from_gives = { λ _ given. given ≡ Named Memory };

    fn from(_lacking: AllocError) -> CommandRefusal {
        CommandRefusal::Named(Refusal::Memory)
    }
}

/// The refusal's name, and then its values, each after one space: `BadCsv 17 3`.
impl fmt::Display for CommandRefusal {
    ghost use Rattle.std.specs.Prelude.{Some};
    ghost use Rattle.refusal_sentences.specs.CommandText.{command_text};

    ghost output = { λ refusal. Some (command_text refusal) };

    fn fmt<W: fmt::Write>(&self, f: &mut fmt::Formatter<W>) -> fmt::Result {
        match self {
            CommandRefusal::Named(refusal) => write!(f, "{refusal}"),
            CommandRefusal::BadCsv { line, column } => write!(f, "BadCsv {line} {column}"),
            CommandRefusal::Exists => f.write_str("Exists"),
            CommandRefusal::Busy => f.write_str("Busy"),
            CommandRefusal::Damaged => f.write_str("Damaged"),
            CommandRefusal::NotApart(name) => write!(f, "NotApart {name}"),
            CommandRefusal::QueryDiffers => f.write_str("QueryDiffers"),
            CommandRefusal::TooMany => f.write_str("TooMany"),
            CommandRefusal::Missing(name) => write!(f, "Missing {name}"),
        }
    }
}

impl Error for CommandRefusal {}
