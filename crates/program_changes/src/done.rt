//! What came of a change, and the line that says so.

use file_commands::{HeldRows, Left};
use replica_changes::{Answer, Applied, Imported};
use replica_store::Forgotten;
use std::fmt;

/// What a change answers.
#[derive(Drop)]
pub enum Reply {
    Created,
    Added(Answer),
    DeletedHeldRows(HeldRows),
    Forgotten(Forgotten),
}

/// What a command answers, and whether its file or folder changed and is synced.
#[derive(Drop)]
pub struct Done {
    reply: Reply,
    left: Left,
}

impl Done {
    /// What a change answers, and how it left what it is about.
    pub fn new(reply: Reply, left: Left) -> Done {
        Done { reply, left }
    }

    /// What a command answers that adds to what is held, and how it left that.
    pub fn added(answer: Answer, left: Left) -> Done {
        Done::new(Reply::Added(answer), left)
    }

    /// What an import did, if it was one.
    pub fn imported(&self) -> Option<&Imported> {
        match &self.reply {
            Reply::Added(Answer::Imported(imported)) => Some(imported),
            _ => None,
        }
    }

    /// Whether the file or the folder changed, and is synced.
    pub fn left(&self) -> Left {
        self.left
    }
}

/// The line that a command says of what it did, without its end.
impl fmt::Display for Done {
    fn fmt<W: fmt::Write>(&self, f: &mut fmt::Formatter<W>) -> fmt::Result {
        match &self.reply {
            Reply::Created => f.write_str("ok"),
            Reply::Added(answer) => write_answer(answer, f),
            Reply::DeletedHeldRows(done) => {
                let held = u8::from(done.is_held);
                write!(f, "ok held={held}")
            }
            Reply::Forgotten(forgotten) => {
                let batches = forgotten.batches;
                let rows = forgotten.rows;
                write!(f, "ok batches={batches} rows={rows}")
            }
        }
    }
}

/// The line of a command that adds to what is held.
fn write_answer<W: fmt::Write>(answer: &Answer, f: &mut fmt::Formatter<W>) -> fmt::Result {
    match answer {
        Answer::Imported(imported) => write_import(imported, f),
        Answer::Deleted(deleted) => {
            let rows = deleted.rows;
            write!(f, "ok {rows}")
        }
        Answer::DeletedRows(_) => f.write_str("ok"),
        Answer::Applied(applied) => write_apply(applied, f),
    }
}

/// The line of an apply: how many batches and ranges of deleted rows there are then, and how many of the batches weren't held.
fn write_apply<W: fmt::Write>(applied: &Applied, f: &mut fmt::Formatter<W>) -> fmt::Result {
    let batches = applied.batches;
    let ranges = applied.ranges;
    let new = applied.new;
    write!(f, "ok batches={batches} ranges={ranges} new={new}")
}

/// The line of an import: how many batches the rows made, how many of them weren't held, how many rows, and the first name.
fn write_import<W: fmt::Write>(imported: &Imported, f: &mut fmt::Formatter<W>) -> fmt::Result {
    let batches = imported.batches;
    let new = imported.new;
    let rows = imported.rows;
    write!(f, "ok batches={batches} new={new} rows={rows}")?;
    match imported.first {
        Some(name) => write!(f, " first={name}"),
        None => Ok(()),
    }
}
