//! What a command changes in a file.

use column_file::open;
use file_commands::Left;
use file_protocol::{FileFolder, Place};
use program_changes::{Done, Reply};
use replica_changes::{Command, bring, file_schema};
use std::alloc::Global;
use std::io::{self, Read};
use table_model::{ColType, Counted, Origin, Refusal, RowName};

/// What a command changes in a file.
#[derive(Drop)]
pub enum Change<'a> {
    /// It makes the file of an empty table.
    Create {
        table: &'a str,
        columns: &'a [(&'a str, ColType)],
    },
    /// It adds what a command brings.
    Add(Command<'a>),
    /// It deletes rows by their names if their batch is held.
    DeleteHeldRows {
        first: RowName,
        last: u16,
    },
    /// It drops the batches of which every row is deleted.
    Forget,
}

impl<'a> Change<'a> {
    /// Changes a file whose lock this process has, and gives the lock back.
    pub fn make<F: FileFolder>(
        self,
        alloc: Global,
        folder: &mut F,
        place: &Place,
    ) -> Result<Done, Refusal> {
        let (answer, left) = match self {
            Change::Create { table, columns } => {
                let replaced = file_commands::create(alloc, folder, place, table, columns)?;
                (Reply::Created, Left::Changed(replaced))
            }
            Change::Add(command) => {
                let done = file_commands::change(alloc, folder, place, command)?;
                (Reply::Added(done.answer), done.left)
            }
            Change::DeleteHeldRows { first, last } => {
                let done = file_commands::delete_held_rows(alloc, folder, place, first, last)?;
                (Reply::DeletedHeldRows(done.answer), done.left)
            }
            Change::Forget => {
                let done = file_commands::forget(alloc, folder, place)?;
                (Reply::Forgotten(done.answer), done.left)
            }
        };
        Ok(Done::new(answer, left))
    }

    /// Whether the change would be refused of a file as it is, whose lock can't be had.
    pub fn judge<R: Read>(self, alloc: Global, reader: &mut Counted<R>) -> Result<(), Refusal> {
        let mut nowhere = Counted::new(io::sink());
        match self {
            Change::Create { table, columns } => {
                replica_changes::create(alloc, table, columns, &mut nowhere)
            }
            Change::Add(command) => judge_command(alloc, reader, command),
            Change::DeleteHeldRows { first, last } => {
                judge_command(alloc, reader, Command::DeleteRows { first, last })
            }
            Change::Forget => replica_changes::forget(alloc, reader, &mut nowhere).map(|_| ()),
        }
    }

    /// The first fault of the file that the change is made of, if there is one; none if the change makes the file.
    pub fn fault_of_file<R: Read>(
        &self,
        alloc: Global,
        reader: &mut Counted<R>,
    ) -> Result<(), Refusal> {
        if self.is_creation() {
            return Ok(());
        }
        file_schema(alloc, reader).map(|_| ())
    }

    /// Whether the file must not be there before.
    pub fn is_creation(&self) -> bool {
        matches!(self, Change::Create { .. })
    }
}

/// Whether a command would be refused of a file as it is.
fn judge_command<R: Read>(
    alloc: Global,
    reader: &mut Counted<R>,
    command: Command<'_>,
) -> Result<(), Refusal> {
    let held = open(alloc, reader, Origin(1))?;
    let _brought = bring(alloc, &held, command)?;
    Ok(())
}
