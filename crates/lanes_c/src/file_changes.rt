//! A command on a file.
ghost use Rattle.replica_changes.specs.CommandForms.{command_of};
ghost use Rattle.lanes_c.specs.Calls.{Yields, change_of};
ghost use Rattle.lanes_c.specs.Rooms.{given_by};

use crate::fault::Fault;
use crate::taking::left;
use column_file::open_bytes;
use replica_changes::{Command, change_store, write_changed};
use std::alloc::Global;
use table_model::{Counted, Origin};

/// The canonical file of what a file holds once a command was done on it, which is the file itself if nothing changed.
pub(crate) fn changed(alloc: Global, file: &[u8], command: Command<'_>) -> Result<Vec<u8>, Fault>
    ensures { Yields (given_by result) (change_of (command_of command.entry) file.now) }
{
    let held = open_bytes(alloc, file, Origin(1))?;
    let (answer, store) = change_store(alloc, held, command)?;
    let is_changed = answer.is_changed();
    let mut writer = Counted::new(Vec::new(alloc));
    write_changed(alloc, &store, is_changed, &mut writer)?;
    left(alloc, file, is_changed, writer)
}
