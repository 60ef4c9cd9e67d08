//! The part that a command puts into a folder.
ghost use Rattle.std.specs.Prelude.{◌≡◌};
ghost use Rattle.replica_changes.specs.CommandForms.{adding, answer_of, brought, command_of, has_changed};
ghost use Rattle.folder_parts.specs.PartsPut.{PutsPart, TellsChange, empty_replica};

use replica_changes::{Answer, Command, bring, write_changed};
use replica_store::Store;
use std::alloc::Global;
use std::io::Write;
use table_model::{Counted, Origin, Refusal, Schema};

/// Writes the part of a command: what it brings to what all parts hold, which are the batches whose names no part holds, and deletions.
/// If it brings nothing new, nothing is written, and there is nothing to put. The store has what all parts hold; nothing of it is
/// copied, and no batch of the command.
///
/// Refused are what [`bring`] refuses of the command, and then `WriteFault`. Only with the last anything is written: a front.
pub fn part_of<W: Write>(
    alloc: Global,
    held: &Store,
    command: Command<'_>,
    writer: &mut Counted<W>,
) -> Result<Answer, Refusal>
    ensures puts { PutsPart answer_of has_changed result (W.contents writer.old.0) (W.contents writer.new.0) (brought (command_of command.entry) held.now.replica) }
    ensures tells { TellsChange answer_of has_changed result held.now.replica (adding (command_of command.entry) held.now.replica) }
{
    let (answer, part) = bring(alloc, held, command)?;
    write_changed(alloc, &part, answer.is_changed(), writer)?;
    Ok(answer)
}

/// Writes the part of a command without a look at what is held: what it brings to an empty table of the schema, so all that it inserts
/// or deletes. An import draws its names from its words: the first name is that of the first word whose high 32 bits aren't all 0.
///
/// Refused is the same.
pub fn part_alone<W: Write>(
    alloc: Global,
    schema: &Schema,
    command: Command<'_>,
    writer: &mut Counted<W>,
) -> Result<Answer, Refusal>
    ensures puts { PutsPart answer_of has_changed result (W.contents writer.old.0) (W.contents writer.new.0) (brought (command_of command.entry) (empty_replica schema.now)) }
    ensures tells { TellsChange answer_of has_changed result (empty_replica schema.now) (adding (command_of command.entry) (empty_replica schema.now)) }
{
    let empty = Store::new(alloc, schema, Origin(1))?;
    part_of(alloc, &empty, command, writer)
}
