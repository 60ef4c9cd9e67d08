//! Deleting rows of a file's batch only if the file holds the batch.
ghost use Rattle.std.specs.Prelude.{◌≡◌, ◌≢◌, [], Some, Ok, IfOk, IfErr, MatchResult};
ghost use Rattle.std.specs.String.{string_bytes};
ghost use Rattle.table_model.specs.declared.refusal.Refusal.TheVariants.{WriteFault};
ghost use Rattle.file_protocol.specs.Owning.{GivesBack};
ghost use Rattle.file_protocol.specs.Safe.{StaysOld};
ghost use Rattle.replica_changes.specs.Commands.{Changes};
ghost use Rattle.file_commands.specs.CrashLaws.{BeforeOrAfter, HasAnswered};
ghost use Rattle.file_commands.specs.Refused.{IsRefusedOver, IsWhyRefused};
ghost use Rattle.file_commands.specs.HeldDeletes.{deleted_if_held};

use crate::Outcome;
use crate::changing::made;
use crate::rewriting::opened;
use crate::under_lock::{finish, leave, read_file};
use file_protocol::{FileFolder, Place};
use replica_changes::Command;
use std::alloc::Global;
use table_model::{Refusal, RowName};

/// What a delete of rows of a batch that has to be held did.
#[derive(Clone, Copy, Debug, PartialEq, Eq)]
pub struct HeldRows {
    /// Whether the batch is held. If it is not, nothing was done.
    pub is_held: bool,
    /// Whether one of the rows wasn't deleted before, so that the file has changed.
    pub is_changed: bool,
}

/// What a delete of rows of a batch that has to be held answers of the file of these bytes, and the bytes of the file after, which are
/// none if nothing changed. The bytes before are let go before it begins.
fn held_rows_deleted(
    alloc: Global,
    file: Vec<u8>,
    first: RowName,
    last: u16,
) -> Result<(HeldRows, Vec<u8>), Refusal>
    ensures { MatchResult result
        (λ made. Changes (λ answer. answer.is_held) (λ answer. answer.is_changed) (Ok made.0) (Some file.items) (Some []) (Some made.1.items) (λ r. deleted_if_held r first last))
        (λ e. IsRefusedOver (λ r. deleted_if_held r first last) file.items e) }
{
    let store = opened(alloc, file)?;
    let is_held = store.holds(first.batch);
    let (deleted, new) = made(alloc, store, Command::DeleteRows { first, last })?;
    if is_held {
        let answer = HeldRows {
            is_held: true,
            is_changed: deleted.is_changed(),
        };
        Ok((answer, new))
    } else {
        let answer = HeldRows {
            is_held: false,
            is_changed: false,
        };
        Ok((answer, Vec::new(alloc)))
    }
}

/// Deletes rows by their names, if their batch is held, of a file whose lock the caller has, under the refusals of [`change`](crate::change)
/// by [`Command::DeleteRows`].
pub fn delete_held_rows<F: FileFolder>(
    alloc: Global,
    folder: &mut F,
    place: &Place,
    first: RowName,
    last: u16,
) -> Result<Outcome<HeldRows>, Refusal>
    ensures any_moment { BeforeOrAfter (λ r. deleted_if_held r first last) (string_bytes place.now.lock) (string_bytes place.now.name) (F.history folder.old) (F.history folder.new) }
    ensures answered { IfOk result (λ done. HasAnswered (λ answer. answer.is_held) (λ r. deleted_if_held r first last) done.answer done.left (string_bytes place.now.lock) (string_bytes place.now.name) (F.history folder.old) (F.history folder.new)) }
    ensures refused { IfErr result (λ e. e ≢ WriteFault → StaysOld (string_bytes place.now.lock) (string_bytes place.now.name) (F.history folder.old) (F.history folder.new)) }
    ensures why { IfErr result (λ e. IsWhyRefused (λ r. deleted_if_held r first last) (string_bytes place.now.name) (F.history folder.old) (F.history folder.new) e) }
    ensures own { GivesBack (string_bytes place.now.lock) (F.history folder.old) (F.history folder.new) }
{
    let old = read_file(alloc, folder, place)?;
    match held_rows_deleted(alloc, old, first, last) {
        Ok((answer, new)) => {
            let left = finish(folder, place, answer.is_changed, new.as_slice())?;
            Ok(Outcome { answer, left })
        }
        Err(refusal) => {
            leave(folder, place);
            Err(refusal)
        }
    }
}
