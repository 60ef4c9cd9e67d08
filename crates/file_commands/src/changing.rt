//! Adding to a file by a command.
ghost use Rattle.std.specs.Prelude.{◌≡◌, ◌≢◌, ◌⊎◌, [], Some, Ok, Err, IfOk, IfErr, MatchResult};
ghost use Rattle.std.specs.String.{string_bytes};
ghost use Rattle.table_model.specs.declared.refusal.Refusal.TheVariants.{Memory, WriteFault};
ghost use Rattle.file_protocol.specs.Owning.{GivesBack};
ghost use Rattle.file_protocol.specs.Safe.{StaysOld};
ghost use Rattle.replica_changes.specs.CommandForms.{adding, answer_of, command_of, has_changed};
ghost use Rattle.replica_changes.specs.Commands.{Changes};
ghost use Rattle.file_commands.specs.CrashLaws.{BeforeOrAfter, HasAnswered};
ghost use Rattle.file_commands.specs.Refused.{IsRefusedOver, IsWhyRefused};
ghost use Rattle.file_commands.specs.Rewriting.{Rewrites};

use crate::Outcome;
use crate::rewriting::{opened, written};
use crate::under_lock::{finish, leave, read_file};
use file_protocol::{FileFolder, Place};
use replica_changes::{Answer, Command, change_store};
use replica_store::Store;
use std::alloc::Global;
use table_model::Refusal;

/// What a command answers of a store, and the bytes of the file after, which are none if nothing changed.
pub(crate) fn made(
    alloc: Global,
    held: Store,
    command: Command<'_>,
) -> Result<(Answer, Vec<u8>), Refusal>
    ensures { MatchResult result
        (λ made. Rewrites answer_of has_changed held.replica made.0 made.1.items (adding (command_of command.entry)))
        (λ e. (adding (command_of command.entry) held.replica ≡ Err e) ⊎ (e ≡ Memory)) }
{
    let (answer, store) = change_store(alloc, held, command)?;
    let new = written(alloc, &store, answer.is_changed())?;
    Ok((answer, new))
}

/// What a command answers of the file of these bytes, and the bytes of the file after, which are none if nothing changed. The bytes
/// before are let go before the command begins.
fn changed(alloc: Global, file: Vec<u8>, command: Command<'_>) -> Result<(Answer, Vec<u8>), Refusal>
    ensures { MatchResult result
        (λ made. Changes answer_of has_changed (Ok made.0) (Some file.items) (Some []) (Some made.1.items) (adding (command_of command.entry)))
        (λ e. IsRefusedOver (adding (command_of command.entry)) file.items e) }
{
    let held = opened(alloc, file)?;
    made(alloc, held, command)
}

/// Does a command on a file whose lock the caller has, under the refusals of reading the file and of [`replica_changes::bring`]: all of
/// it, or nothing.
pub fn change<F: FileFolder>(
    alloc: Global,
    folder: &mut F,
    place: &Place,
    command: Command<'_>,
) -> Result<Outcome<Answer>, Refusal>
    ensures any_moment { BeforeOrAfter (adding (command_of command.entry)) (string_bytes place.now.lock) (string_bytes place.now.name) (F.history folder.old) (F.history folder.new) }
    ensures answered { IfOk result (λ done. HasAnswered answer_of (adding (command_of command.entry)) done.answer done.left (string_bytes place.now.lock) (string_bytes place.now.name) (F.history folder.old) (F.history folder.new)) }
    ensures refused { IfErr result (λ e. e ≢ WriteFault → StaysOld (string_bytes place.now.lock) (string_bytes place.now.name) (F.history folder.old) (F.history folder.new)) }
    ensures why { IfErr result (λ e. IsWhyRefused (adding (command_of command.entry)) (string_bytes place.now.name) (F.history folder.old) (F.history folder.new) e) }
    ensures own { GivesBack (string_bytes place.now.lock) (F.history folder.old) (F.history folder.new) }
{
    let old = read_file(alloc, folder, place)?;
    match changed(alloc, old, command) {
        Ok((answer, new)) => {
            let left = finish(folder, place, answer.is_changed(), new.as_slice())?;
            Ok(Outcome { answer, left })
        }
        Err(refusal) => {
            leave(folder, place);
            Err(refusal)
        }
    }
}
