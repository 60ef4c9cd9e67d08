//! Forgetting batches of a file.
ghost use Rattle.std.specs.Prelude.{◌≢◌, ◌==◌, not, [], Some, Ok, IfOk, IfErr, MatchResult};
ghost use Rattle.std.specs.String.{string_bytes};
ghost use Rattle.table_model.specs.declared.refusal.Refusal.TheVariants.{WriteFault};
ghost use Rattle.file_protocol.specs.Owning.{GivesBack};
ghost use Rattle.file_protocol.specs.Safe.{StaysOld};
ghost use Rattle.replica_changes.specs.Commands.{Changes};
ghost use Rattle.replica_changes.specs.Forgetting.{forgetting};
ghost use Rattle.file_commands.specs.CrashLaws.{BeforeOrAfter, HasAnswered};
ghost use Rattle.file_commands.specs.Refused.{IsRefusedOver, IsWhyRefused};

use crate::Outcome;
use crate::rewriting::{opened, written};
use crate::under_lock::{finish, leave, read_file};
use file_protocol::{FileFolder, Place};
use replica_changes::forget_dead;
use replica_store::Forgotten;
use std::alloc::Global;
use table_model::Refusal;

/// What a forget answers of the file of these bytes, and the bytes of the file after, which are none if no batch was dropped. The bytes
/// before are let go before it begins.
fn forgotten(alloc: Global, file: Vec<u8>) -> Result<(Forgotten, Vec<u8>), Refusal>
    ensures { MatchResult result
        (λ made. Changes (λ answer. (answer.batches, answer.rows)) (λ answer. not (answer.batches == 0)) (Ok made.0) (Some file.items) (Some []) (Some made.1.items) forgetting)
        (λ e. IsRefusedOver forgetting file.items e) }
{
    let mut store = opened(alloc, file)?;
    let answer = forget_dead(alloc, &mut store)?;
    let new = written(alloc, &store, answer.batches != 0)?;
    Ok((answer, new))
}

/// Drops the batches of which every row is deleted, of a file whose lock the caller has, under the refusals of [`replica_changes::forget`].
pub fn forget<F: FileFolder>(
    alloc: Global,
    folder: &mut F,
    place: &Place,
) -> Result<Outcome<Forgotten>, Refusal>
    ensures any_moment { BeforeOrAfter forgetting (string_bytes place.now.lock) (string_bytes place.now.name) (F.history folder.old) (F.history folder.new) }
    ensures answered { IfOk result (λ done. HasAnswered (λ answer. (answer.batches, answer.rows)) forgetting done.answer done.left (string_bytes place.now.lock) (string_bytes place.now.name) (F.history folder.old) (F.history folder.new)) }
    ensures refused { IfErr result (λ e. e ≢ WriteFault → StaysOld (string_bytes place.now.lock) (string_bytes place.now.name) (F.history folder.old) (F.history folder.new)) }
    ensures why { IfErr result (λ e. IsWhyRefused forgetting (string_bytes place.now.name) (F.history folder.old) (F.history folder.new) e) }
    ensures own { GivesBack (string_bytes place.now.lock) (F.history folder.old) (F.history folder.new) }
{
    let old = read_file(alloc, folder, place)?;
    match forgotten(alloc, old) {
        Ok((answer, new)) => {
            let left = finish(folder, place, answer.batches != 0, new.as_slice())?;
            Ok(Outcome { answer, left })
        }
        Err(refusal) => {
            leave(folder, place);
            Err(refusal)
        }
    }
}
