//! A pack: parts are read and joined, and their join is put in their place.
ghost use Rattle.std.specs.Prelude.{◌≡◌, [], true, Ok, None, map, string_bytes, IfOk, IfErr, IfSome};
ghost use Rattle.folder_model.specs.Call.{lock_of};
ghost use Rattle.table_model.specs.declared.refusal.Refusal.TheVariants.{Memory};
ghost use Rattle.folder_model.specs.Parts.{IsNoPart};
ghost use Rattle.folder_protocol.specs.Goes.{GoesInTurn};
ghost use Rattle.folder_protocol.specs.Taking.{UntakenCause};
ghost use Rattle.folder_protocol.specs.Temporary.{is_temporary};
ghost use Rattle.replica_reports.specs.Held.{held_in};
ghost use Rattle.replica_changes.specs.Commands.{file_of, as_held};
ghost use Rattle.folder_parts.specs.Covers.{folder_parts};
ghost use Rattle.folder_commands.specs.Joined.{AreUnwanted};
ghost use Rattle.folder_commands.specs.ReadParts.{IfPartsRefused};
ghost use Rattle.folder_commands.specs.Refusals.{IsReadRefused};
ghost use Rattle.folder_commands.specs.Replacing.{Packs};

use crate::reading::{read_named, refused};
use crate::replacing::{Replaced, replace_read};
use column_file::export_bytes;
use folder_parts::PartRefusal;
use folder_protocol::{Folder, Untaken};
use replica_store::Store;
use std::alloc::Global;
use table_model::Refusal;

/// The file of what a store holds, which is let go.
pub fn file_of(alloc: Global, store: Store) -> Result<Vec<u8>, Refusal>
    ensures file { IfOk result (λ bytes. bytes.items ≡ file_of store.replica) }
    ensures read { IfOk result (λ bytes. held_in (file_of store.replica) ≡ Ok (as_held store.replica)) }
    ensures refused { IfErr result (λ e. e ≡ Memory) }
{
    Ok(export_bytes(alloc, &store)?)
}

/// Packs the parts of these names: they are read and joined, and the part that has what all of them hold is put in their place, by a
/// temporary of a new name. None if none of the names is a part's.
pub fn pack<F: Folder>(
    alloc: Global,
    folder: &mut F,
    temporary: &str,
    names: &[String],
) -> Result<Option<Replaced>, Untaken<PartRefusal>>
    // Each call is in turn, whatever the folder answers.
    ensures in_turn { IsNoPart folder_parts temporary.now → GoesInTurn folder_parts (F.history folder.old) (F.history folder.new) }
    // So it is with the name of a temporary, which is no part's.
    ensures in_turn_named { is_temporary temporary.now ≡ true → GoesInTurn folder_parts (F.history folder.old) (F.history folder.new) }
    // What is put is what the parts hold that were read, and these are removed.
    ensures packed { IfOk result (λ answer. IfSome answer (λ done. Packs (map string_bytes names.now) (string_bytes done.name) (map string_bytes done.gone.items) done.outcome (F.history folder.old) (F.history folder.new))) }
    // None if no name is a part's.
    ensures none { IfOk result (λ answer. answer ≡ None → AreUnwanted [] (map string_bytes names.now)) }
    // A part that is refused is at fault, or memory ran out.
    ensures refused { IfPartsRefused result (λ refusal. IsReadRefused refusal [] (map string_bytes names.now) (F.history folder.old) (F.history folder.new)) }
    // An error has its cause: a part that was gone, a call that failed, or a part that is refused.
    ensures cause { IfErr result (λ fault. UntakenCause fault (F.history folder.old) (F.history folder.new)) }
    // It leaves no lock.
    ensures unlocked { lock_of (F.history folder.old) ≡ None → lock_of (F.history folder.new) ≡ None }
{
    let store = match read_named(alloc, folder, &[], names) {
        Ok(Some(store)) => store,
        Ok(None) => return Ok(None),
        Err(fault) => return Err(fault),
    };
    let bytes = match file_of(alloc, store) {
        Ok(bytes) => bytes,
        Err(refusal) => return Err(refused(refusal)),
    };
    match replace_read(alloc, folder, temporary, &[], names, bytes.as_slice()) {
        Ok(done) => Ok(Some(done)),
        Err(fault) => Err(fault),
    }
}
