//! A forget: the parts of a folder are read and joined, and what is left of them without dead batches is put in their place.
ghost use Rattle.std.specs.Prelude.{◌≡◌, ◌==◌, not, true, Ok, None, List, ℕ, map, string_bytes, IfOk, IfErr, IfSome};
ghost use Rattle.folder_model.specs.Call.{lock_of};
ghost use Rattle.table_model.specs.declared.refusal.Refusal.TheVariants.{Memory};
ghost use Rattle.folder_model.specs.Parts.{IsNoPart};
ghost use Rattle.folder_protocol.specs.Goes.{GoesInTurn};
ghost use Rattle.folder_protocol.specs.Taking.{UntakenCause};
ghost use Rattle.folder_protocol.specs.Temporary.{is_temporary};
ghost use Rattle.replica_store.specs.Replica.{Replica};
ghost use Rattle.replica_reports.specs.Held.{held_in};
ghost use Rattle.replica_changes.specs.Commands.{file_of, as_held};
ghost use Rattle.replica_changes.specs.Forgetting.{forgetting};
ghost use Rattle.folder_parts.specs.Covers.{folder_parts};
ghost use Rattle.folder_commands.specs.Joined.{AreUnwanted, WereGiven};
ghost use Rattle.folder_commands.specs.ReadParts.{IfPartsRefused};
ghost use Rattle.folder_commands.specs.Refusals.{IsFolderRefused};
ghost use Rattle.folder_commands.specs.Replacing.{IsForgot, replaced_of};

use crate::reading::{Read, read_folder, refused};
use crate::reliance::Reliance;
use crate::replacing::{Replaced, replace_read};
use folder_parts::{PartRefusal, part_of_forget};
use folder_protocol::{Folder, Untaken};
use replica_store::{Forgotten, Store};
use std::alloc::Global;
use table_model::{Counted, Refusal};

/// What a forget of a folder came to.
#[derive(Drop)]
pub struct Forgot {
    /// How many batches are dropped, and how many rows they have.
    pub dropped: Forgotten,
    /// The names that the folder had.
    pub names: Vec<String>,
    /// What came of the part that is put. None if no batch is dropped: then nothing is put.
    pub replaced: Option<Replaced>,
}

/// How much a forget drops of a store, which is let go; and the file of what is left, if that is anything.
pub fn left_of(alloc: Global, held: Store) -> Result<(Forgotten, Vec<u8>), Refusal>
    ensures left { IfOk result (λ both. (left : Replica) × (forgetting held.replica ≡ Ok ((both.0.batches, both.0.rows), left)) × (not (both.0.batches == 0) ≡ true → (both.1.items ≡ file_of left) × (held_in (file_of left) ≡ Ok (as_held left)))) }
    ensures refused { IfErr result (λ e. e ≡ Memory) }
{
    let mut store = held;
    let mut writer = Counted::new(Vec::new(alloc));
    match part_of_forget(alloc, &mut store, &mut writer) {
        Ok(done) => Ok((done, writer.into_inner())),
        Err(_) => Err(Refusal::Memory),
    }
}

/// Forgets in a folder: its parts are read and joined, and what is left of them without the batches of which every row is deleted is put
/// in their place, by a temporary of a new name. If there is no such batch, nothing is put. None if the folder has no part. Some names
/// may be passed over.
pub fn forget<F: Folder>(
    alloc: Global,
    folder: &mut F,
    temporary: &str,
    passed: &[String],
) -> Result<Option<Forgot>, Untaken<PartRefusal>>
    // Each call is in turn, whatever the folder answers.
    ensures in_turn { IsNoPart folder_parts temporary.now → GoesInTurn folder_parts (F.history folder.old) (F.history folder.new) }
    // So it is with the name of a temporary, which is no part's.
    ensures in_turn_named { is_temporary temporary.now ≡ true → GoesInTurn folder_parts (F.history folder.old) (F.history folder.new) }
    // What is put is what a forget leaves of the parts that were read, and these are removed.
    ensures forgot { IfOk result (λ answer. IfSome answer (λ f. IsForgot (map string_bytes passed.now) (map string_bytes f.names.items) (f.dropped.batches, f.dropped.rows) (replaced_of f.replaced) (F.history folder.old) (F.history folder.new))) }
    // Its names are those that a listing gave.
    ensures listed { IfOk result (λ answer. IfSome answer (λ f. WereGiven (map string_bytes f.names.items) (F.history folder.old) (F.history folder.new))) }
    // None if a listing gave no part's name, but for those that are passed over.
    ensures none { IfOk result (λ answer. answer ≡ None → (names : List (List ℕ)) × WereGiven names (F.history folder.old) (F.history folder.new) × AreUnwanted (map string_bytes passed.now) names) }
    // A part that is refused is at fault, or memory ran out.
    ensures refused { IfPartsRefused result (λ refusal. IsFolderRefused refusal (map string_bytes passed.now) (F.history folder.old) (F.history folder.new)) }
    // An error has its cause: a part that was gone, a call that failed, or a part that is refused.
    ensures cause { IfErr result (λ fault. UntakenCause fault (F.history folder.old) (F.history folder.new)) }
    // It leaves no lock, whatever the answer is.
    ensures unlocked { lock_of (F.history folder.new) ≡ None }
{
    let read = match read_folder(alloc, folder, passed, &Reliance::Nothing) {
        Ok(read) => read,
        Err(fault) => return Err(fault),
    };
    let Read { names, held, .. } = read;
    let store = match held {
        Some(store) => store,
        None => return Ok(None),
    };
    let (dropped, bytes) = match left_of(alloc, store) {
        Ok(both) => both,
        Err(refusal) => return Err(refused(refusal)),
    };
    if dropped.batches == 0 {
        return Ok(Some(Forgot {
            dropped,
            names,
            replaced: None,
        }));
    }
    match replace_read(
        alloc,
        folder,
        temporary,
        passed,
        names.as_slice(),
        bytes.as_slice(),
    ) {
        Ok(done) => Ok(Some(Forgot {
            dropped,
            names,
            replaced: Some(done),
        })),
        Err(fault) => Err(fault),
    }
}
