//! The parts of a folder, read and joined.
ghost use Rattle.std.specs.Prelude.{◌≡◌, List, ℕ, [], None, map, string_bytes, IfOk, IfErr, IfSome, OnOk, option_map};
ghost use Rattle.column_file.specs.Files.{AreCanonicalOf};
ghost use Rattle.folder_model.specs.Call.{lock_of};
ghost use Rattle.folder_model.specs.Turn.{Gave, listing_of, HasReadAll};
ghost use Rattle.folder_protocol.specs.Goes.{GoesInTurn};
ghost use Rattle.folder_protocol.specs.Linking.{GoesPlainly, LinksNone};
ghost use Rattle.folder_protocol.specs.Sweeping.{RemovesOnly};
ghost use Rattle.folder_protocol.specs.Taking.{UntakenCause};
ghost use Rattle.folder_parts.specs.Covers.{folder_parts};
ghost use Rattle.folder_commands.specs.Joined.{IsReadAs};
ghost use Rattle.folder_commands.specs.ReadParts.{IfPartsRefused};
ghost use Rattle.folder_commands.specs.Refusals.{IsFolderRefused, IsReadRefused};
ghost use Rattle.folder_commands.specs.Relying.{AreAllRelied};

use crate::gathering::gather_each;
use crate::joining::Joining;
use crate::reliance::Reliance;
use folder_parts::{PartFault, PartRefusal};
use folder_protocol::{Folder, Untaken, list_names};
use replica_store::Store;
use std::alloc::Global;
use table_model::Refusal;

/// A refusal that is told of no part.
pub(crate) fn refused(refusal: Refusal) -> Untaken<PartRefusal>
    ensures { result ≡ Untaken.Refused (record { part = 0; fault = PartFault.Refused refusal }) }
{
    Untaken::Refused(PartRefusal {
        part: 0,
        fault: PartFault::Refused(refusal),
    })
}

/// What parts hold together, and the names of those on which a command relies.
#[derive(Drop)]
pub(crate) struct Joined {
    pub store: Store,
    pub relied: Vec<String>,
}

/// What the parts of these names hold together, and on which of them a command relies, as [`read_named`] reads them.
fn join_named<F: Folder>(
    alloc: Global,
    folder: &mut F,
    passed: &[String],
    names: &[String],
    reliance: &Reliance,
) -> Result<Option<Joined>, Untaken<PartRefusal>>
    ensures in_turn { GoesInTurn folder_parts (F.history folder.old) (F.history folder.new) }
    ensures read { IfOk result (λ answer. IsReadAs (map string_bytes passed.now) (map string_bytes names.now) (option_map (λ joined. joined.store.replica) answer) (F.history folder.new)) }
    ensures segments { IfOk result (λ answer. IfSome answer (λ joined. AreCanonicalOf joined.store.replica.schema joined.store.replica.state.batches joined.store.segments)) }
    ensures relied { IfOk result (λ answer. IfSome answer (λ joined. AreAllRelied reliance.now (map string_bytes joined.relied.items) joined.store.replica (F.history folder.new))) }
    ensures listing { listing_of (F.history folder.new) ≡ listing_of (F.history folder.old) }
    ensures since { (listed : List (List ℕ)) → listing_of (F.history folder.old) ≡ Gave listed → map string_bytes passed.now ≡ [] → listed ≡ map string_bytes names.now → OnOk result (HasReadAll folder_parts (F.history folder.new)) }
    ensures refused { IfPartsRefused result (λ refusal. IsReadRefused refusal (map string_bytes passed.now) (map string_bytes names.now) (F.history folder.old) (F.history folder.new)) }
    ensures cause { IfErr result (λ fault. UntakenCause fault (F.history folder.old) (F.history folder.new)) }
    ensures plain { GoesPlainly (F.history folder.old) (F.history folder.new) }
    ensures unremoved { RemovesOnly (λ name. ⊥) (F.history folder.old) (F.history folder.new) }
{
    let start = Joining::new(alloc);
    let Joining { join, relied } = match gather_each(
        alloc, folder, passed, names, reliance, start,
    ) {
        Ok(joining) => joining,
        Err(fault) => return Err(fault),
    };
    let Some(join) = join else {
        return Ok(None);
    };
    match join.into_store(alloc) {
        Ok(store) => Ok(Some(Joined { store, relied })),
        Err(refusal) => Err(refused(refusal)),
    }
}

/// What the parts of these names hold together, which are read one after another: each is compared with its name and joined before the
/// next one is read. Names that no part has, and those that are to be passed over, are left out. None if all are.
pub fn read_named<F: Folder>(
    alloc: Global,
    folder: &mut F,
    passed: &[String],
    names: &[String],
) -> Result<Option<Store>, Untaken<PartRefusal>>
    // Each call is in turn.
    ensures in_turn { GoesInTurn folder_parts (F.history folder.old) (F.history folder.new) }
    // Each part was read by these calls, and what is answered is their join.
    ensures read { IfOk result (λ answer. IsReadAs (map string_bytes passed.now) (map string_bytes names.now) (option_map (λ store. store.replica) answer) (F.history folder.new)) }
    // Its segments are canonical.
    ensures segments { IfOk result (λ answer. IfSome answer (λ store. AreCanonicalOf store.replica.schema store.replica.state.batches store.segments)) }
    // The last listing is as it was.
    ensures listing { listing_of (F.history folder.new) ≡ listing_of (F.history folder.old) }
    // If it gave these names and none is to be passed over, all that it gave was read.
    ensures since { (listed : List (List ℕ)) → listing_of (F.history folder.old) ≡ Gave listed → map string_bytes passed.now ≡ [] → listed ≡ map string_bytes names.now → OnOk result (HasReadAll folder_parts (F.history folder.new)) }
    // A part that is refused is at fault, or memory ran out.
    ensures refused { IfPartsRefused result (λ refusal. IsReadRefused refusal (map string_bytes passed.now) (map string_bytes names.now) (F.history folder.old) (F.history folder.new)) }
    // That they were not all read has its cause.
    ensures cause { IfErr result (λ fault. UntakenCause fault (F.history folder.old) (F.history folder.new)) }
    // It gives no name, changes no lock, and lists nothing; and it removes no name.
    ensures plain { GoesPlainly (F.history folder.old) (F.history folder.new) }
    ensures unremoved { RemovesOnly (λ name. ⊥) (F.history folder.old) (F.history folder.new) }
{
    match join_named(alloc, folder, passed, names, &Reliance::Nothing) {
        Ok(Some(joined)) => Ok(Some(joined.store)),
        Ok(None) => Ok(None),
        Err(fault) => Err(fault),
    }
}

/// The parts of a folder as they were read.
#[derive(Drop)]
pub struct Read {
    /// The names that the folder has.
    pub names: Vec<String>,
    /// What its parts hold together. None if it has none.
    pub held: Option<Store>,
    /// The names of the parts on which a command relies.
    pub relied: Vec<String>,
}

/// What all parts of a folder hold together, which is listed first, and on which of them a command relies. Some names may be passed
/// over.
pub fn read_folder<F: Folder>(
    alloc: Global,
    folder: &mut F,
    passed: &[String],
    reliance: &Reliance,
) -> Result<Read, Untaken<PartRefusal>>
    // Each call is in turn.
    ensures in_turn { GoesInTurn folder_parts (F.history folder.old) (F.history folder.new) }
    // These are the names that the last listing gave.
    ensures listed { IfOk result (λ read. listing_of (F.history folder.new) ≡ Gave (map string_bytes read.names.items)) }
    // Each part was read by these calls, and what is answered is their join.
    ensures read { IfOk result (λ read. IsReadAs (map string_bytes passed.now) (map string_bytes read.names.items) (option_map (λ store. store.replica) read.held) (F.history folder.new)) }
    // Its segments are canonical.
    ensures segments { IfOk result (λ read. IfSome read.held (λ store. AreCanonicalOf store.replica.schema store.replica.state.batches store.segments)) }
    // Each thing that it has and on which the command relies is in a part whose name is told.
    ensures relied { IfOk result (λ read. IfSome read.held (λ store. AreAllRelied reliance.now (map string_bytes read.relied.items) store.replica (F.history folder.new))) }
    // If no name was passed over, all that a listing under the lock gave was read.
    ensures all { map string_bytes passed.now ≡ [] → OnOk result (HasReadAll folder_parts (F.history folder.new)) }
    // A part that is refused is at fault, or memory ran out.
    ensures refused { IfPartsRefused result (λ refusal. IsFolderRefused refusal (map string_bytes passed.now) (F.history folder.old) (F.history folder.new)) }
    // That they were not all read has its cause.
    ensures cause { IfErr result (λ fault. UntakenCause fault (F.history folder.old) (F.history folder.new)) }
    // It gives no name and removes none, and it leaves no lock, whatever the answer is.
    ensures unlinked { LinksNone (F.history folder.old) (F.history folder.new) }
    ensures unremoved { RemovesOnly (λ name. ⊥) (F.history folder.old) (F.history folder.new) }
    ensures unlocked { lock_of (F.history folder.new) ≡ None }
{
    let names = match list_names(alloc, folder) {
        Ok(names) => names,
        Err(error) => return Err(Untaken::Failed(error)),
    };
    match join_named(alloc, folder, passed, names.as_slice(), reliance) {
        Ok(Some(Joined { store, relied })) => Ok(Read {
            names,
            held: Some(store),
            relied,
        }),
        Ok(None) => Ok(Read {
            names,
            held: None,
            relied: Vec::new(alloc),
        }),
        Err(fault) => Err(fault),
    }
}
