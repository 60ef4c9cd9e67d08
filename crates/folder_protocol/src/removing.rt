//! How a pack removes what it has joined.
ghost use Rattle.std.specs.Prelude.{◌≡◌, ℕ, List, map, None, OnOk, OnErr, IfOk};
ghost use Rattle.std.specs.String.{string_bytes};
ghost use Rattle.folder_model.specs.Call.{lock_of};
ghost use Rattle.folder_model.specs.Parts.{Parts};
ghost use Rattle.folder_model.specs.Turn.{IsStored, stage_of};
ghost use Rattle.folder_protocol.specs.Goes.{GoesInTurn, AreJoined, AreRemoved};
ghost use Rattle.folder_protocol.specs.Premises.{IsExclusive, IsGuarded, MayRemove};
ghost use Rattle.folder_protocol.specs.Causes.{Fails, HasCall, LookCause};
ghost use Rattle.folder_protocol.specs.Linking.{GoesPlainly, LinksNone};
ghost use Rattle.folder_protocol.specs.Removing.{RemovesOnce, IsReplaced};

use crate::Folder;
use crate::putting::{Outcome, keep};
use std::alloc::Global;
use std::io;

/// Removes parts that were read, and that the part of this name and with these bytes covers, if that is on the disk. It is looked at
/// again under the exclusive lock: another pack may have removed it. Nothing is removed unless the answer is that it is on the disk, or
/// an error.
pub fn remove_joined<F: Folder>(
    alloc: Global,
    folder: &mut F,
    name: &str,
    bytes: &[u8],
    joined: &[String],
) -> io::Result<Outcome>
    // Each call is in turn.
    ensures in_turn { (parts : Parts) → MayRemove parts name.now bytes.now (map string_bytes joined.now) (F.history folder.old) → GoesInTurn parts (F.history folder.old) (F.history folder.new) }
    // Once the answer is that it is on the disk, each of them was removed.
    ensures gone { IfOk result (λ how. how ≡ Outcome.OnDisk → AreRemoved (map string_bytes joined.now) (F.history folder.old) (F.history folder.new)) }
    // Any other answer has its cause: a sync that failed, no file, or other bytes; and so has an error: a call that failed.
    ensures cause { IfOk result (λ how. LookCause how name.now bytes.now (F.history folder.old) (F.history folder.new)) }
    ensures fails { OnErr result (HasCall Fails (F.history folder.old) (F.history folder.new)) }
    // Once it is on the disk it is stored.
    ensures stored { (parts : Parts) → name.now ≡ parts.name_of bytes.now → IfOk result (λ how. how ≡ Outcome.OnDisk → IsStored parts bytes.now (F.history folder.new)) }
    // Whatever the answer is, no name was to be removed but these, and each only after the part was read and synced, and then the folder, under
    // the exclusive lock, which was held since.
    ensures removes { (parts : Parts) → name.now ≡ parts.name_of bytes.now → RemovesOnce (IsReplaced parts bytes.now (map string_bytes joined.now)) (F.history folder.old) (F.history folder.new) }
    // It gives no name, and leaves no lock.
    ensures unlinked { LinksNone (F.history folder.old) (F.history folder.new) }
    ensures unlocked { lock_of (F.history folder.new) ≡ None }
{
    folder.lock()?;
    let outcome = look_and_remove(alloc, folder, name, bytes, joined);
    folder.unlock();
    outcome
}

/// Removes parts that were read, and that the part of this name and with these bytes covers, if that is on the disk. The exclusive lock is held.
pub fn look_and_remove<F: Folder>(
    alloc: Global,
    folder: &mut F,
    name: &str,
    bytes: &[u8],
    joined: &[String],
) -> io::Result<Outcome>
    ensures in_turn { (parts : Parts) → IsExclusive (F.history folder.old) → MayRemove parts name.now bytes.now (map string_bytes joined.now) (F.history folder.old) → GoesInTurn parts (F.history folder.old) (F.history folder.new) }
    ensures gone { IfOk result (λ how. how ≡ Outcome.OnDisk → AreRemoved (map string_bytes joined.now) (F.history folder.old) (F.history folder.new)) }
    ensures cause { IfOk result (λ how. LookCause how name.now bytes.now (F.history folder.old) (F.history folder.new)) }
    ensures fails { OnErr result (HasCall Fails (F.history folder.old) (F.history folder.new)) }
    ensures guarded { (parts : Parts) → name.now ≡ parts.name_of bytes.now → IsExclusive (F.history folder.old) → IfOk result (λ how. how ≡ Outcome.OnDisk → IsGuarded parts bytes.now (F.history folder.new)) }
    ensures removes { (parts : Parts) → name.now ≡ parts.name_of bytes.now → IsExclusive (F.history folder.old) → RemovesOnce (IsReplaced parts bytes.now (map string_bytes joined.now)) (F.history folder.old) (F.history folder.new) }
    ensures plain { GoesPlainly (F.history folder.old) (F.history folder.new) }
{
    match keep(alloc, folder, name, bytes)? {
        Outcome::OnDisk => {
            remove_each(folder, joined)?;
            folder.settle()?;
            Ok(Outcome::OnDisk)
        }
        other => Ok(other),
    }
}

/// Removes each of these names.
fn remove_each<F: Folder>(folder: &mut F, joined: &[String]) -> io::Result<()>
    ensures in_turn { (parts : Parts) (packed : List ℕ) → IsGuarded parts packed (F.history folder.old) → AreJoined parts packed (map string_bytes joined.now) (F.history folder.old) → GoesInTurn parts (F.history folder.old) (F.history folder.new) }
    ensures gone { OnOk result (AreRemoved (map string_bytes joined.now) (F.history folder.old) (F.history folder.new)) }
    ensures fails { OnErr result (HasCall Fails (F.history folder.old) (F.history folder.new)) }
    ensures stays { (parts : Parts) → stage_of parts (F.history folder.new) ≡ stage_of parts (F.history folder.old) }
    ensures removes { (parts : Parts) (packed : List ℕ) → IsGuarded parts packed (F.history folder.old) → RemovesOnce (IsReplaced parts packed (map string_bytes joined.now)) (F.history folder.old) (F.history folder.new) }
    ensures plain { GoesPlainly (F.history folder.old) (F.history folder.new) }
{
    let mut at = 0;
    while at < joined.len() {
        folder.remove(joined[at].as_str())?;
        at += 1;
    }
    Ok(())
}
