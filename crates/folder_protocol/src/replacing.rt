//! How a part is put in the place of those that it was made of.
ghost use Rattle.std.specs.Prelude.{◌≡◌, List, ℕ, ◌++◌, map, true, false, Some, None, OnErr, IfOk, IfSome};
ghost use Rattle.std.specs.String.{string_bytes};
ghost use Rattle.folder_model.specs.Call.{Call, lock_of};
ghost use Rattle.folder_model.specs.Disk.{Among};
ghost use Rattle.folder_model.specs.Parts.{Parts};
ghost use Rattle.folder_model.specs.Turn.{IsStored, stage_of};
ghost use Rattle.folder_protocol.specs.Goes.{GoesInTurn, AreJoined, AreRemoved};
ghost use Rattle.folder_protocol.specs.Premises.{IsExclusive, MayPut, MayReplace};
ghost use Rattle.folder_protocol.specs.Causes.{Fails, Lacks, HasCall, LookCause};
ghost use Rattle.folder_protocol.specs.Linking.{LinksOnly, LinksNone, WasSo, Watches, HasEach, LacksOne};
ghost use Rattle.folder_protocol.specs.Removing.{RemovesOnce, IsOwnOrReplaced};
ghost use Rattle.folder_protocol.specs.Sweeping.{RemovesOnly};

use crate::Folder;
use crate::names::has_name;
use crate::putting::{Outcome, write_new};
use crate::removing::look_and_remove;
use std::alloc::Global;
use std::io;

/// Puts a part of this name and with these bytes into a folder, by a temporary of a new name, in the place of parts that were read and
/// that it covers. It is written first. Then, under the exclusive lock, they are seen to be there, it is given its name, and once it is
/// on the disk they are removed.
///
/// None if one of them is gone: nothing is put or removed then. What has taken its place may have dropped what this part would bring back.
pub fn replace<F: Folder>(
    alloc: Global,
    folder: &mut F,
    temporary: &str,
    name: &str,
    bytes: &[u8],
    joined: &[String],
) -> io::Result<Option<Outcome>>
    // Each call is in turn.
    ensures in_turn { (parts : Parts) → MayPut parts temporary.now name.now bytes.now → AreJoined parts bytes.now (map string_bytes joined.now) (F.history folder.old) → GoesInTurn parts (F.history folder.old) (F.history folder.new) }
    // Once the answer is that it is on the disk, each of them was removed.
    ensures gone { IfOk result (λ answer. answer ≡ Some Outcome.OnDisk → AreRemoved (map string_bytes joined.now) (F.history folder.old) (F.history folder.new)) }
    // Any other answer but None has its cause: a sync that failed, no file, or other bytes; and so has an error: a call that failed.
    ensures cause { IfOk result (λ answer. IfSome answer (λ how. LookCause how name.now bytes.now (F.history folder.old) (F.history folder.new))) }
    // None has its cause: a listing that lacked one of them.
    ensures overtaken { IfOk result (λ answer. answer ≡ None → HasCall (Lacks (map string_bytes joined.now)) (F.history folder.old) (F.history folder.new)) }
    ensures fails { OnErr result (HasCall Fails (F.history folder.old) (F.history folder.new)) }
    // Once it is on the disk it is stored.
    ensures stored { (parts : Parts) → name.now ≡ parts.name_of bytes.now → IfOk result (λ answer. answer ≡ Some Outcome.OnDisk → IsStored parts bytes.now (F.history folder.new)) }
    // Each call that was to give a file a name was made under the exclusive lock, which was had since the beginning of a listing that gave each
    // of them, whatever the answer is.
    ensures links { LinksOnly (Watches (HasEach (map string_bytes joined.now))) (F.history folder.old) (F.history folder.new) }
    // None, if a listing under that lock lacked one of them. Then no file was given a name.
    ensures lacked { IfOk result (λ answer. answer ≡ None → WasSo (Watches (LacksOne (map string_bytes joined.now))) (F.history folder.old) (F.history folder.new)) }
    ensures unlinked { IfOk result (λ answer. answer ≡ None → LinksNone (F.history folder.old) (F.history folder.new)) }
    // Whatever the answer is, no name was to be removed but the temporary's and these, and each of these only after the part was read and synced,
    // and then the folder, under the exclusive lock, which was held since.
    ensures removes { (parts : Parts) → name.now ≡ parts.name_of bytes.now → RemovesOnce (IsOwnOrReplaced parts temporary.now bytes.now (map string_bytes joined.now)) (F.history folder.old) (F.history folder.new) }
    // It leaves no lock.
    ensures unlocked { lock_of (F.history folder.old) ≡ None → lock_of (F.history folder.new) ≡ None }
{
    match write_new(folder, temporary, bytes) {
        Ok(()) => lock_and_replace(alloc, folder, temporary, name, bytes, joined),
        Err(error) => {
            let _ = folder.remove(temporary);
            Err(error)
        }
    }
}

/// Puts a part, of which the temporary is written, in the place of others, under the exclusive lock.
fn lock_and_replace<F: Folder>(
    alloc: Global,
    folder: &mut F,
    temporary: &str,
    name: &str,
    bytes: &[u8],
    joined: &[String],
) -> io::Result<Option<Outcome>>
    ensures in_turn { (parts : Parts) → MayReplace parts temporary.now name.now bytes.now (map string_bytes joined.now) (F.history folder.old) → GoesInTurn parts (F.history folder.old) (F.history folder.new) }
    ensures gone { IfOk result (λ answer. answer ≡ Some Outcome.OnDisk → AreRemoved (map string_bytes joined.now) (F.history folder.old) (F.history folder.new)) }
    ensures cause { IfOk result (λ answer. IfSome answer (λ how. LookCause how name.now bytes.now (F.history folder.old) (F.history folder.new))) }
    ensures overtaken { IfOk result (λ answer. answer ≡ None → HasCall (Lacks (map string_bytes joined.now)) (F.history folder.old) (F.history folder.new)) }
    ensures fails { OnErr result (HasCall Fails (F.history folder.old) (F.history folder.new)) }
    ensures stored { (parts : Parts) → name.now ≡ parts.name_of bytes.now → IfOk result (λ answer. answer ≡ Some Outcome.OnDisk → IsStored parts bytes.now (F.history folder.new)) }
    ensures links { LinksOnly (Watches (HasEach (map string_bytes joined.now))) (F.history folder.old) (F.history folder.new) }
    ensures lacked { IfOk result (λ answer. answer ≡ None → WasSo (Watches (LacksOne (map string_bytes joined.now))) (F.history folder.old) (F.history folder.new)) }
    ensures unlinked { IfOk result (λ answer. answer ≡ None → LinksNone (F.history folder.old) (F.history folder.new)) }
    ensures removes { (parts : Parts) → name.now ≡ parts.name_of bytes.now → RemovesOnce (IsOwnOrReplaced parts temporary.now bytes.now (map string_bytes joined.now)) (F.history folder.old) (F.history folder.new) }
    ensures unlocked { lock_of (F.history folder.new) ≡ None }
{
    match folder.lock() {
        Ok(()) => {
            let outcome = look_and_replace(alloc, folder, temporary, name, bytes, joined);
            folder.unlock();
            outcome
        }
        Err(error) => {
            let _ = folder.remove(temporary);
            Err(error)
        }
    }
}

/// Puts a part, of which the temporary is written, in the place of others, if they are all there. The exclusive lock is held.
fn look_and_replace<F: Folder>(
    alloc: Global,
    folder: &mut F,
    temporary: &str,
    name: &str,
    bytes: &[u8],
    joined: &[String],
) -> io::Result<Option<Outcome>>
    ensures in_turn { (parts : Parts) → IsExclusive (F.history folder.old) → MayReplace parts temporary.now name.now bytes.now (map string_bytes joined.now) (F.history folder.old) → GoesInTurn parts (F.history folder.old) (F.history folder.new) }
    ensures gone { IfOk result (λ answer. answer ≡ Some Outcome.OnDisk → AreRemoved (map string_bytes joined.now) (F.history folder.old) (F.history folder.new)) }
    ensures cause { IfOk result (λ answer. IfSome answer (λ how. LookCause how name.now bytes.now (F.history folder.old) (F.history folder.new))) }
    ensures overtaken { IfOk result (λ answer. answer ≡ None → HasCall (Lacks (map string_bytes joined.now)) (F.history folder.old) (F.history folder.new)) }
    ensures fails { OnErr result (HasCall Fails (F.history folder.old) (F.history folder.new)) }
    ensures stored { (parts : Parts) → name.now ≡ parts.name_of bytes.now → IsExclusive (F.history folder.old) → IfOk result (λ answer. answer ≡ Some Outcome.OnDisk → IsStored parts bytes.now (F.history folder.new)) }
    ensures links { IsExclusive (F.history folder.old) → LinksOnly (Watches (HasEach (map string_bytes joined.now))) (F.history folder.old) (F.history folder.new) }
    ensures lacked { IsExclusive (F.history folder.old) → IfOk result (λ answer. answer ≡ None → WasSo (Watches (LacksOne (map string_bytes joined.now))) (F.history folder.old) (F.history folder.new)) }
    ensures unlinked { IfOk result (λ answer. answer ≡ None → LinksNone (F.history folder.old) (F.history folder.new)) }
    ensures removes { (parts : Parts) → name.now ≡ parts.name_of bytes.now → IsExclusive (F.history folder.old) → RemovesOnce (IsOwnOrReplaced parts temporary.now bytes.now (map string_bytes joined.now)) (F.history folder.old) (F.history folder.new) }
{
    match are_there(alloc, folder, joined) {
        Ok(true) => place_and_remove(alloc, folder, temporary, name, bytes, joined),
        Ok(false) => {
            let _ = folder.remove(temporary);
            Ok(None)
        }
        Err(error) => {
            let _ = folder.remove(temporary);
            Err(error)
        }
    }
}

/// Whether a folder of which the exclusive lock is held has all of these names.
fn are_there<F: Folder>(alloc: Global, folder: &mut F, names: &[String]) -> io::Result<bool>
    ensures in_turn { (parts : Parts) → IsExclusive (F.history folder.old) → GoesInTurn parts (F.history folder.old) (F.history folder.new) }
    ensures follows { (calls : List Call) × (F.history folder.new ≡ calls ++ F.history folder.old) }
    ensures stays { (parts : Parts) → stage_of parts (F.history folder.new) ≡ stage_of parts (F.history folder.old) }
    ensures locked { lock_of (F.history folder.new) ≡ lock_of (F.history folder.old) }
    ensures lacking { IfOk result (λ there. there ≡ false → HasCall (Lacks (map string_bytes names.now)) (F.history folder.old) (F.history folder.new)) }
    ensures fails { OnErr result (HasCall Fails (F.history folder.old) (F.history folder.new)) }
    ensures links { LinksNone (F.history folder.old) (F.history folder.new) }
    ensures watched { IsExclusive (F.history folder.old) → IfOk result (λ there. there ≡ true → Watches (HasEach (map string_bytes names.now)) (F.history folder.new)) }
    ensures lacked { IsExclusive (F.history folder.old) → IfOk result (λ there. there ≡ false → Watches (LacksOne (map string_bytes names.now)) (F.history folder.new)) }
    ensures unremoved { RemovesOnly (λ name. ⊥) (F.history folder.old) (F.history folder.new) }
{
    let listed = folder.list(alloc)?;
    Ok(has_each(listed.as_slice(), names))
}

/// Whether all of these names are among those that were listed.
fn has_each(listed: &[String], names: &[String]) -> bool
    ensures lacking { result ≡ false → LacksOne (map string_bytes names.now) (map string_bytes listed.now) }
    ensures having { result ≡ true → HasEach (map string_bytes names.now) (map string_bytes listed.now) }
{
    let mut at = 0;
    while at < names.len() {
        if !has_name(listed, names[at].as_str()) {
            return false;
        }
        at += 1;
    }
    true
}

/// Gives the temporary its name, has it on the disk, and then removes the parts of these names.
fn place_and_remove<F: Folder>(
    alloc: Global,
    folder: &mut F,
    temporary: &str,
    name: &str,
    bytes: &[u8],
    joined: &[String],
) -> io::Result<Option<Outcome>>
    ensures in_turn { (parts : Parts) → IsExclusive (F.history folder.old) → MayReplace parts temporary.now name.now bytes.now (map string_bytes joined.now) (F.history folder.old) → GoesInTurn parts (F.history folder.old) (F.history folder.new) }
    ensures gone { IfOk result (λ answer. answer ≡ Some Outcome.OnDisk → AreRemoved (map string_bytes joined.now) (F.history folder.old) (F.history folder.new)) }
    ensures cause { IfOk result (λ answer. IfSome answer (λ how. LookCause how name.now bytes.now (F.history folder.old) (F.history folder.new))) }
    ensures some { IfOk result (λ answer. answer ≡ None → ⊥) }
    ensures fails { OnErr result (HasCall Fails (F.history folder.old) (F.history folder.new)) }
    ensures stored { (parts : Parts) → name.now ≡ parts.name_of bytes.now → IsExclusive (F.history folder.old) → IfOk result (λ answer. answer ≡ Some Outcome.OnDisk → IsStored parts bytes.now (F.history folder.new)) }
    ensures links { LinksOnly (λ calls. calls ≡ F.history folder.old) (F.history folder.old) (F.history folder.new) }
    ensures removes { (parts : Parts) → name.now ≡ parts.name_of bytes.now → IsExclusive (F.history folder.old) → RemovesOnce (IsOwnOrReplaced parts temporary.now bytes.now (map string_bytes joined.now)) (F.history folder.old) (F.history folder.new) }
{
    let linked = folder.link(temporary, name);
    let _ = folder.remove(temporary);
    match linked {
        Ok(_) => match look_and_remove(alloc, folder, name, bytes, joined) {
            Ok(outcome) => Ok(Some(outcome)),
            Err(error) => Err(error),
        },
        Err(error) => Err(error),
    }
}
