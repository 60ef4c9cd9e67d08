//! How a part is put that is to go with all that are there.
ghost use Rattle.std.specs.Prelude.{◌≡◌, ◌++◌, List, ℕ, true, false, Some, None, map, IfOk, IfSome, OnErr};
ghost use Rattle.std.specs.String.{string_bytes};
ghost use Rattle.folder_model.specs.Call.{Call, lock_of};
ghost use Rattle.folder_model.specs.Disk.{Among};
ghost use Rattle.folder_model.specs.Parts.{Parts};
ghost use Rattle.folder_model.specs.Turn.{IsStored, stage_of};
ghost use Rattle.folder_protocol.specs.Goes.{GoesInTurn};
ghost use Rattle.folder_protocol.specs.Premises.{IsExclusive, IsWritten, MayPut, MayPlace};
ghost use Rattle.folder_protocol.specs.Causes.{Fails, HasCall, LookCause, IsNamed};
ghost use Rattle.folder_protocol.specs.Linking.{LinksOnly, LinksNone, WasSo, Watches, Each, One};

use crate::Folder;
use crate::putting::{Outcome, place, write_new};
use crate::taking::Taker;
use std::alloc::Global;
use std::io;

/// Puts a part of this name and with these bytes into a folder, by a temporary of a new name, if what judges the folder's parts wants
/// none that is there: it has taken them before. The part is written first. Then, under the exclusive lock, the folder is listed, and the
/// part is given its name.
///
/// None if a name is there that is wanted: nothing is put then. Take what came, and begin anew.
pub fn put_judged<F: Folder, T: Taker>(
    alloc: Global,
    folder: &mut F,
    temporary: &str,
    name: &str,
    bytes: &[u8],
    judge: &T,
) -> io::Result<Option<Outcome>>
    // Each call is in turn.
    ensures in_turn { (parts : Parts) → MayPut parts temporary.now name.now bytes.now → GoesInTurn parts (F.history folder.old) (F.history folder.new) }
    // Once it is on the disk it is stored.
    ensures stored { (parts : Parts) → MayPut parts temporary.now name.now bytes.now → IfOk result (λ answer. answer ≡ Some Outcome.OnDisk → IsStored parts bytes.now (F.history folder.new)) }
    // Any other answer but None has its cause: a sync that failed, no file, or other bytes; and so has an error: a call that failed.
    ensures cause { IfOk result (λ answer. IfSome answer (λ how. LookCause how name.now bytes.now (F.history folder.old) (F.history folder.new))) }
    ensures fails { OnErr result (HasCall Fails (F.history folder.old) (F.history folder.new)) }
    // If it answers what came of the part, the file was given its name, or another file had it.
    ensures named { IfOk result (λ answer. IfSome answer (λ how. IsNamed how name.now (F.history folder.old) (F.history folder.new))) }
    // Each call that was to give a file a name was made under the exclusive lock, which was had since the beginning of a listing that gave
    // only names that may be passed over, whatever the answer is.
    ensures links { LinksOnly (Watches (Each (T.passes judge.now))) (F.history folder.old) (F.history folder.new) }
    // There was such a listing, if the answer is not None; and None if a listing under that lock gave a name that is wanted. Then no file was given a name.
    ensures watched { IfOk result (λ answer. IfSome answer (λ how. WasSo (Watches (Each (T.passes judge.now))) (F.history folder.old) (F.history folder.new))) }
    ensures wanted { IfOk result (λ answer. answer ≡ None → WasSo (Watches (One (T.wanted judge.now))) (F.history folder.old) (F.history folder.new)) }
    ensures unlinked { IfOk result (λ answer. answer ≡ None → LinksNone (F.history folder.old) (F.history folder.new)) }
    // It leaves no lock.
    ensures unlocked { lock_of (F.history folder.old) ≡ None → lock_of (F.history folder.new) ≡ None }
{
    match write_new(folder, temporary, bytes) {
        Ok(()) => lock_and_put(alloc, folder, temporary, name, bytes, judge),
        Err(error) => {
            let _ = folder.remove(temporary);
            Err(error)
        }
    }
}

/// Puts a part, of which the temporary is written, under the exclusive lock, if no name is wanted that is there.
fn lock_and_put<F: Folder, T: Taker>(
    alloc: Global,
    folder: &mut F,
    temporary: &str,
    name: &str,
    bytes: &[u8],
    judge: &T,
) -> io::Result<Option<Outcome>>
    ensures in_turn { (parts : Parts) → MayPlace parts temporary.now name.now bytes.now (F.history folder.old) → GoesInTurn parts (F.history folder.old) (F.history folder.new) }
    ensures stored { (parts : Parts) → name.now ≡ parts.name_of bytes.now → IsWritten parts temporary.now bytes.now (F.history folder.old) → IfOk result (λ answer. answer ≡ Some Outcome.OnDisk → IsStored parts bytes.now (F.history folder.new)) }
    ensures cause { IfOk result (λ answer. IfSome answer (λ how. LookCause how name.now bytes.now (F.history folder.old) (F.history folder.new))) }
    ensures fails { OnErr result (HasCall Fails (F.history folder.old) (F.history folder.new)) }
    ensures named { IfOk result (λ answer. IfSome answer (λ how. IsNamed how name.now (F.history folder.old) (F.history folder.new))) }
    ensures links { LinksOnly (Watches (Each (T.passes judge.now))) (F.history folder.old) (F.history folder.new) }
    ensures watched { IfOk result (λ answer. IfSome answer (λ how. WasSo (Watches (Each (T.passes judge.now))) (F.history folder.old) (F.history folder.new))) }
    ensures wanted { IfOk result (λ answer. answer ≡ None → WasSo (Watches (One (T.wanted judge.now))) (F.history folder.old) (F.history folder.new)) }
    ensures unlinked { IfOk result (λ answer. answer ≡ None → LinksNone (F.history folder.old) (F.history folder.new)) }
    ensures unlocked { lock_of (F.history folder.new) ≡ None }
{
    match folder.lock() {
        Ok(()) => {
            let outcome = look_and_put(alloc, folder, temporary, name, bytes, judge);
            folder.unlock();
            outcome
        }
        Err(error) => {
            let _ = folder.remove(temporary);
            Err(error)
        }
    }
}

/// Puts a part, of which the temporary is written, if no name is wanted that is there. The exclusive lock is held.
fn look_and_put<F: Folder, T: Taker>(
    alloc: Global,
    folder: &mut F,
    temporary: &str,
    name: &str,
    bytes: &[u8],
    judge: &T,
) -> io::Result<Option<Outcome>>
    ensures in_turn { (parts : Parts) → MayPlace parts temporary.now name.now bytes.now (F.history folder.old) → IsExclusive (F.history folder.old) → GoesInTurn parts (F.history folder.old) (F.history folder.new) }
    ensures stored { (parts : Parts) → name.now ≡ parts.name_of bytes.now → IsWritten parts temporary.now bytes.now (F.history folder.old) → IfOk result (λ answer. answer ≡ Some Outcome.OnDisk → IsStored parts bytes.now (F.history folder.new)) }
    ensures cause { IfOk result (λ answer. IfSome answer (λ how. LookCause how name.now bytes.now (F.history folder.old) (F.history folder.new))) }
    ensures fails { OnErr result (HasCall Fails (F.history folder.old) (F.history folder.new)) }
    ensures named { IfOk result (λ answer. IfSome answer (λ how. IsNamed how name.now (F.history folder.old) (F.history folder.new))) }
    ensures links { IsExclusive (F.history folder.old) → LinksOnly (Watches (Each (T.passes judge.now))) (F.history folder.old) (F.history folder.new) }
    ensures watched { IsExclusive (F.history folder.old) → IfOk result (λ answer. IfSome answer (λ how. WasSo (Watches (Each (T.passes judge.now))) (F.history folder.old) (F.history folder.new))) }
    ensures wanted { IsExclusive (F.history folder.old) → IfOk result (λ answer. answer ≡ None → WasSo (Watches (One (T.wanted judge.now))) (F.history folder.old) (F.history folder.new)) }
    ensures unlinked { IfOk result (λ answer. answer ≡ None → LinksNone (F.history folder.old) (F.history folder.new)) }
{
    match is_judged(alloc, folder, judge) {
        Ok(true) => match place(alloc, folder, temporary, name, bytes) {
            Ok(outcome) => Ok(Some(outcome)),
            Err(error) => Err(error),
        },
        Ok(false) => {
            let _ = folder.remove(temporary);
            Ok(None)
        }
        Err(error) => {
            let _ = folder.remove(temporary);
            Err(error)
        }
    }
}

/// Whether no name is wanted of a folder of which the exclusive lock is held.
fn is_judged<F: Folder, T: Taker>(alloc: Global, folder: &mut F, judge: &T) -> io::Result<bool>
    ensures in_turn { (parts : Parts) → IsExclusive (F.history folder.old) → GoesInTurn parts (F.history folder.old) (F.history folder.new) }
    ensures follows { (calls : List Call) × (F.history folder.new ≡ calls ++ F.history folder.old) }
    ensures stays { (parts : Parts) → stage_of parts (F.history folder.new) ≡ stage_of parts (F.history folder.old) }
    ensures fails { OnErr result (HasCall Fails (F.history folder.old) (F.history folder.new)) }
    ensures links { LinksNone (F.history folder.old) (F.history folder.new) }
    ensures watched { IsExclusive (F.history folder.old) → IfOk result (λ passed. passed ≡ true → Watches (Each (T.passes judge.now)) (F.history folder.new)) }
    ensures wanted { IsExclusive (F.history folder.old) → IfOk result (λ passed. passed ≡ false → Watches (One (T.wanted judge.now)) (F.history folder.new)) }
{
    let listed = folder.list(alloc)?;
    Ok(wants_none(judge, listed.as_slice()))
}

/// Whether none of these names is wanted.
fn wants_none<T: Taker>(judge: &T, names: &[String]) -> bool
    ensures passing { result ≡ true → Each (T.passes judge.now) (map string_bytes names.now) }
    ensures wanting { result ≡ false → One (T.wanted judge.now) (map string_bytes names.now) }
{
    let mut at = 0;
    while at < names.len() {
        if judge.wants(names[at].as_str()) {
            return false;
        }
        at += 1;
    }
    true
}
