//! How a part is put that relies on parts which the folder has.
ghost use Rattle.std.specs.Prelude.{◌≡◌, Some, None, map, string_bytes, IfOk, IfSome, OnOk, OnErr};
ghost use Rattle.folder_model.specs.Call.{lock_of};
ghost use Rattle.folder_model.specs.Parts.{Parts};
ghost use Rattle.folder_model.specs.Turn.{IsStored};
ghost use Rattle.folder_protocol.specs.Causes.{Fails, HasCall, LookCause, IsNamed};
ghost use Rattle.folder_protocol.specs.Goes.{GoesInTurn};
ghost use Rattle.folder_protocol.specs.Keeping.{AreKept, AreReliedOn};
ghost use Rattle.folder_protocol.specs.Premises.{MayPut};
ghost use Rattle.folder_protocol.specs.Linking.{LinksOnly, LinksNone, WasSo, Watches, Each, One};
ghost use Rattle.folder_parts.specs.Covers.{folder_parts};
ghost use Rattle.folder_commands.specs.Relying.{AreLeft};

use folder_protocol::{self, Folder, Outcome, Taker};
use std::alloc::Global;
use std::io;

/// Puts a part of this name and with these bytes into a folder, by a temporary of a new name, once the parts of some other names, on
/// which it relies, are on the disk. If one of those can't be synced nothing is put.
pub fn keep_and_put<F: Folder>(
    alloc: Global,
    folder: &mut F,
    relied: &[String],
    temporary: &str,
    name: &str,
    bytes: &[u8],
) -> io::Result<Outcome>
    // Each call is in turn.
    ensures in_turn { (parts : Parts) → MayPut parts temporary.now name.now bytes.now → GoesInTurn parts (F.history folder.old) (F.history folder.new) }
    // Each part that it relies on is kept, or gone.
    ensures kept { (parts : Parts) → MayPut parts temporary.now name.now bytes.now → OnOk result (AreKept parts (map string_bytes relied.now) (F.history folder.old) (F.history folder.new)) }
    // Each part of them that was read before is kept, or is gone and covered by another: either way it is safe.
    ensures safe { (parts : Parts) → MayPut parts temporary.now name.now bytes.now → OnOk result (AreReliedOn parts (map string_bytes relied.now) (F.history folder.old) (F.history folder.new)) }
    // No call was to give a file a name before each of them was kept, or gone, whatever the answer is: so nothing is put if one can't be kept.
    ensures first { (parts : Parts) → MayPut parts temporary.now name.now bytes.now → LinksOnly (AreKept parts (map string_bytes relied.now) (F.history folder.old)) (F.history folder.old) (F.history folder.new) }
    // Once the new part is on the disk it is stored.
    ensures stored { (parts : Parts) → name.now ≡ parts.name_of bytes.now → IfOk result (λ how. how ≡ Outcome.OnDisk → IsStored parts bytes.now (F.history folder.new)) }
    // So each batch and each deletion that it has, or that one of the others has, is in a part that is on the disk, or in one that was gone.
    ensures left { MayPut folder_parts temporary.now name.now bytes.now → IfOk result (λ how. how ≡ Outcome.OnDisk → AreLeft bytes.now (map string_bytes relied.now) (F.history folder.old) (F.history folder.new)) }
    // Any other answer has its cause: a sync that failed, no file, or other bytes; and so has an error: a call that failed.
    ensures cause { IfOk result (λ how. LookCause how name.now bytes.now (F.history folder.old) (F.history folder.new)) }
    ensures fails { OnErr result (HasCall Fails (F.history folder.old) (F.history folder.new)) }
    // The file was given its name, or another file had it.
    ensures named { IfOk result (λ how. IsNamed how name.now (F.history folder.old) (F.history folder.new)) }
    // It changes no lock.
    ensures locks { lock_of (F.history folder.new) ≡ lock_of (F.history folder.old) }
{
    folder_protocol::keep_and_put(alloc, folder, relied, temporary, name, bytes)
}

/// Puts a part as [`keep_and_put`] does it, if what judges the folder's parts wants none that is there.
///
/// None if a name is there that is wanted: nothing is put then. Take what came, and begin anew.
pub fn keep_and_put_judged<F: Folder, T: Taker>(
    alloc: Global,
    folder: &mut F,
    relied: &[String],
    temporary: &str,
    name: &str,
    bytes: &[u8],
    judge: &T,
) -> io::Result<Option<Outcome>>
    // Each call is in turn.
    ensures in_turn { (parts : Parts) → MayPut parts temporary.now name.now bytes.now → GoesInTurn parts (F.history folder.old) (F.history folder.new) }
    // Each part that it relies on is kept, or gone.
    ensures kept { (parts : Parts) → MayPut parts temporary.now name.now bytes.now → OnOk result (AreKept parts (map string_bytes relied.now) (F.history folder.old) (F.history folder.new)) }
    // Each part of them that was read before is kept, or is gone and covered by another: either way it is safe.
    ensures safe { (parts : Parts) → MayPut parts temporary.now name.now bytes.now → OnOk result (AreReliedOn parts (map string_bytes relied.now) (F.history folder.old) (F.history folder.new)) }
    // No call was to give a file a name before each of them was kept, or gone, whatever the answer is: so nothing is put if one can't be kept.
    ensures first { (parts : Parts) → MayPut parts temporary.now name.now bytes.now → LinksOnly (AreKept parts (map string_bytes relied.now) (F.history folder.old)) (F.history folder.old) (F.history folder.new) }
    // Once the new part is on the disk it is stored.
    ensures stored { (parts : Parts) → MayPut parts temporary.now name.now bytes.now → IfOk result (λ answer. answer ≡ Some Outcome.OnDisk → IsStored parts bytes.now (F.history folder.new)) }
    // So each batch and each deletion that it has, or that one of the others has, is in a part that is on the disk, or in one that was gone.
    ensures left { MayPut folder_parts temporary.now name.now bytes.now → IfOk result (λ answer. answer ≡ Some Outcome.OnDisk → AreLeft bytes.now (map string_bytes relied.now) (F.history folder.old) (F.history folder.new)) }
    // Any other answer but None has its cause: a sync that failed, no file, or other bytes; and so has an error: a call that failed.
    ensures cause { IfOk result (λ answer. IfSome answer (λ how. LookCause how name.now bytes.now (F.history folder.old) (F.history folder.new))) }
    ensures fails { OnErr result (HasCall Fails (F.history folder.old) (F.history folder.new)) }
    // If it answers what came of the part, the file was given its name, or another file had it.
    ensures named { IfOk result (λ answer. IfSome answer (λ how. IsNamed how name.now (F.history folder.old) (F.history folder.new))) }
    // Each call that was to give a file a name was made under the exclusive lock, held since before a listing that gave only names that may
    // be passed over, whatever the answer is.
    ensures links { LinksOnly (Watches (Each (T.passes judge.now))) (F.history folder.old) (F.history folder.new) }
    // There was such a listing, if the answer is not None; and None if a listing under that lock gave a name that is wanted. Then no file
    // was given a name.
    ensures watched { IfOk result (λ answer. IfSome answer (λ how. WasSo (Watches (Each (T.passes judge.now))) (F.history folder.old) (F.history folder.new))) }
    ensures wanted { IfOk result (λ answer. answer ≡ None → WasSo (Watches (One (T.wanted judge.now))) (F.history folder.old) (F.history folder.new)) }
    ensures unlinked { IfOk result (λ answer. answer ≡ None → LinksNone (F.history folder.old) (F.history folder.new)) }
    // It leaves no lock.
    ensures unlocked { lock_of (F.history folder.old) ≡ None → lock_of (F.history folder.new) ≡ None }
{
    folder_protocol::keep_and_put_judged(alloc, folder, relied, temporary, name, bytes, judge)
}
