//! How a part is put into a folder.
ghost use Rattle.std.specs.Prelude.{◌≡◌, List, ℕ, [], OnOk, OnErr, IfOk};
ghost use Rattle.folder_model.specs.Call.{lock_of};
ghost use Rattle.folder_model.specs.Parts.{Parts, IsNoPart};
ghost use Rattle.folder_model.specs.Turn.{Filled, IsStored, stage_of};
ghost use Rattle.folder_protocol.specs.Goes.{GoesInTurn};
ghost use Rattle.folder_protocol.specs.Premises.{IsExclusive, IsWritten, IsGuarded, MayPut, MayPlace};
ghost use Rattle.folder_protocol.specs.Causes.{Fails, HasCall, LookCause, IsNamed};
ghost use Rattle.folder_protocol.specs.Linking.{GoesPlainly, LinksOnly};
ghost use Rattle.folder_protocol.specs.Sweeping.{Tries, RemovesOnly};

use crate::Folder;
use std::alloc::Global;
use std::io;

/// What came of putting a part.
#[derive(Clone, Copy, Debug, PartialEq, Eq, Drop)]
pub enum Outcome {
    /// It is on the disk under its name.
    OnDisk,
    /// It has its name, and it or the folder could not be synced: a loss of power may take it away.
    Unsynced,
    /// What had its name before is gone since.
    Gone,
    /// What has its name has other bytes.
    Damaged,
}

/// Puts a part of this name and with these bytes into a folder, by a temporary of a new name.
pub fn put<F: Folder>(
    alloc: Global,
    folder: &mut F,
    temporary: &str,
    name: &str,
    bytes: &[u8],
) -> io::Result<Outcome>
    // Each call is in turn.
    ensures in_turn { (parts : Parts) → MayPut parts temporary.now name.now bytes.now → GoesInTurn parts (F.history folder.old) (F.history folder.new) }
    // Once it is on the disk it is stored.
    ensures stored { (parts : Parts) → name.now ≡ parts.name_of bytes.now → IfOk result (λ how. how ≡ Outcome.OnDisk → IsStored parts bytes.now (F.history folder.new)) }
    // Any other answer has its cause: a sync that failed, no file, or other bytes; and so has an error: a call that failed.
    ensures cause { IfOk result (λ how. LookCause how name.now bytes.now (F.history folder.old) (F.history folder.new)) }
    ensures fails { OnErr result (HasCall Fails (F.history folder.old) (F.history folder.new)) }
    // The file was given its name, or another file had it.
    ensures named { IfOk result (λ how. IsNamed how name.now (F.history folder.old) (F.history folder.new)) }
    // Whatever the answer is, the temporary was to be removed.
    ensures cleaned { HasCall (Tries temporary.now) (F.history folder.old) (F.history folder.new) }
    // It changes no lock.
    ensures locks { lock_of (F.history folder.new) ≡ lock_of (F.history folder.old) }
{
    match write_new(folder, temporary, bytes) {
        Ok(()) => place(alloc, folder, temporary, name, bytes),
        Err(error) => {
            let _ = folder.remove(temporary);
            Err(error)
        }
    }
}

/// Writes the bytes to a new file, and has them on the disk.
pub fn write_new<F: Folder>(folder: &mut F, temporary: &str, bytes: &[u8]) -> io::Result<()>
    ensures in_turn { (parts : Parts) → IsNoPart parts temporary.now → GoesInTurn parts (F.history folder.old) (F.history folder.new) }
    ensures plain { GoesPlainly (F.history folder.old) (F.history folder.new) }
    ensures ready { (parts : Parts) → OnOk result (IsWritten parts temporary.now bytes.now (F.history folder.new)) }
    ensures fails { OnErr result (HasCall Fails (F.history folder.old) (F.history folder.new)) }
    ensures unremoved { RemovesOnly (λ name. ⊥) (F.history folder.old) (F.history folder.new) }
{
    folder.make(temporary)?;
    write_all(folder, bytes)?;
    folder.sync()
}

/// Adds the bytes to the open file, in as many pieces as it takes.
fn write_all<F: Folder>(folder: &mut F, bytes: &[u8]) -> io::Result<()>
    ensures in_turn { (parts : Parts) (temporary : List ℕ) → stage_of parts (F.history folder.old) ≡ Filled temporary [] → GoesInTurn parts (F.history folder.old) (F.history folder.new) }
    ensures plain { GoesPlainly (F.history folder.old) (F.history folder.new) }
    ensures filled { (parts : Parts) (temporary : List ℕ) → stage_of parts (F.history folder.old) ≡ Filled temporary [] → OnOk result (stage_of parts (F.history folder.new) ≡ Filled temporary bytes.now) }
    ensures fails { OnErr result (HasCall Fails (F.history folder.old) (F.history folder.new)) }
    ensures unremoved { RemovesOnly (λ name. ⊥) (F.history folder.old) (F.history folder.new) }
{
    let mut done = 0;
    while done < bytes.len() {
        let taken = folder.write(&bytes[done..])?;
        if taken == 0 {
            return Err(io::Error::from(io::ErrorKind::WriteZero));
        }
        done += taken;
    }
    Ok(())
}

/// Gives the file its name, unless there is one already, which is kept.
pub fn place<F: Folder>(
    alloc: Global,
    folder: &mut F,
    temporary: &str,
    name: &str,
    bytes: &[u8],
) -> io::Result<Outcome>
    ensures in_turn { (parts : Parts) → MayPlace parts temporary.now name.now bytes.now (F.history folder.old) → GoesInTurn parts (F.history folder.old) (F.history folder.new) }
    ensures stored { (parts : Parts) → name.now ≡ parts.name_of bytes.now → IsWritten parts temporary.now bytes.now (F.history folder.old) → IfOk result (λ how. how ≡ Outcome.OnDisk → IsStored parts bytes.now (F.history folder.new)) }
    ensures cause { IfOk result (λ how. LookCause how name.now bytes.now (F.history folder.old) (F.history folder.new)) }
    ensures fails { OnErr result (HasCall Fails (F.history folder.old) (F.history folder.new)) }
    ensures named { IfOk result (λ how. IsNamed how name.now (F.history folder.old) (F.history folder.new)) }
    ensures cleaned { HasCall (Tries temporary.now) (F.history folder.old) (F.history folder.new) }
    ensures links { LinksOnly (λ calls. calls ≡ F.history folder.old) (F.history folder.old) (F.history folder.new) }
    ensures locks { lock_of (F.history folder.new) ≡ lock_of (F.history folder.old) }
{
    let linked = folder.link(temporary, name);
    let _ = folder.remove(temporary);
    match linked {
        Ok(true) => match folder.settle() {
            Ok(()) => Ok(Outcome::OnDisk),
            Err(_) => Ok(Outcome::Unsynced),
        },
        Ok(false) => keep(alloc, folder, name, bytes),
        Err(error) => Err(error),
    }
}

/// Reads the part of a name, and has it on the disk if its bytes are these.
pub fn keep<F: Folder>(
    alloc: Global,
    folder: &mut F,
    name: &str,
    bytes: &[u8],
) -> io::Result<Outcome>
    ensures in_turn { (parts : Parts) → GoesInTurn parts (F.history folder.old) (F.history folder.new) }
    ensures stored { (parts : Parts) → name.now ≡ parts.name_of bytes.now → IfOk result (λ how. how ≡ Outcome.OnDisk → IsStored parts bytes.now (F.history folder.new)) }
    // Under the exclusive lock it is guarded.
    ensures guarded { (parts : Parts) → name.now ≡ parts.name_of bytes.now → IsExclusive (F.history folder.old) → IfOk result (λ how. how ≡ Outcome.OnDisk → IsGuarded parts bytes.now (F.history folder.new)) }
    // Any other answer has its cause: a sync that failed, no file, or other bytes; and so has an error: a call that failed.
    ensures cause { IfOk result (λ how. LookCause how name.now bytes.now (F.history folder.old) (F.history folder.new)) }
    ensures fails { OnErr result (HasCall Fails (F.history folder.old) (F.history folder.new)) }
    // It gives no name, changes no lock, lists nothing, and removes nothing.
    ensures plain { GoesPlainly (F.history folder.old) (F.history folder.new) }
    ensures unremoved { RemovesOnly (λ name. ⊥) (F.history folder.old) (F.history folder.new) }
{
    let found = match folder.read(alloc, name)? {
        Some(found) => found,
        None => return Ok(Outcome::Gone),
    };
    if found.as_slice() != bytes {
        return Ok(Outcome::Damaged);
    }
    match folder.sync() {
        Ok(()) => match folder.settle() {
            Ok(()) => Ok(Outcome::OnDisk),
            Err(_) => Ok(Outcome::Unsynced),
        },
        Err(_) => Ok(Outcome::Unsynced),
    }
}
