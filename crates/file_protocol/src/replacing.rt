//! How a file is replaced whole, by who has its lock.
ghost use Rattle.std.specs.Prelude.{◌≡◌, ◌≢◌, List, ℕ, [], OnOk, OnErr, IfOk, IfErr, IsErrOf};
ghost use Rattle.std.specs.String.{string_bytes};
ghost use Rattle.file_protocol.specs.Phase.{Holding, Filled, Ready, Gone, Goes, GoesBack, GoesInTurn};
ghost use Rattle.file_protocol.specs.Outcome.{phase_of};
ghost use Rattle.file_protocol.specs.Safe.{OldOrNew, IsNew, IsOld, IsInPlace, LeavesNoLock, OnlyOurs, StaysKept};
ghost use Rattle.file_protocol.specs.Owning.{OwnLock, Owns, GivesBack};
ghost use Rattle.file_protocol.specs.Failed.{HasFailed};

use crate::outcome::{ReplaceError, Replaced};
use crate::{FileFolder, Place};
use std::io;

/// Puts these bytes in the place of a file whose lock the caller has.
pub fn replace<F: FileFolder>(
    folder: &mut F,
    place: &Place,
    bytes: &[u8],
) -> Result<Replaced, ReplaceError>
    // A crash at any moment leaves the old bytes or the new ones.
    ensures any_moment { OldOrNew (string_bytes place.now.lock) (string_bytes place.now.name) bytes.now (F.history folder.old) (F.history folder.new) }
    // Once the answer is that it is synced, the new ones.
    ensures synced { IfOk result (λ how. how ≡ Replaced.Synced → IsNew (string_bytes place.now.lock) (string_bytes place.now.name) bytes.now (F.history folder.old) (F.history folder.new)) }
    // Once it is answered Ok, each process reads the new ones, and no lock is left.
    ensures in_place { OnOk result (IsInPlace (string_bytes place.now.lock) (string_bytes place.now.name) bytes.now (F.history folder.old) (F.history folder.new)) }
    ensures no_lock { OnOk result (LeavesNoLock (string_bytes place.now.lock) (F.history folder.old) (F.history folder.new)) }
    // Once it is answered that it is unchanged, the old ones.
    ensures unchanged { IsErrOf result ReplaceError.Unchanged → IsOld (string_bytes place.now.lock) (string_bytes place.now.name) (F.history folder.old) (F.history folder.new) }
    // An error has a call that failed.
    ensures cause { OnErr result (HasFailed (F.history folder.old) (F.history folder.new)) }
    // No other name is opened, renamed or removed, and at each moment the next command may begin on what a crash leaves.
    ensures ours { OnlyOurs (string_bytes place.now.lock) (string_bytes place.now.name) (F.history folder.old) (F.history folder.new) }
    ensures kept { StaysKept (string_bytes place.now.lock) (string_bytes place.now.name) (F.history folder.old) (F.history folder.new) }
    // The lock is written, renamed and removed only while it is had, and it is given back at every end.
    ensures own { GivesBack (string_bytes place.now.lock) (F.history folder.old) (F.history folder.new) }
{
    exchange(folder, place.lock(), place.name(), bytes)
}

/// Fills the lock's file with the bytes and puts it in the place of the file `name`. The contract says at each end how far it came.
fn exchange<F: FileFolder>(
    folder: &mut F,
    lock: &str,
    name: &str,
    bytes: &[u8],
) -> Result<Replaced, ReplaceError>
    requires { lock.now ≢ name.now }
    ensures in_turn { GoesInTurn lock.now name.now bytes.now (F.history folder.old) Holding (F.history folder.new) }
    ensures ok { IfOk result (λ how. Goes lock.now name.now bytes.now (F.history folder.old) Holding (F.history folder.new) (phase_of how)) }
    ensures no_lock { OnOk result (LeavesNoLock lock.now (F.history folder.old) (F.history folder.new)) }
    ensures unchanged { IsErrOf result ReplaceError.Unchanged → Goes lock.now name.now bytes.now (F.history folder.old) Holding (F.history folder.new) Gone }
    ensures own { GivesBack lock.now (F.history folder.old) (F.history folder.new) }
    ensures cause { OnErr result (HasFailed (F.history folder.old) (F.history folder.new)) }
{
    match fill(folder, lock, name, bytes) {
        Ok(()) => put(folder, lock, name, bytes),
        Err(_) => {
            let _ = folder.remove(lock);
            Err(ReplaceError::Unchanged)
        }
    }
}

/// Writes the bytes to the lock's file, and has them on the disk. The folder is opened first: if that fails, nothing was done.
fn fill<F: FileFolder>(folder: &mut F, lock: &str, name: &str, bytes: &[u8]) -> io::Result<()>
    ensures ok { OnOk result (Goes lock.now name.now bytes.now (F.history folder.old) Holding (F.history folder.new) (Ready bytes.now)) }
    ensures err { OnErr result (GoesBack lock.now name.now bytes.now (F.history folder.old) Holding (F.history folder.new)) }
    ensures own { Owns lock.now (F.history folder.old) OwnLock (F.history folder.new) OwnLock }
    ensures cause { OnErr result (HasFailed (F.history folder.old) (F.history folder.new)) }
{
    folder.open_folder(name)?;
    folder.empty()?;
    write_all(folder, lock, name, bytes)?;
    folder.sync()
}

/// Writes the bytes, in as many pieces as it takes.
fn write_all<F: FileFolder>(folder: &mut F, lock: &str, name: &str, bytes: &[u8]) -> io::Result<()>
    ensures ok { OnOk result (Goes lock.now name.now bytes.now (F.history folder.old) (Filled []) (F.history folder.new) (Filled bytes.now)) }
    ensures err { OnErr result (GoesBack lock.now name.now bytes.now (F.history folder.old) (Filled []) (F.history folder.new)) }
    ensures own { Owns lock.now (F.history folder.old) OwnLock (F.history folder.new) OwnLock }
    ensures cause { OnErr result (HasFailed (F.history folder.old) (F.history folder.new)) }
{
    let mut done = 0;
    while done < bytes.len() {
        let taken = folder.write(&bytes[done..])?;
        if taken == 0 {
            return Err(io::Error::from(io::ErrorKind::WriteZero));
        }
        done += taken;
    }
    Ok(())
}

/// Gives the lock's file the name, and has the folder on the disk.
fn put<F: FileFolder>(
    folder: &mut F,
    lock: &str,
    name: &str,
    bytes: &[u8],
) -> Result<Replaced, ReplaceError>
    requires { lock.now ≢ name.now }
    ensures ok { IfOk result (λ how. Goes lock.now name.now bytes.now (F.history folder.old) (Ready bytes.now) (F.history folder.new) (phase_of how)) }
    ensures no_lock { OnOk result (LeavesNoLock lock.now (F.history folder.old) (F.history folder.new)) }
    ensures err { OnErr result (GoesInTurn lock.now name.now bytes.now (F.history folder.old) (Ready bytes.now) (F.history folder.new)) }
    ensures unsure { IfErr result (λ e. e ≡ ReplaceError.Unsure) }
    ensures own { GivesBack lock.now (F.history folder.old) (F.history folder.new) }
    ensures cause { OnErr result (HasFailed (F.history folder.old) (F.history folder.new)) }
{
    match folder.rename(lock, name) {
        Ok(()) => match folder.settle() {
            Ok(()) => Ok(Replaced::Synced),
            Err(_) => Ok(Replaced::Unsynced),
        },
        Err(_) => {
            if folder.is_named(lock) {
                let _ = folder.remove(lock);
            }
            Err(ReplaceError::Unsure)
        }
    }
}
