//! A file that stays as it is, and is to be on the disk.
ghost use Rattle.std.specs.Prelude.{◌≡◌, ◌∷◌, List, ℕ, true, OnOk, OnErr};
ghost use Rattle.std.specs.String.{string_bytes};
ghost use Rattle.file_protocol.specs.Event.{Settled, SyncedFile};
ghost use Rattle.file_protocol.specs.Failed.{HasFailed};
ghost use Rattle.file_protocol.specs.Locking.{OnlyKeeps};
ghost use Rattle.file_protocol.specs.Owning.{OwnLock, Owns, GivesBack};
ghost use Rattle.file_protocol.specs.Safe.{StaysOld, OnlyOurs, StaysKept};
ghost use Rattle.file_protocol.specs.Whole.{StaysOnDisk};

use crate::{FileFolder, Place};
use std::io;

/// Has a file on the disk as it is, whose lock the caller has, and gives the lock back. The file is synced, and then its folder. The error is
/// that of the first call that failed: then a loss of power may leave something else.
pub fn keep<F: FileFolder>(folder: &mut F, place: &Place) -> io::Result<()>
    // Once the answer is Ok a crash leaves what the file had when the lock was had.
    ensures on_disk { OnOk result (StaysOnDisk (string_bytes place.now.lock) (string_bytes place.now.name) (F.history folder.old) (F.history folder.new)) }
    // Whatever is answered, a crash at any moment leaves what it could leave before.
    ensures any_moment { StaysOld (string_bytes place.now.lock) (string_bytes place.now.name) (F.history folder.old) (F.history folder.new) }
    // Files and the folder are synced, and the lock is removed; nothing else is done.
    ensures keeps { OnlyKeeps (string_bytes place.now.lock) (F.history folder.old) (F.history folder.new) }
    ensures ours { OnlyOurs (string_bytes place.now.lock) (string_bytes place.now.name) (F.history folder.old) (F.history folder.new) }
    ensures kept { StaysKept (string_bytes place.now.lock) (string_bytes place.now.name) (F.history folder.old) (F.history folder.new) }
    // The lock is given back at every end.
    ensures own { GivesBack (string_bytes place.now.lock) (F.history folder.old) (F.history folder.new) }
    // An error has a call that failed.
    ensures cause { OnErr result (HasFailed (F.history folder.old) (F.history folder.new)) }
{
    let outcome = sync_both(folder, place.name());
    let _ = folder.remove(place.lock());
    outcome
}

/// Syncs a file and then its folder.
fn sync_both<F: FileFolder>(folder: &mut F, name: &str) -> io::Result<()>
    ensures synced { OnOk result (F.history folder.new ≡ Settled true ∷ SyncedFile name.now true ∷ F.history folder.old) }
    ensures keeps { (lock : List ℕ) → OnlyKeeps lock (F.history folder.old) (F.history folder.new) }
    ensures own { (lock : List ℕ) → Owns lock (F.history folder.old) OwnLock (F.history folder.new) OwnLock }
    ensures cause { OnErr result (HasFailed (F.history folder.old) (F.history folder.new)) }
{
    folder.sync_file(name)?;
    folder.open_folder(name)?;
    folder.settle()
}
