//! The lock of a folder, which is on the folder itself: shared while its names are listed, exclusive while files are removed.

use crate::fault::FolderFault;
use crate::refusals::has_no_locks;
use patience::Patience;
use std::fs::{self, File, Files, TryLockError};
use std::io::{self, ErrorKind};
use std::rt::Clock;

/// How a folder is locked.
#[derive(Clone, Copy, Debug, PartialEq, Eq)]
enum Kind {
    Shared,
    Exclusive,
}

/// The lock of a folder, as long as this value is there.
#[derive(Drop)]
pub struct FolderLock {
    folder: File,
}

impl FolderLock {
    /// Waits for the shared lock of a folder; none if the file system has no such lock. Then names come and go unseen.
    ///
    /// Refused are a folder that can't be opened, `Busy` after ten seconds, and `Unlocked` if the system refuses the lock.
    pub fn shared<R: Files<File = File> + Clock>(
        rt: &R,
        folder: &str,
    ) -> Result<Option<FolderLock>, FolderFault> {
        match FolderLock::of_kind(rt, folder, Kind::Shared) {
            Ok(lock) => Ok(Some(lock)),
            Err(FolderFault::NoLock) => Ok(None),
            Err(fault) => Err(fault),
        }
    }

    /// Waits for the exclusive lock of a folder.
    ///
    /// Refused are a folder that can't be opened, `Busy` after ten seconds, `NoLock` if the file system has no such lock, and `Unlocked` if
    /// the system refuses it.
    pub fn exclusive<R: Files<File = File> + Clock>(
        rt: &R,
        folder: &str,
    ) -> Result<FolderLock, FolderFault> {
        FolderLock::of_kind(rt, folder, Kind::Exclusive)
    }

    /// Opens a folder and waits for its lock.
    fn of_kind<R: Files<File = File> + Clock>(
        rt: &R,
        folder: &str,
        kind: Kind,
    ) -> Result<FolderLock, FolderFault> {
        let folder = fs::open(rt, folder)?;
        wait(rt, &folder, kind)?;
        Ok(FolderLock { folder })
    }

    /// Lets the lock go.
    pub fn release(self) {
        let _ = self.folder.unlock();
    }
}

/// Why the lock of a folder was not got.
fn fault_of(error: &io::Error) -> FolderFault {
    if has_no_locks(error) {
        FolderFault::NoLock
    } else {
        FolderFault::Unlocked(error.kind())
    }
}

/// Waits for the lock of a folder that is open.
fn wait<R: Clock>(rt: &R, folder: &File, kind: Kind) -> Result<(), FolderFault> {
    let mut patience = Patience::new(rt);
    loop {
        let tried = match kind {
            Kind::Shared => folder.try_lock_shared(),
            Kind::Exclusive => folder.try_lock(),
        };
        match tried {
            Ok(()) => return Ok(()),
            Err(TryLockError::WouldBlock) => {}
            Err(TryLockError::Error(error)) if error.kind() == ErrorKind::Interrupted => {}
            Err(TryLockError::Error(error)) => return Err(fault_of(&error)),
        }
        if !patience.wait(rt) {
            return Err(FolderFault::Busy);
        }
    }
}
