//! How the lock of a file is taken.
ghost use Rattle.std.specs.Prelude.{◌≡◌, ◌≢◌, List, ℕ, true, IfOk, OnOk, OnErr};
ghost use Rattle.std.specs.String.{string_bytes};
ghost use Rattle.file_protocol.specs.Safe.{TakesLock, StaysOld, StaysKept};
ghost use Rattle.file_protocol.specs.Locking.{OnlyLocks};
ghost use Rattle.file_protocol.specs.Owning.{OwnsAll, GetsLock};
ghost use Rattle.file_protocol.specs.Failed.{HasFailed};

use crate::{FileFolder, Place};
use patience::Patience;
use std::error::Error;
use std::fmt;
use std::io::{self, ErrorKind};
use std::rt::Clock;

/// Why a lock was not had.
#[derive(Clone, Copy, Debug, PartialEq, Eq, Drop)]
pub enum HoldError {
    /// Another process has had it for ten seconds.
    Busy,
    /// Its file can't be made.
    Unmade,
    /// What has its name is no lock that can be taken: no regular file, or one that may not be opened or removed.
    InTheWay,
}

impl fmt::Display for HoldError {
    fn fmt<W: fmt::Write>(&self, f: &mut fmt::Formatter<W>) -> fmt::Result {
        match self {
            HoldError::Busy => f.write_str("another process has had the lock for ten seconds"),
            HoldError::Unmade => f.write_str("the lock's file can't be made"),
            HoldError::InTheWay => f.write_str("what has the lock's name can't be taken as a lock"),
        }
    }
}

impl Error for HoldError {}

/// Has the lock of a file, which need not be there. The lock is an empty file that this process made, with the mode of the one that is
/// held.
pub fn hold<R: Clock, F: FileFolder>(rt: &R, folder: &mut F, place: &Place) -> Result<(), HoldError>
    // Whatever others do, it is had.
    ensures held { OnOk result (TakesLock (string_bytes place.now.lock) (string_bytes place.now.name) (F.history folder.old) (F.history folder.new)) }
    // A crash at any moment leaves the file as it was, or as others left it.
    ensures any_moment { StaysOld (string_bytes place.now.lock) (string_bytes place.now.name) (F.history folder.old) (F.history folder.new) }
    // No name but the lock's is opened or removed, and the next command may begin on what a crash leaves.
    ensures locks { OnlyLocks (string_bytes place.now.lock) (F.history folder.old) (F.history folder.new) }
    ensures kept { StaysKept (string_bytes place.now.lock) (string_bytes place.now.name) (F.history folder.old) (F.history folder.new) }
    // The lock is removed only by who has it, and once the answer is Ok this process does.
    ensures own { OwnsAll (string_bytes place.now.lock) (F.history folder.old) (F.history folder.new) }
    ensures gets { OnOk result (GetsLock (string_bytes place.now.lock) (F.history folder.old) (F.history folder.new)) }
{
    lock_and_take_mode(rt, folder, place.lock(), place.name())
}

/// Has a lock, with the mode of its file.
fn lock_and_take_mode<R: Clock, F: FileFolder>(
    rt: &R,
    folder: &mut F,
    lock: &str,
    name: &str,
) -> Result<(), HoldError>
    requires { lock.now ≢ name.now }
    ensures held { OnOk result (TakesLock lock.now name.now (F.history folder.old) (F.history folder.new)) }
    ensures locks { OnlyLocks lock.now (F.history folder.old) (F.history folder.new) }
    ensures own { OwnsAll lock.now (F.history folder.old) (F.history folder.new) }
    ensures gets { OnOk result (GetsLock lock.now (F.history folder.old) (F.history folder.new)) }
{
    wait(rt, folder, lock)?;
    if folder.take_mode(name).is_ok() {
        return Ok(());
    }
    let _ = folder.remove(lock);
    Err(HoldError::Unmade)
}

/// Waits for a lock until nobody else has it.
fn wait<R: Clock, F: FileFolder>(rt: &R, folder: &mut F, lock: &str) -> Result<(), HoldError>
    ensures held { (name : List ℕ) → lock.now ≢ name → OnOk result (TakesLock lock.now name (F.history folder.old) (F.history folder.new)) }
    ensures locks { OnlyLocks lock.now (F.history folder.old) (F.history folder.new) }
    ensures own { OwnsAll lock.now (F.history folder.old) (F.history folder.new) }
    ensures gets { OnOk result (GetsLock lock.now (F.history folder.old) (F.history folder.new)) }
{
    let mut patience = Patience::new(rt);
    loop {
        match try_hold(folder, lock) {
            Ok(true) => return Ok(()),
            Ok(false) => {}
            Err(error) => match error.kind() {
                ErrorKind::Interrupted => {}
                ErrorKind::AlreadyExists => return Err(HoldError::InTheWay),
                _ => return Err(HoldError::Unmade),
            },
        }
        if !patience.wait(rt) {
            return Err(HoldError::Busy);
        }
    }
}

/// Tries once to have a lock: makes it or opens it, locks it, and sees that its name is still its own. A lock that was there already is
/// removed once it is locked, and is not taken then: the next try makes a new one. The error is `AlreadyExists` if what has the name
/// can't be taken.
pub fn try_hold<F: FileFolder>(folder: &mut F, lock: &str) -> io::Result<bool>
    ensures held { (name : List ℕ) → lock.now ≢ name → IfOk result (λ is_held. is_held ≡ true → TakesLock lock.now name (F.history folder.old) (F.history folder.new)) }
    ensures locks { OnlyLocks lock.now (F.history folder.old) (F.history folder.new) }
    ensures own { OwnsAll lock.now (F.history folder.old) (F.history folder.new) }
    ensures gets { IfOk result (λ is_held. is_held ≡ true → GetsLock lock.now (F.history folder.old) (F.history folder.new)) }
    ensures cause { OnErr result (HasFailed (F.history folder.old) (F.history folder.new)) }
{
    let is_new = folder.open(lock)?;
    if !folder.try_lock()? {
        return Ok(false);
    }
    if !folder.is_named(lock) {
        return Ok(false);
    }
    if is_new {
        return Ok(true);
    }
    match folder.remove(lock) {
        Ok(()) => Ok(false),
        Err(_) => Err(io::Error::from(ErrorKind::AlreadyExists)),
    }
}
