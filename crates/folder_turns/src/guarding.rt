//! How far a turn is with the part in whose place it removes others.
ghost use Rattle.std.specs.Prelude.{◌≡◌, ℕ, List, true};
ghost use Rattle.folder_turns.specs.Calls.{call_asked};
ghost use Rattle.folder_turns.specs.Guarding.{IsItsPart, alone_of, seen_of, synced_of, settled_of, guard_after};

use crate::order::Order;
use crate::request::{Answer, Request};

/// How far a turn is with its part, by the calls that were told.
#[derive(Clone, Copy, Debug, PartialEq, Eq, Drop)]
pub enum Guard {
    /// The exclusive lock may not be held.
    Open,
    /// The exclusive lock is held.
    Alone,
    /// The part was read since the lock was got.
    Seen,
    /// It was read and synced.
    Whole,
    /// It was read and synced, and then the folder was synced: parts that it covers may be removed.
    Guarded,
}

/// Whether a call has read the part of this name and with these bytes.
pub(crate) fn is_its_part(order: &Order, request: &Request, answer: &Answer) -> bool
    ensures { result ≡ true → IsItsPart order.now request.now answer.now }
{
    match (request, answer) {
        (Request::ReadFile { name }, Answer::Found { bytes }) => {
            name.as_str() == order.name.as_str() && bytes.as_slice() == order.bytes.as_slice()
        }
        _ => false,
    }
}

impl Guard {
    /// After a call that leaves the lock.
    fn alone(self) -> Guard
        ensures { result ≡ alone_of self }
    {
        match self {
            Guard::Open => Guard::Open,
            _ => Guard::Alone,
        }
    }

    /// After the part was read.
    fn seen(self) -> Guard
        ensures { result ≡ seen_of self }
    {
        match self {
            Guard::Open => Guard::Open,
            _ => Guard::Seen,
        }
    }

    /// After the open file was synced.
    fn synced(self) -> Guard
        ensures { result ≡ synced_of self }
    {
        match self {
            Guard::Seen => Guard::Whole,
            other => other.alone(),
        }
    }

    /// After the folder was synced.
    fn settled(self) -> Guard
        ensures { result ≡ settled_of self }
    {
        match self {
            Guard::Whole | Guard::Guarded => Guard::Guarded,
            other => other.alone(),
        }
    }

    /// After a call was told, which may have read the part.
    pub(crate) fn after(self, request: &Request, answer: &Answer, is_part: bool) -> Guard
        ensures { (whole : List ℕ) → result ≡ guard_after (call_asked whole request.now) answer.now is_part self }
    {
        match request {
            Request::Lock if answer.is_done() => Guard::Alone,
            Request::Lock | Request::LockShared | Request::Unlock => Guard::Open,
            Request::ReadFile { .. } if is_part => self.seen(),
            Request::Sync if answer.is_done() => self.synced(),
            Request::Settle if answer.is_done() => self.settled(),
            Request::Remove { .. } => self,
            _ => self.alone(),
        }
    }
}
