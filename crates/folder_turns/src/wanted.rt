//! A call that a run makes.
ghost use Rattle.std.specs.Prelude.{◌≡◌, ◌++◌, ℕ, List, None, true, false, drop, IfErr, IfOk, IfSome};
ghost use Rattle.std.specs.String.{string_bytes};
ghost use Rattle.folder_protocol.specs.Note.{calls_of};
ghost use Rattle.folder_turns.specs.Calls.{call_asked, wanted_of, answered, kind_of, first_of, second_of};
ghost use Rattle.folder_turns.specs.Straying.{IfStrayed, IsNoRequest};
ghost use Rattle.folder_turns.specs.declared.request.Answer.TheVariants.{Failed};

use crate::replay::Fault;
use crate::request::Request;
use folder_protocol::Record;
use std::alloc::Global;

/// A call that a run makes on its folder.
#[derive(Clone, Copy)]
pub enum Wanted<'b> {
    Make(&'b str),
    Write(&'b [u8]),
    Sync,
    Link(&'b str, &'b str),
    Remove(&'b str),
    Settle,
    Lock,
    LockShared,
    ListNames,
    Unlock,
    ReadFile(&'b str),
}

/// The offset at which some bytes begin that are the last of others.
fn beginning(whole: &[u8], bytes: &[u8]) -> Option<usize>
    ensures some { IfSome result (λ from. drop from whole.now ≡ bytes.now) }
    ensures none { result ≡ None → (from : ℕ) → drop from whole.now ≡ bytes.now → ⊥ }
{
    let from = whole.len().checked_sub(bytes.len())?;
    let (_, rest) = whole.split_at(from);
    if rest == bytes { Some(from) } else { None }
}

impl<'b> Wanted<'b> {
    /// Its number, which no other kind of call has.
    fn kind(self) -> u8
        ensures { result ≡ kind_of (wanted_of self.entry) }
    {
        match self {
            Wanted::Make(_) => 1,
            Wanted::Write(_) => 2,
            Wanted::Sync => 3,
            Wanted::Link(_, _) => 4,
            Wanted::Remove(_) => 5,
            Wanted::Settle => 6,
            Wanted::Lock => 7,
            Wanted::LockShared => 8,
            Wanted::ListNames => 9,
            Wanted::ReadFile(_) => 10,
            Wanted::Unlock => 11,
        }
    }

    /// Its first name, or its bytes.
    fn first(self) -> &'b [u8]
        ensures { result.now ≡ first_of (wanted_of self.entry) }
    {
        match self {
            Wanted::Make(name) => name.as_bytes(),
            Wanted::Write(bytes) => bytes,
            Wanted::Link(from, _) => from.as_bytes(),
            Wanted::Remove(name) => name.as_bytes(),
            Wanted::ReadFile(name) => name.as_bytes(),
            _ => &[],
        }
    }

    /// Its second name.
    fn second(self) -> &'b [u8]
        ensures { result.now ≡ second_of (wanted_of self.entry) }
    {
        match self {
            Wanted::Link(_, to) => to.as_bytes(),
            _ => &[],
        }
    }

    /// Whether `request` is this call. Its writes are places in `whole`.
    pub fn is(self, request: &Request, whole: &[u8]) -> bool
        ensures same { result ≡ true → call_asked whole.now request.now ≡ wanted_of self.entry }
        ensures other { result ≡ false → call_asked whole.now request.now ≡ wanted_of self.entry → ⊥ }
    {
        if self.kind() != request.kind() {
            return false;
        }
        if self.first() != request.first(whole) {
            return false;
        }
        self.second() == request.second()
    }

    /// The call as it is asked for, if these bytes are put.
    pub fn asked(self, alloc: Global, whole: &[u8]) -> Result<Request, Fault>
        ensures asked { IfOk result (λ request. call_asked whole.now request ≡ wanted_of self.entry) }
        // It strays if no call that can be asked for is this one.
        ensures strays { IfStrayed result (IsNoRequest whole.now (wanted_of self.entry)) }
    {
        Ok(match self {
            Wanted::Make(name) => Request::Make {
                name: owned(alloc, name)?,
            },
            Wanted::Write(bytes) => match beginning(whole, bytes) {
                Some(from) => Request::Write { from },
                None => return Err(Fault::Strayed),
            },
            Wanted::Sync => Request::Sync,
            Wanted::Link(from, to) => Request::Link {
                from: owned(alloc, from)?,
                to: owned(alloc, to)?,
            },
            Wanted::Remove(name) => Request::Remove {
                name: owned(alloc, name)?,
            },
            Wanted::Settle => Request::Settle,
            Wanted::Lock => Request::Lock,
            Wanted::LockShared => Request::LockShared,
            Wanted::ListNames => Request::ListNames,
            Wanted::Unlock => Request::Unlock,
            Wanted::ReadFile(name) => Request::ReadFile {
                name: owned(alloc, name)?,
            },
        })
    }

    /// Notes that it failed.
    pub fn note_failed(self, calls: &mut Record)
        ensures { calls_of calls.new.noted ≡ answered (wanted_of self.entry) Failed ++ calls_of calls.old.noted }
    {
        match self {
            Wanted::Make(name) => calls.made(name, false),
            Wanted::Write(bytes) => calls.wrote_not(bytes),
            Wanted::Sync => calls.synced(false),
            Wanted::Link(from, to) => calls.linked_not(from, to),
            Wanted::Remove(name) => calls.removed(name, false),
            Wanted::Settle => calls.settled(false),
            Wanted::Lock => calls.locked(false),
            Wanted::LockShared => calls.locked_shared(false),
            Wanted::ListNames => calls.listed_not(),
            Wanted::Unlock => calls.unlocked(),
            Wanted::ReadFile(name) => calls.unread(name),
        }
    }
}

/// A name of its own.
pub(crate) fn owned(alloc: Global, name: &str) -> Result<String, Fault>
    ensures text { IfOk result (λ text. string_bytes text ≡ name.now) }
    ensures lacks { IfErr result (λ fault. fault ≡ Fault.OutOfMemory) }
{
    match String::from_str(alloc, name) {
        Ok(text) => Ok(text),
        Err(_) => Err(Fault::OutOfMemory),
    }
}
