//! A folder whose calls are answered by what was told.
ghost use Rattle.std.specs.Prelude.{◌≡◌, ◌⊎◌, ◌≤◌, ◌+◌, ◌∷◌, ◌++◌, List, Some, None, true, false, length, map, take, is_ok, IfOk, IfErr, IfSome, MatchOption, MatchResult, option_map, if◌then◌else◌, [], ◌<◌};
ghost use Rattle.std.specs.Coded.{Coded-set, coded_list};
ghost use Rattle.folder_turns.specs.Coding.{coded_call};
ghost use Rattle.folder_model.specs.Call.{can_settle};
ghost use Rattle.folder_turns.specs.Calls.{calls_after};
ghost use Rattle.folder_turns.specs.Run.{run_history, AsksFor, StopsFor};
ghost use Rattle.folder_turns.specs.Straying.{TurnsAway};
ghost use Rattle.folder_turns.specs.declared.replay.Fault.TheVariants.{Strayed};
ghost use Rattle.folder_turns.specs.declared.request.Request.{Request};

use crate::answering::{done, error_of, found, linked, listed, read, written};
use crate::request::{Answer, Request, Told};
use crate::script::Script;
use crate::settling::may_settle;
use crate::step::Step;
use crate::wanted::Wanted;
use folder_protocol::{Folder, Record};
use std::alloc::Global;
use std::io;
use std::marker::PhantomData;

/// The point past which a run does not go. Each call since has failed.
#[derive(Drop)]
pub struct Stop {
    pub why: Why,
    pub since: Record,
}

/// Why a run goes no further.
#[derive(Drop)]
pub enum Why {
    /// This call has no answer yet.
    Asks(Request),
    Fails(Fault),
}

/// Why it is not known what a run asks for next.
#[derive(Clone, Copy, Debug, PartialEq, Eq, Drop)]
pub enum Fault {
    /// It did not make the calls that were told.
    Strayed,
    OutOfMemory,
}

/// A folder that answers as it was told, and stops at the first call of which nothing was told.
#[derive(Drop)]
pub struct Replay<'a, S: Script> {
    alloc: Global,
    whole: &'a [u8],
    told: &'a [Told],
    at: usize,
    stop: Option<Stop>,
    script: PhantomData<S>,
    ghost whole_is: { whole.now ≡ S.whole },
    ghost settles: { can_settle S.before ≡ true },
    ghost told_is: { calls_after whole.now told.now S.before ≡ S.calls } by { Coded-set (coded_list coded_call) (calls_after whole.now told.now S.before) S.calls },
    // Only what comes after all that was told is asked for.
    ghost asks: { (request : Request) → AsksFor stop request → length told.now ≤ at },
    // It has strayed only at a call that isn't the one that was told, or that can't be asked for.
    ghost strays: { StopsFor stop Strayed → ∥ TurnsAway S.whole told.now S.before at (run_history S.whole told.now S.before at stop) ∥₁ },
}

impl<'a, S: Script> Replay<'a, S> {
    ghost use Rattle.folder_turns.specs.Calls.{call_asked, wanted_of, answered};
    ghost use Rattle.folder_turns.specs.Steps.{OnAsks, OnEnds};
    ghost use Rattle.folder_turns.specs.Straying.{EndsEarly, IfStrayed, IsNoRequest, IsOther};
    ghost use Rattle.folder_turns.specs.declared.request.Answer.TheVariants.{Failed};
    ghost use Rattle.folder_model.specs.Call.{Call};

    /// A run over these calls, of which it has made none again yet.
    pub fn new(alloc: Global, whole: &'a [u8], told: &'a [Told]) -> Replay<'a, S>
        requires whole { whole.now ≡ S.whole }
        requires told { calls_after whole.now told.now S.before ≡ S.calls }
        requires settles { can_settle S.before ≡ true }
        ensures { run_history S.whole result.told.now S.before result.at result.stop ≡ S.before }
    {
        Replay {
            alloc,
            whole,
            told,
            at: 0,
            stop: None,
            script: PhantomData,
        }
    }

    /// What was told of this call, if it comes next.
    fn find(&self, wanted: Wanted<'_>) -> Option<&'a Answer>
        ensures within { IfSome result (λ answer. self.now.at < length self.now.told.now) }
        ensures going { IfSome result (λ answer. self.now.stop ≡ None) }
        ensures next { IfSome result (λ answer. run_history S.whole self.now.told.now S.before (self.now.at + 1) None ≡ answered (wanted_of wanted.entry) answer.now ++ run_history S.whole self.now.told.now S.before self.now.at None) }
        // If it doesn't, another one was told, if any.
        ensures other { self.now.stop ≡ None → result ≡ None → self.now.at < length self.now.told.now → IsOther S.whole self.now.told.now S.before self.now.at (wanted_of wanted.entry) }
    {
        if self.stop.is_some() {
            return None;
        }
        match self.told.get(self.at) {
            Some(told) => {
                if wanted.is(&told.request, self.whole) {
                    Some(&told.answer)
                } else {
                    None
                }
            }
            None => None,
        }
    }

    /// Goes past the next call that was told.
    fn pass(&mut self)
        requires going { self.old.stop ≡ None }
        requires within { self.old.at < length self.old.told.now }
        ensures { run_history S.whole self.new.told.now S.before self.new.at self.new.stop ≡ run_history S.whole self.old.told.now S.before (self.old.at + 1) None }
    {
        self.at += 1;
    }

    /// The stop of a run that comes to this call.
    fn stop_at(&self, wanted: Wanted<'_>) -> Stop
        requires other { self.now.at < length self.now.told.now → IsOther S.whole self.now.told.now S.before self.now.at (wanted_of wanted) }
        ensures history { run_history S.whole self.now.told.now S.before self.now.at (Some result) ≡ answered (wanted_of wanted.entry) Failed ++ run_history S.whole self.now.told.now S.before self.now.at None }
        ensures asks { (request : Request) → result.why ≡ Why.Asks request → length self.now.told.now ≤ self.now.at }
        ensures strays { result.why ≡ Why.Fails Fault.Strayed → TurnsAway S.whole self.now.told.now S.before self.now.at (run_history S.whole self.now.told.now S.before self.now.at (Some result)) }
    {
        if self.at < self.told.len() {
            return Stop::failing(Fault::Strayed, wanted);
        }
        match wanted.asked(self.alloc, self.whole) {
            Ok(request) => Stop {
                why: Why::Asks(request),
                since: Record::new(),
            },
            Err(fault) => Stop::failing(fault, wanted),
        }
    }

    /// Stops at this call, or notes that it failed since.
    fn halt(&mut self, wanted: Wanted<'_>)
        requires other { self.old.stop ≡ None → self.old.at < length self.old.told.now → IsOther S.whole self.old.told.now S.before self.old.at (wanted_of wanted) }
        ensures { run_history S.whole self.new.told.now S.before self.new.at self.new.stop ≡ answered (wanted_of wanted.entry) Failed ++ run_history S.whole self.old.told.now S.before self.old.at self.old.stop }
    {
        match &mut self.stop {
            Some(stop) => wanted.note_failed(&mut stop.since),
            None => self.stop = Some(self.stop_at(wanted)),
        }
    }

    /// What was told of this call, if it comes next. If it does not, the run stops.
    fn follow(&mut self, wanted: Wanted<'_>) -> Option<&'a Answer>
        ensures { MatchOption result
            (run_history S.whole self.new.told.now S.before self.new.at self.new.stop ≡ answered (wanted_of wanted.entry) Failed ++ run_history S.whole self.old.told.now S.before self.old.at self.old.stop)
            (λ answer. run_history S.whole self.new.told.now S.before self.new.at self.new.stop ≡ answered (wanted_of wanted.entry) answer.now ++ run_history S.whole self.old.told.now S.before self.old.at self.old.stop) }
    {
        let answer = self.find(wanted);
        match answer {
            Some(_) => self.pass(),
            None => self.halt(wanted),
        }
        answer
    }

    /// Stops at this call, for which memory ran out.
    fn run_out(&mut self, wanted: Wanted<'_>)
        ensures { self.old.stop ≡ None → run_history S.whole self.new.told.now S.before self.new.at self.new.stop ≡ answered (wanted_of wanted.entry) Failed ++ run_history S.whole self.old.told.now S.before self.old.at self.old.stop }
    {
        self.stop = Some(Stop::failing(Fault::OutOfMemory, wanted));
    }

    /// What the run has come to, or what it asks for.
    pub fn into_step<T: Drop>(self, outcome: T) -> Result<Step<T>, Fault>
        ensures asks { IfOk result (λ step. OnAsks step (λ request. (since : List Call) × (run_history S.whole self.entry.told.now S.before self.entry.at self.entry.stop ≡ since ++ (answered (call_asked S.whole request) Failed ++ S.calls)))) }
        // It has strayed only if it ended before it had made all calls that were told, or has stopped at another one.
        ensures strays { IfStrayed result (EndsEarly S.whole self.entry.told.now S.before self.entry.at (run_history S.whole self.entry.told.now S.before self.entry.at self.entry.stop) ⊎ StopsFor self.entry.stop Fault.Strayed) }
        // Else it is not known what it asks for only if it has stopped for that reason.
        ensures fails { IfErr result (λ fault. (fault ≡ Fault.Strayed) ⊎ StopsFor self.entry.stop fault) }
        ensures ends { IfOk result (λ step. OnEnds step (λ end. (end ≡ outcome) × (run_history S.whole self.entry.told.now S.before self.entry.at self.entry.stop ≡ S.calls))) }
    {
        let Replay { told, at, stop, .. } = self;
        let Some(stop) = stop else {
            if at < told.len() {
                return Err(Fault::Strayed);
            }
            return Ok(Step::Ends(outcome));
        };
        let Stop { why, .. } = stop;
        match why {
            Why::Asks(request) => Ok(Step::Asks(request)),
            Why::Fails(fault) => Err(fault),
        }
    }
}

impl<'a, S: Script> Folder for Replay<'a, S> {
    ghost use Rattle.folder_turns.specs.Run.{run_history};

    ghost history = { λ f. run_history S.whole f.told.now S.before f.at f.stop };

    fn make(&mut self, name: &str) -> io::Result<()> {
        done(self.follow(Wanted::Make(name)))
    }

    fn write(&mut self, bytes: &[u8]) -> io::Result<usize> {
        written(self.follow(Wanted::Write(bytes)), bytes)
    }

    fn sync(&mut self) -> io::Result<()> {
        done(self.follow(Wanted::Sync))
    }

    fn link(&mut self, from: &str, to: &str) -> io::Result<bool> {
        linked(self.follow(Wanted::Link(from, to)))
    }

    fn remove(&mut self, name: &str) -> io::Result<()> {
        done(self.follow(Wanted::Remove(name)))
    }

    fn settle(&mut self) -> io::Result<()> {
        match self.find(Wanted::Settle) {
            Some(answer) => {
                if answer.is_done() && !may_settle(self.told, self.at) {
                    self.halt(Wanted::Settle);
                    return Err(error_of(None));
                }
                self.pass();
                done(Some(answer))
            }
            None => {
                self.halt(Wanted::Settle);
                Err(error_of(None))
            }
        }
    }

    fn lock(&mut self) -> io::Result<()> {
        done(self.follow(Wanted::Lock))
    }

    fn lock_shared(&mut self) -> io::Result<()> {
        done(self.follow(Wanted::LockShared))
    }

    fn list(&mut self, _alloc: Global) -> io::Result<Vec<String>> {
        let answer = match self.find(Wanted::ListNames) {
            Some(answer) => answer,
            None => {
                self.halt(Wanted::ListNames);
                return Err(error_of(None));
            }
        };
        match listed(answer) {
            Ok(Some(names)) => {
                self.pass();
                Ok(names)
            }
            Ok(None) => {
                self.pass();
                Err(error_of(Some(answer)))
            }
            Err(_) => {
                self.run_out(Wanted::ListNames);
                Err(error_of(None))
            }
        }
    }

    fn unlock(&mut self) {
        let _ = self.follow(Wanted::Unlock);
    }

    fn read(&mut self, alloc: Global, name: &str) -> io::Result<Option<Vec<u8>>> {
        let answer = match self.find(Wanted::ReadFile(name)) {
            Some(answer) => answer,
            None => {
                self.halt(Wanted::ReadFile(name));
                return Err(error_of(None));
            }
        };
        match read(alloc, answer) {
            Ok(Some(found)) => {
                self.pass();
                Ok(found)
            }
            Ok(None) => {
                self.pass();
                Err(error_of(Some(answer)))
            }
            Err(_) => {
                self.run_out(Wanted::ReadFile(name));
                Err(error_of(None))
            }
        }
    }

    /// The bytes are not copied.
    fn read_whole(&mut self, _alloc: Global, name: &str) -> io::Result<bool> {
        found(self.follow(Wanted::ReadFile(name)))
    }
}

impl Stop {
    ghost use Rattle.folder_turns.specs.Run.{stopped};
    ghost use Rattle.folder_turns.specs.Calls.{wanted_of, answered};
    ghost use Rattle.folder_turns.specs.declared.request.Answer.TheVariants.{Failed};
    ghost use Rattle.folder_protocol.specs.Note.{calls_of};

    /// At this call, which has failed.
    fn failing(fault: Fault, wanted: Wanted<'_>) -> Stop
        ensures why { result.why ≡ Why.Fails fault }
        ensures since { calls_of result.since.noted ≡ answered (wanted_of wanted.entry) Failed ++ [] }
    {
        let mut since = Record::new();
        wanted.note_failed(&mut since);
        Stop {
            why: Why::Fails(fault),
            since,
        }
    }
}
