//! A command on a folder: it lists the folder, is told its parts one after another, decides, and follows the order that it decided on.
ghost use Rattle.std.specs.Prelude.{◌≡◌, ◌∷◌, ℕ, List, OnOk, IfOk, IfSome, MatchOption};
ghost use Rattle.folder_model.specs.Call.{Call};
ghost use Rattle.folder_turns.specs.Turns.{state_of};
ghost use Rattle.folder_drive.specs.Asks.{PhaseAsks, EndingSays, PutsOn, PutsKeeping, TellsOn, IsMade, EndMade, parts_with, parts_told};

use crate::brings::{Brings, Decided};
use crate::following::{Followed, follow, listing, reading};
use crate::phase::Phase;
use folder_turns::{Answer, End, Turn};
use std::alloc::{AllocError, Global};
use std::io;
use std::mem::replace;

/// Why a command goes no further.
#[derive(Clone, Copy, Debug, PartialEq, Eq)]
pub enum Fault {
    OutOfMemory,
    Strayed,
}

impl From<AllocError> for Fault {
    fn from(_lacking: AllocError) -> Fault {
        Fault::OutOfMemory
    }
}

impl From<folder_turns::Fault> for Fault {
    fn from(fault: folder_turns::Fault) -> Fault {
        match fault {
            folder_turns::Fault::OutOfMemory => Fault::OutOfMemory,
            folder_turns::Fault::Strayed => Fault::Strayed,
        }
    }
}

/// What a command comes to.
#[derive(Drop)]
pub enum Ending<M: Drop, R: Drop> {
    /// The order of this turn has ended so, and then it answers this.
    Followed(M, Turn, io::Result<End>),
    /// It is refused, or the part of this name is.
    Refused(Option<String>, R),
    /// A part is gone: it is begun anew.
    Gone,
    /// A call failed.
    Failed(Option<io::Error>),
}

/// A command on a folder: how far it is, what it has made of the parts that were told, and what it answers once its order has ended.
#[derive(Drop)]
pub struct Change<B: Brings> {
    pub phase: Phase,
    held: Option<B>,
    made: Option<B::Made>,
}

impl<B: Brings> Change<B> {
    /// A command that brings this. It asks for a listing first.
    pub fn begin(alloc: Global, brings: B) -> Result<Change<B>, Fault>
        ghost before: { List Call }
        ensures asks { IfOk result (λ change. PhaseAsks before change.phase) }
        ensures made { (parts : List (List ℕ)) → B.made_of brings parts → IfOk result (λ change. IsMade B.made_of B.answers change.phase change.held change.made parts) }
    {
        match follow(alloc, listing(alloc))? {
            Followed::Asks(turn) => Ok(Change {
                phase: Phase::Lists(turn),
                held: Some(brings),
                made: None,
            }),
            Followed::Ends(_, _) => Err(Fault::Strayed),
        }
    }

    /// Tells what came of the call that is asked for; and what the command has come to, if it is over.
    pub fn tell(
        &mut self,
        alloc: Global,
        answer: Answer,
    ) -> Result<Option<Ending<B::Made, B::Refusal>>, Fault>
        ghost before: { List Call }
        // If what it had was made of the parts that were told, what it has then is made of them and of the one that is told now.
        ensures made { (parts : List (List ℕ)) → IsMade B.made_of B.answers self.old.phase self.old.held self.old.made parts → OnOk result (IsMade B.made_of B.answers self.new.phase self.new.held self.new.made (parts_told self.old.phase answer parts)) }
        // And what it answers, and what it puts, is what was decided of exactly these parts.
        ensures answered { (parts : List (List ℕ)) → IsMade B.made_of B.answers self.old.phase self.old.held self.old.made parts → IfOk result (λ over. IfSome over (EndMade B.answers (parts_told self.old.phase answer parts))) }
        // The call that is asked for then is in turn after those told, whatever was told.
        ensures asks { OnOk result (PhaseAsks before self.new.phase) }
        // Nothing that was told of an order is forgotten.
        ensures told { OnOk result (TellsOn answer self.old.phase self.new.phase) }
        // What its order has come to says of the calls told what the order says: of one that puts, that each part on which it relies is kept or gone.
        ensures ends { IfOk result (λ over. IfSome over (EndingSays before)) }
    {
        match replace(&mut self.phase, Phase::Over) {
            Phase::Lists(turn) => self.list(alloc, turn, answer),
            Phase::Reads(_, names, at) => self.read(alloc, names, at, answer),
            Phase::Puts(turn) => self.put(alloc, turn, answer),
            Phase::Over => Err(Fault::Strayed),
        }
    }

    /// Goes on with a listing.
    fn list(
        &mut self,
        alloc: Global,
        turn: Turn,
        answer: Answer,
    ) -> Result<Option<Ending<B::Made, B::Refusal>>, Fault>
        ghost before: { List Call }
        ensures made { (parts : List (List ℕ)) → MatchOption self.old.held ⊥ (λ h. B.made_of h parts) → OnOk result (IsMade B.made_of B.answers self.new.phase self.new.held self.new.made parts) }
        ensures answered { (parts : List (List ℕ)) → MatchOption self.old.held ⊥ (λ h. B.made_of h parts) → IfOk result (λ over. IfSome over (EndMade B.answers parts)) }
        ensures asks { OnOk result (PhaseAsks before self.new.phase) }
        ensures ends { IfOk result (λ over. IfSome over (EndingSays before)) }
    {
        let mut turn = turn;
        turn.tell(answer)?;
        match follow(alloc, turn)? {
            Followed::Asks(turn) => {
                self.phase = Phase::Lists(turn);
                Ok(None)
            }
            Followed::Ends(_, end) => self.listed(alloc, end),
        }
    }

    /// Begins to read the parts that a listing gave.
    fn listed(
        &mut self,
        alloc: Global,
        end: io::Result<End>,
    ) -> Result<Option<Ending<B::Made, B::Refusal>>, Fault>
        ghost before: { List Call }
        ensures made { (parts : List (List ℕ)) → MatchOption self.old.held ⊥ (λ h. B.made_of h parts) → OnOk result (IsMade B.made_of B.answers self.new.phase self.new.held self.new.made parts) }
        ensures answered { (parts : List (List ℕ)) → MatchOption self.old.held ⊥ (λ h. B.made_of h parts) → IfOk result (λ over. IfSome over (EndMade B.answers parts)) }
        ensures asks { OnOk result (PhaseAsks before self.new.phase) }
        ensures ends { IfOk result (λ over. IfSome over (EndingSays before)) }
    {
        self.phase = Phase::Over;
        match end {
            Ok(End::Listed(names)) => self.go_on(alloc, names, 0),
            Ok(_) => Err(Fault::Strayed),
            Err(error) => Ok(Some(Ending::Failed(Some(error)))),
        }
    }

    /// Asks for the part of the next name, or decides after the last one.
    fn go_on(
        &mut self,
        alloc: Global,
        names: Vec<String>,
        at: usize,
    ) -> Result<Option<Ending<B::Made, B::Refusal>>, Fault>
        ghost before: { List Call }
        ensures made { (parts : List (List ℕ)) → MatchOption self.old.held ⊥ (λ h. B.made_of h parts) → OnOk result (IsMade B.made_of B.answers self.new.phase self.new.held self.new.made parts) }
        ensures answered { (parts : List (List ℕ)) → MatchOption self.old.held ⊥ (λ h. B.made_of h parts) → IfOk result (λ over. IfSome over (EndMade B.answers parts)) }
        ensures asks { OnOk result (PhaseAsks before self.new.phase) }
        ensures ends { IfOk result (λ over. IfSome over (EndingSays before)) }
    {
        match names.get(at) {
            Some(name) => {
                let request = reading(alloc, name.as_str())?;
                self.phase = Phase::Reads(request, names, at);
                Ok(None)
            }
            None => self.decide(alloc, names),
        }
    }

    /// Takes what a read found.
    fn read(
        &mut self,
        alloc: Global,
        names: Vec<String>,
        at: usize,
        answer: Answer,
    ) -> Result<Option<Ending<B::Made, B::Refusal>>, Fault>
        ghost before: { List Call }
        ensures made { (parts : List (List ℕ)) → MatchOption self.old.held ⊥ (λ h. B.made_of h parts) → OnOk result (IsMade B.made_of B.answers self.new.phase self.new.held self.new.made (parts_with answer parts)) }
        ensures answered { (parts : List (List ℕ)) → MatchOption self.old.held ⊥ (λ h. B.made_of h parts) → IfOk result (λ over. IfSome over (EndMade B.answers (parts_with answer parts))) }
        ensures asks { OnOk result (PhaseAsks before self.new.phase) }
        ensures ends { IfOk result (λ over. IfSome over (EndingSays before)) }
    {
        self.phase = Phase::Over;
        match answer {
            Answer::Found { bytes } => self.take(alloc, names, at, bytes.as_slice()),
            Answer::Missing => Ok(Some(Ending::Gone)),
            _ => Ok(Some(Ending::Failed(None))),
        }
    }

    /// Takes the part of the next name.
    fn take(
        &mut self,
        alloc: Global,
        names: Vec<String>,
        at: usize,
        bytes: &[u8],
    ) -> Result<Option<Ending<B::Made, B::Refusal>>, Fault>
        ghost before: { List Call }
        ensures made { (parts : List (List ℕ)) → MatchOption self.old.held ⊥ (λ h. B.made_of h parts) → OnOk result (IsMade B.made_of B.answers self.new.phase self.new.held self.new.made (bytes.now ∷ parts)) }
        ensures answered { (parts : List (List ℕ)) → MatchOption self.old.held ⊥ (λ h. B.made_of h parts) → IfOk result (λ over. IfSome over (EndMade B.answers (bytes.now ∷ parts))) }
        ensures asks { OnOk result (PhaseAsks before self.new.phase) }
        ensures ends { IfOk result (λ over. IfSome over (EndingSays before)) }
    {
        self.phase = Phase::Over;
        let Some(name) = names.get(at) else {
            return Err(Fault::Strayed);
        };
        let name = String::from_str(alloc, name.as_str())?;
        let Some(held) = self.held.take() else {
            return Err(Fault::Strayed);
        };
        match held.take(alloc, name.as_str(), bytes) {
            Ok(held) => {
                self.held = Some(held);
                self.go_on(alloc, names, at.saturating_add(1))
            }
            Err(refusal) => Ok(Some(Ending::Refused(Some(name), refusal))),
        }
    }

    /// Decides what is put, and begins to follow that order.
    fn decide(
        &mut self,
        alloc: Global,
        names: Vec<String>,
    ) -> Result<Option<Ending<B::Made, B::Refusal>>, Fault>
        ghost before: { List Call }
        ensures made { (parts : List (List ℕ)) → MatchOption self.old.held ⊥ (λ h. B.made_of h parts) → OnOk result (IsMade B.made_of B.answers self.new.phase self.new.held self.new.made parts) }
        ensures answered { (parts : List (List ℕ)) → MatchOption self.old.held ⊥ (λ h. B.made_of h parts) → IfOk result (λ over. IfSome over (EndMade B.answers parts)) }
        ensures asks { OnOk result (PhaseAsks before self.new.phase) }
        ensures ends { IfOk result (λ over. IfSome over (EndingSays before)) }
    {
        self.phase = Phase::Over;
        let Some(held) = self.held.take() else {
            return Err(Fault::Strayed);
        };
        match held.decide(alloc, names) {
            Ok(decided) => {
                let Decided { order, made } = decided;
                self.made = Some(made);
                self.follow_put(alloc, Turn::new(alloc, order))
            }
            Err(refusal) => Ok(Some(Ending::Refused(None, refusal))),
        }
    }

    /// Goes on with the order.
    fn put(
        &mut self,
        alloc: Global,
        turn: Turn,
        answer: Answer,
    ) -> Result<Option<Ending<B::Made, B::Refusal>>, Fault>
        ghost before: { List Call }
        ensures made { (parts : List (List ℕ)) → MatchOption self.old.made ⊥ (λ m. B.answers m (state_of turn).task (state_of turn).matter parts) → OnOk result (IsMade B.made_of B.answers self.new.phase self.new.held self.new.made parts) }
        ensures answered { (parts : List (List ℕ)) → MatchOption self.old.made ⊥ (λ m. B.answers m (state_of turn).task (state_of turn).matter parts) → IfOk result (λ over. IfSome over (EndMade B.answers parts)) }
        ensures asks { OnOk result (PhaseAsks before self.new.phase) }
        ensures ends { IfOk result (λ over. IfSome over (EndingSays before)) }
        // Nothing that was told is forgotten.
        ensures told { OnOk result (PutsOn answer turn self.new.phase) }
    {
        let mut turn = turn;
        turn.tell(answer)?;
        self.follow_put(alloc, turn)
    }

    /// Follows the order.
    fn follow_put(
        &mut self,
        alloc: Global,
        turn: Turn,
    ) -> Result<Option<Ending<B::Made, B::Refusal>>, Fault>
        ghost before: { List Call }
        ensures made { (parts : List (List ℕ)) → MatchOption self.old.made ⊥ (λ m. B.answers m (state_of turn).task (state_of turn).matter parts) → OnOk result (IsMade B.made_of B.answers self.new.phase self.new.held self.new.made parts) }
        ensures answered { (parts : List (List ℕ)) → MatchOption self.old.made ⊥ (λ m. B.answers m (state_of turn).task (state_of turn).matter parts) → IfOk result (λ over. IfSome over (EndMade B.answers parts)) }
        ensures asks { OnOk result (PhaseAsks before self.new.phase) }
        ensures ends { IfOk result (λ over. IfSome over (EndingSays before)) }
        ensures keeps { OnOk result (PutsKeeping turn self.new.phase) }
    {
        self.phase = Phase::Over;
        match follow(alloc, turn)? {
            Followed::Asks(turn) => {
                self.phase = Phase::Puts(turn);
                Ok(None)
            }
            Followed::Ends(turn, end) => match self.made.take() {
                Some(made) => Ok(Some(Ending::Followed(made, turn, end))),
                None => Err(Fault::Strayed),
            },
        }
    }
}
