//! A folder and two processes that use it.

use crate::calls::{Fate, link, list, lock_of, make, may_lock, read, rest, sync, write};
use crate::chance::Chance;
use crate::claims::{CLAIMS, bytes_of, holds, is_dead, join, name_of};
use crate::disk::Disk;
use crate::judged::Judged;
use crate::losses::is_safe;
use crate::process::{Lock, Process};
use crate::turning;
use crate::work::{Came, Purpose, Work};
use folder_turns::{Answer, Order, Request, Step, Task, Told, Turn, next};
use std::alloc::{AllocError, Global};
use std::io;

/// What a history has shown.
#[derive(Drop)]
pub struct Seen {
    pub calls: u64,
    pub kills: u64,
    pub losses: u64,
    pub stored: u64,
    pub removed: u64,
    pub read: u64,
    /// How many orders have had parts on the disk that were read.
    pub kept: u64,
    /// How many parts were put by the judgement of those that were seen.
    pub judged: u64,
}

impl Seen {
    /// Nothing yet.
    pub fn new() -> Seen {
        Seen {
            calls: 0,
            kills: 0,
            losses: 0,
            stored: 0,
            removed: 0,
            read: 0,
            kept: 0,
            judged: 0,
        }
    }
}

/// What must not be.
#[derive(Clone, Copy, Debug, PartialEq, Eq, Drop)]
pub enum Wrong {
    /// A loss of power may take a claim that was answered.
    MayBeLost(u8),
    /// A part was to be given its name, and a loss of power may take a claim on which it relies.
    NamedTooSoon(u8),
    /// A reading lacks a claim that was answered before it.
    Unread(u8),
    /// Two parts were put by judgement, and neither was seen by whoever put the other.
    Raced,
    /// The code did not make the calls that were told.
    Strayed,
}

/// A folder, two processes, and what was answered.
#[derive(Drop)]
pub struct World {
    alloc: Global,
    chance: Chance,
    disk: Disk,
    first: Process,
    second: Process,
    /// The claims that were once answered.
    answered: Vec<u8>,
    /// The parts that were put by judgement since power was lost last.
    judged: Vec<Judged>,
    drawn: u64,
    /// Once in so many steps the two processes change places.
    turns: usize,
    pub seen: Seen,
    pub wrong: Option<Wrong>,
    /// What happened, if it is to be told.
    pub tale: Option<Vec<String>>,
}

impl World {
    /// An empty folder, of which nothing was answered.
    pub fn new(alloc: Global, seed: u64, is_told: bool) -> World {
        let mut chance = Chance::new(seed);
        let turns = chance.below(16).saturating_add(2);
        World {
            alloc,
            chance,
            turns,
            disk: Disk::new(alloc),
            first: Process::new(alloc, 1),
            second: Process::new(alloc, 2),
            answered: Vec::new(alloc),
            judged: Vec::new(alloc),
            drawn: 0,
            seen: Seen::new(),
            wrong: None,
            tale: if is_told { Some(Vec::new(alloc)) } else { None },
        }
    }

    /// Tells what happened.
    fn tell(&mut self, line: String) -> Result<(), AllocError> {
        if let Some(tale) = &mut self.tale {
            tale.push(line)?;
        }
        Ok(())
    }

    /// Tells a call.
    fn tell_call(&mut self, request: &Request, answer: &Answer) -> Result<(), AllocError> {
        if self.tale.is_none() {
            return Ok(());
        }
        let number = self.first.number;
        self.tell(format!(in self.alloc; "{number} {request:?} {answer:?}")?)
    }

    /// Something happens. If it is to a process, that is the first: the two change places.
    pub fn happen(&mut self) -> io::Result<()> {
        if self.chance.once_in(self.turns) {
            std::mem::swap(&mut self.first, &mut self.second);
        }
        match self.chance.below(200) {
            0..=2 => self.kill()?,
            3..=4 => self.lose_power()?,
            5..=8 => self.bring()?,
            _ => self.step(true)?,
        }
        self.look();
        Ok(())
    }

    /// Looks whether each claim that was answered is held in every state that a loss of power may leave now.
    fn look(&mut self) {
        for claim in self.answered.iter() {
            if !is_dead(*claim) && !is_safe(&self.disk, *claim) {
                self.wrong = Some(Wrong::MayBeLost(*claim));
            }
        }
    }

    /// Looks, as a part is to be given its name that relies on others, whether each claim of these is held in every state that a loss of
    /// power may leave now.
    fn look_relied(&mut self) {
        let Some(turn) = &self.first.turn else {
            return;
        };
        if !matches!(turn.order.task, Task::KeepAndPut | Task::KeepAndPutJudged) {
            return;
        }
        for name in turn.order.relied.iter() {
            if let Some(claim) = lost_of(&self.disk, bytes_of(name.as_str())) {
                self.wrong = Some(Wrong::NamedTooSoon(claim));
            }
        }
    }

    /// What comes of a call of a process.
    fn fate(&mut self, may_fail: bool) -> Fate {
        if !may_fail || !self.chance.once_in(50) {
            Fate::Succeeds
        } else if self.chance.once_in(2) {
            Fate::FailsDone
        } else {
            Fate::FailsUndone
        }
    }

    /// What the process does next.
    fn asked(&mut self) -> Option<Step<io::Result<Came>>> {
        let step = match (&mut self.first.turn, &self.first.work) {
            (Some(turn), _) => turning::step(self.alloc, turn),
            (None, Some(work)) => next(self.alloc, work, work.bytes(), self.first.told.as_slice()),
            (None, None) => return None,
        };
        match step {
            Ok(step) => Some(step),
            Err(_) => {
                self.wrong = Some(Wrong::Strayed);
                None
            }
        }
    }

    /// The process goes one step.
    fn step(&mut self, may_fail: bool) -> io::Result<()> {
        if self.first.is_idle() {
            let work = self.chosen()?;
            self.first.begin(work);
        }
        match self.asked() {
            Some(step) => match step {
                Step::Asks(request) => self.call(request, may_fail),
                Step::Ends(outcome) => self.finish(outcome),
            },
            None => Ok(()),
        }
    }

    /// It makes a call, and is told what came of it. If it waits for a lock, the other process is next.
    fn call(&mut self, request: Request, may_fail: bool) -> io::Result<()> {
        let fate = self.fate(may_fail);
        match self.perform(&request, fate)? {
            Some(answer) => {
                self.seen.calls = self.seen.calls.saturating_add(1);
                self.tell_call(&request, &answer)?;
                self.told(request, answer)?;
            }
            None => {
                if lock_of(&request).is_some() {
                    std::mem::swap(&mut self.first, &mut self.second);
                }
            }
        }
        Ok(())
    }

    /// The process is told what came of its call.
    fn told(&mut self, request: Request, answer: Answer) -> Result<(), AllocError> {
        match &mut self.first.turn {
            Some(turn) => turning::tell(turn, request, answer),
            None => Ok(self.first.told.push(Told { request, answer })?),
        }
    }

    /// A call is made, and comes to this. None: it waits.
    fn perform(&mut self, request: &Request, fate: Fate) -> io::Result<Option<Answer>> {
        match request {
            Request::Make { name } => {
                let answer = make(
                    self.alloc,
                    &mut self.disk,
                    &mut self.first,
                    name.as_str(),
                    fate,
                )?;
                Ok(Some(answer))
            }
            Request::Write { from } => Ok(Some(self.write(*from, fate)?)),
            Request::Sync => Ok(Some(sync(&mut self.disk, &mut self.first, fate))),
            Request::Link { from, to } => {
                self.look_relied();
                Ok(Some(link(&mut self.disk, from.as_str(), to.as_str(), fate)?))
            }
            Request::Remove { name } => Ok(Some(self.remove(name.as_str(), fate)?)),
            Request::Settle => Ok(Some(settle(&mut self.disk, &mut self.first, fate))),
            Request::Lock | Request::LockShared => {
                Ok(lock(&mut self.first, self.second.lock, request, fate))
            }
            Request::ListNames => self.list(fate),
            Request::Unlock => {
                self.first.lock = None;
                Ok(Some(Answer::Done))
            }
            Request::ReadFile { name } => {
                let answer = read(self.alloc, &self.disk, &mut self.first, name.as_str(), fate)?;
                Ok(Some(answer))
            }
        }
    }

    /// Some of what is left of the bytes that the process puts are written.
    fn write(&mut self, from: usize, fate: Fate) -> io::Result<Answer> {
        let whole = match (&self.first.turn, &self.first.work) {
            (Some(turn), _) => turn.order.bytes.clone()?,
            (None, Some(work)) => Vec::from_slice(self.alloc, work.bytes())?,
            (None, None) => Vec::new(self.alloc),
        };
        let bytes = rest(whole.as_slice(), from);
        Ok(write(
            &mut self.disk,
            &mut self.first,
            bytes,
            fate,
            &mut self.chance,
        )?)
    }

    /// A listing begins, or ends.
    fn list(&mut self, fate: Fate) -> io::Result<Option<Answer>> {
        if self.first.listing.is_none() {
            self.first.known = self.answered.clone()?;
        }
        Ok(list(&self.disk, &mut self.first, fate, &mut self.chance)?)
    }

    /// A name is removed, from the listings that go on too.
    fn remove(&mut self, name: &str, fate: Fate) -> io::Result<Answer> {
        if fate.is_done() && self.disk.find(name).is_some() {
            self.disk.lead(name, None)?;
            self.first.lose(name);
            self.second.lose(name);
        }
        Ok(fate.answer())
    }

    /// The process has come to the end of its work.
    fn finish(&mut self, outcome: io::Result<Came>) -> io::Result<()> {
        let came = match outcome {
            Ok(came) => came,
            Err(_) => Came::Nothing,
        };
        if let Some(turn) = self.first.turn.take() {
            return self.followed(turn, came);
        }
        match self.first.work.take() {
            Some(work) => match came {
                Came::Found(parts) => self.have(work, parts),
                Came::Stored => self.stored(work),
                Came::Nothing => Ok(()),
            },
            None => Ok(()),
        }
    }

    /// It was answered that what this work puts is on the disk.
    fn stored(&mut self, work: Work) -> io::Result<()> {
        match work {
            Work::Put {
                name,
                bytes,
                joined,
                ..
            } => {
                self.answer(bytes.as_slice())?;
                if !joined.is_empty() {
                    self.first.begin(Work::Remove {
                        name,
                        bytes,
                        joined,
                    });
                }
                Ok(())
            }
            Work::Replace { bytes, .. } => {
                self.seen.removed = self.seen.removed.saturating_add(1);
                self.answer(bytes.as_slice())
            }
            Work::Remove { .. } => {
                self.seen.removed = self.seen.removed.saturating_add(1);
                Ok(())
            }
            Work::Read(_) => Ok(()),
        }
    }

    /// The process has come to the end of an order. If it succeeded, the parts on which it relies are on the disk, and so is the part that
    /// it puts.
    fn followed(&mut self, turn: Turn, came: Came) -> io::Result<()> {
        let Came::Stored = came else {
            return Ok(());
        };
        let Turn { order, .. } = turn;
        if order.task != Task::PutJudged {
            self.keep(order.relied.as_slice())?;
        }
        if order.task != Task::KeepAll {
            self.answer(order.bytes.as_slice())?;
        }
        match order.task {
            Task::PutJudged | Task::KeepAndPutJudged => self.judge(order),
            _ => Ok(()),
        }
    }

    /// The parts of these names were answered to be on the disk.
    fn keep(&mut self, names: &[String]) -> io::Result<()> {
        self.seen.kept = self.seen.kept.saturating_add(1);
        for name in names {
            self.claim(bytes_of(name.as_str()))?;
        }
        Ok(())
    }

    /// A part was put by judgement: it has to go with all others that were put so.
    fn judge(&mut self, order: Order) -> io::Result<()> {
        let Order { bytes, names, .. } = order;
        let judged = Judged { bytes, seen: names };
        if !self.judged.iter().all(|other| judged.goes_with(other)) {
            self.wrong = Some(Wrong::Raced);
        }
        self.seen.judged = self.seen.judged.saturating_add(1);
        Ok(self.judged.push(judged)?)
    }

    /// The part with these bytes was answered to be on the disk.
    fn answer(&mut self, bytes: &[u8]) -> io::Result<()> {
        self.seen.stored = self.seen.stored.saturating_add(1);
        self.claim(bytes)
    }

    /// The claims of these bytes were answered.
    fn claim(&mut self, bytes: &[u8]) -> io::Result<()> {
        for claim in bytes {
            if !self.answered.contains(claim) {
                self.answered.push(*claim)?;
            }
        }
        Ok(())
    }

    /// The process has read all parts.
    fn have(&mut self, work: Work, parts: Vec<Vec<u8>>) -> io::Result<()> {
        self.seen.read = self.seen.read.saturating_add(1);
        for claim in self.first.known.iter() {
            if !is_dead(*claim) && !is_in(parts.as_slice(), *claim) {
                self.wrong = Some(Wrong::Unread(*claim));
            }
        }
        match work {
            Work::Read(Purpose::Pack) => self.pack(parts, false),
            Work::Read(Purpose::Forget) => self.pack(parts, true),
            Work::Read(Purpose::Rely) => self.rely(parts),
            _ => Ok(()),
        }
    }

    /// The process begins to put a part in the place of all that it has read.
    fn pack(&mut self, parts: Vec<Vec<u8>>, forgets: bool) -> io::Result<()> {
        let bytes = join(self.alloc, parts.as_slice(), forgets)?;
        let name = name_of(self.alloc, bytes.as_slice())?;
        let mut joined = Vec::new(self.alloc);
        for part in parts.iter() {
            if part.as_slice() != bytes.as_slice() {
                joined.push(name_of(self.alloc, part.as_slice())?)?;
            }
        }
        if joined.is_empty() || bytes.is_empty() {
            return Ok(());
        }
        let temporary = self.temporary()?;
        let work = if self.chance.once_in(2) {
            Work::Replace {
                temporary,
                name,
                bytes,
                joined,
            }
        } else {
            Work::Put {
                temporary,
                name,
                bytes,
                joined,
            }
        };
        self.first.begin(work);
        Ok(())
    }

    /// The process begins to follow an order that is about all that it has read.
    fn rely(&mut self, parts: Vec<Vec<u8>>) -> io::Result<()> {
        let bytes = self.bytes()?;
        let task = match self.chance.below(4) {
            0 => Task::KeepAll,
            1 => Task::PutJudged,
            2 => Task::KeepAndPut,
            _ => Task::KeepAndPutJudged,
        };
        let order = Order {
            task,
            temporary: self.temporary()?,
            name: name_of(self.alloc, bytes.as_slice())?,
            bytes,
            names: names_of(self.alloc, parts.as_slice())?,
            relied: names_of(self.alloc, parts.as_slice())?,
        };
        self.first.follow(Turn::new(self.alloc, order));
        Ok(())
    }

    /// A name of a temporary that was never drawn.
    fn temporary(&mut self) -> io::Result<String> {
        self.drawn = self.drawn.saturating_add(1);
        let number = self.drawn;
        Ok(format!(in self.alloc; ".{number}")?)
    }

    /// The bytes of a new part.
    fn bytes(&mut self) -> io::Result<Vec<u8>> {
        let mut bytes = Vec::new(self.alloc);
        for claim in CLAIMS {
            if self.chance.once_in(4) {
                bytes.push(*claim)?;
            }
        }
        if bytes.is_empty() {
            bytes.push(b'a')?;
        }
        Ok(bytes)
    }

    /// What a process does that has nothing to do.
    fn chosen(&mut self) -> io::Result<Work> {
        Ok(match self.chance.below(9) {
            0 => Work::Read(Purpose::Have),
            1 | 2 => Work::Read(Purpose::Pack),
            3 | 4 => Work::Read(Purpose::Forget),
            5 | 6 => Work::Read(Purpose::Rely),
            _ => {
                let bytes = self.bytes()?;
                Work::Put {
                    temporary: self.temporary()?,
                    name: name_of(self.alloc, bytes.as_slice())?,
                    bytes,
                    joined: Vec::new(self.alloc),
                }
            }
        })
    }

    /// The process is killed, maybe in a call.
    fn kill(&mut self) -> io::Result<()> {
        self.seen.kills = self.seen.kills.saturating_add(1);
        let number = self.first.number;
        self.tell(format!(in self.alloc; "{number} killed")?)?;
        if self.chance.once_in(2) {
            self.begin_call()?;
        }
        self.first.end();
        Ok(())
    }

    /// The process makes its next call, of which it is told nothing.
    fn begin_call(&mut self) -> io::Result<()> {
        match self.asked() {
            Some(step) => match step {
                Step::Asks(request) => {
                    self.tell(format!(in self.alloc; "in {request:?}")?)?;
                    let _ = self.perform(&request, Fate::FailsDone)?;
                    Ok(())
                }
                Step::Ends(_) => Ok(()),
            },
            None => Ok(()),
        }
    }

    /// Power is lost.
    fn lose_power(&mut self) -> io::Result<()> {
        self.seen.losses = self.seen.losses.saturating_add(1);
        self.tell(format!(in self.alloc; "power lost")?)?;
        self.disk.lose_power(&mut self.chance)?;
        self.judged.clear();
        self.first.end();
        self.second.end();
        Ok(())
    }

    /// Somebody else brings a part, if nothing has its name.
    fn bring(&mut self) -> io::Result<()> {
        let bytes = self.bytes()?;
        let name = name_of(self.alloc, bytes.as_slice())?;
        if self.disk.find(name.as_str()).is_none() {
            let is_synced = self.chance.once_in(2);
            self.tell(format!(in self.alloc; "{name} comes, synced: {is_synced}")?)?;
            let file = self.disk.add(bytes, is_synced)?;
            self.disk.lead(name.as_str(), Some(file))?;
        }
        Ok(())
    }

    /// At the end all processes are gone, maybe for a loss of power, and one reads what is there.
    pub fn end(&mut self) -> io::Result<()> {
        if self.chance.once_in(2) {
            self.lose_power()?;
        }
        self.first.end();
        self.second.end();
        self.first.begin(Work::Read(Purpose::Have));
        for _ in 0..1_000 {
            if !self.first.is_idle() {
                self.step(false)?;
            }
        }
        self.look();
        Ok(())
    }
}

/// The names of parts with these bytes.
fn names_of(alloc: Global, parts: &[Vec<u8>]) -> Result<Vec<String>, AllocError> {
    let mut names = Vec::new(alloc);
    for part in parts {
        names.push(name_of(alloc, part.as_slice())?)?;
    }
    Ok(names)
}

/// A claim of these bytes that a loss of power may take.
fn lost_of(disk: &Disk, bytes: &[u8]) -> Option<u8> {
    for claim in bytes {
        if !is_dead(*claim) && !is_safe(disk, *claim) {
            return Some(*claim);
        }
    }
    None
}

/// Whether a part holds a claim.
fn is_in(parts: &[Vec<u8>], claim: u8) -> bool {
    parts.iter().any(|part| holds(part.as_slice(), claim))
}

/// The folder is synced, unless a sync of it by this process has failed before.
fn settle(disk: &mut Disk, process: &mut Process, fate: Fate) -> Answer {
    if fate != Fate::Succeeds || !process.settles {
        process.settles = false;
        return Answer::Failed;
    }
    disk.settle();
    Answer::Done
}

/// A lock is taken, if the other process has none against it. None: the process waits.
fn lock(
    process: &mut Process,
    other: Option<Lock>,
    request: &Request,
    fate: Fate,
) -> Option<Answer> {
    if fate != Fate::Succeeds {
        return Some(Answer::Failed);
    }
    match lock_of(request) {
        Some(wanted) if may_lock(wanted, other) => {
            process.lock = Some(wanted);
            Some(Answer::Done)
        }
        _ => None,
    }
}
