//! A process that uses the folder.

use crate::work::Work;
use folder_turns::{Told, Turn};
use std::alloc::Global;

/// How the folder is locked.
#[derive(Clone, Copy, Debug, PartialEq, Eq, Drop)]
pub enum Lock {
    Shared,
    Exclusive,
}

/// A listing that has begun.
#[derive(Drop)]
pub struct Listing {
    /// The names that were there, and were not removed since.
    pub names: Vec<String>,
    /// How many steps more it takes.
    pub left: usize,
}

/// A process: what it does, what it was told of its calls, and what it has of the folder.
#[derive(Drop)]
pub struct Process {
    pub number: u8,
    pub work: Option<Work>,
    /// The order that it follows, in place of a work.
    pub turn: Option<Turn>,
    pub told: Vec<Told>,
    /// The file that is open, by its number, and whether no write or sync of it has failed.
    pub open: Option<usize>,
    pub is_clean: bool,
    /// Whether no sync of the folder has failed since it began: after one it makes none, and counts each as failed.
    pub settles: bool,
    pub lock: Option<Lock>,
    pub listing: Option<Listing>,
    /// The claims that were answered before its last listing began.
    pub known: Vec<u8>,
}

impl Process {
    /// One that does nothing yet.
    pub fn new(alloc: Global, number: u8) -> Process {
        Process {
            number,
            work: None,
            turn: None,
            told: Vec::new(alloc),
            open: None,
            is_clean: false,
            settles: true,
            lock: None,
            listing: None,
            known: Vec::new(alloc),
        }
    }

    /// It begins a work.
    pub fn begin(&mut self, work: Work) {
        self.work = Some(work);
        self.told.clear();
    }

    /// It begins to follow an order.
    pub fn follow(&mut self, turn: Turn) {
        self.turn = Some(turn);
    }

    /// Whether it does nothing.
    pub fn is_idle(&self) -> bool {
        self.work.is_none() && self.turn.is_none()
    }

    /// A name was removed: a listing that goes on need not give it.
    pub fn lose(&mut self, name: &str) {
        if let Some(listing) = &mut self.listing {
            listing.names.retain(|other| other.as_str() != name);
        }
    }

    /// It ends, or is killed.
    pub fn end(&mut self) {
        self.work = None;
        self.turn = None;
        self.told.clear();
        self.open = None;
        self.is_clean = false;
        self.settles = true;
        self.lock = None;
        self.listing = None;
        self.known.clear();
    }
}
