//! How far a command is.

use folder_turns::{Request, Turn};

/// How far a command is.
#[derive(Drop)]
pub enum Phase {
    /// The folder is listed.
    Lists(Turn),
    /// The parts of these names are read, one after another: the next call, and at which of them it is.
    Reads(Request, Vec<String>, usize),
    /// An order is followed that puts a part, or keeps those that are there.
    Puts(Turn),
    Over,
}

impl Phase {
    /// The call that is asked for. None once it is over.
    pub fn asked(&self) -> Option<&Request> {
        match self {
            Phase::Lists(turn) | Phase::Puts(turn) => turn.asked.as_ref(),
            Phase::Reads(request, _, _) => Some(request),
            Phase::Over => None,
        }
    }
}
