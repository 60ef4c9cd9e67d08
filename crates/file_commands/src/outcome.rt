//! What came of a command.

use file_protocol::Replaced;

/// What a command answers, and how it left the file.
#[derive(Clone, Copy, Debug)]
pub struct Outcome<X> {
    /// What the command answers.
    pub answer: X,
    /// How the file was left.
    pub left: Left,
}

/// How a command left a file.
#[derive(Clone, Copy, Debug, PartialEq, Eq, Drop)]
pub enum Left {
    /// It was replaced.
    Changed(Replaced),
    /// It is as it was, and on the disk: no loss of power brings an older file back.
    Kept,
    /// It is as it was, and it or its folder could not be synced: a loss of power may bring an older file back.
    KeptUnsynced,
}
