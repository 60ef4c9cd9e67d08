//! Rounds over folders, which begin anew as long as a part goes meanwhile.

use crate::part_failures::Unread;
use patience::Patience;
use program_failures::Failure;
use std::rt::Clock;

/// Rounds over folders, one after another, until ten seconds are over.
#[derive(Drop)]
pub struct Rounds {
    patience: Patience,
    is_careful: bool,
}

impl Rounds {
    /// No round was begun yet.
    pub fn new<R: Clock>(rt: &R) -> Rounds {
        Rounds {
            patience: Patience::new(rt),
            is_careful: false,
        }
    }

    /// Whether it is asked of each name if it is that of a folder: one was, in a round before.
    pub fn is_careful(&self) -> bool {
        self.is_careful
    }

    /// Waits a moment after a round that came to nothing for this reason, and answers whether another one is begun: not once ten seconds
    /// are over. Parts that are refused are not read again.
    pub fn again<R: Clock>(&mut self, rt: &R, why: Unread) -> Result<bool, Failure> {
        match why {
            Unread::Refused(failure) => return Err(failure),
            Unread::Folder => self.is_careful = true,
            Unread::Gone => {}
        }
        Ok(self.patience.wait(rt))
    }
}
