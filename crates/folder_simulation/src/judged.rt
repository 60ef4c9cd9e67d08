//! Parts that were put by the judgement of those that were seen.

use crate::claims::{bytes_of, holds, is_dead};

/// A part that was put, and the names of the parts that were seen before.
#[derive(Drop)]
pub struct Judged {
    pub bytes: Vec<u8>,
    pub seen: Vec<String>,
}

/// Whether a part holds all claims of another one that are not dead.
fn covers(part: &[u8], other: &[u8]) -> bool {
    other
        .iter()
        .all(|claim| is_dead(*claim) || holds(part, *claim))
}

impl Judged {
    /// Whether a part was seen that covers another one.
    fn has_seen(&self, other: &[u8]) -> bool {
        self.seen
            .iter()
            .any(|name| covers(bytes_of(name.as_str()), other))
    }

    /// Whether of two parts that were put so one was seen by whoever put the other.
    pub fn goes_with(&self, other: &Judged) -> bool {
        self.has_seen(other.bytes.as_slice()) || other.has_seen(self.bytes.as_slice())
    }
}
