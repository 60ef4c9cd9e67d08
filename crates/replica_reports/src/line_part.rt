//! The part of a line that was read last.
ghost use Rattle.std.specs.Prelude.{◌≡◌, ◌≤◌, OnOk, [], List, ℕ, length};
ghost use Rattle.replica_reports.specs.QueryLines.{grown};

use csv_rows::LINE_LIMIT;
use std::alloc::{AllocError, Global};
use std::marker::Model;

/// What was read of a line so far: its bytes up to one past the limit. What follows them is dropped, since the line is too long in
/// any case.
#[derive(Drop)]
pub struct LinePart {
    bytes: Vec<u8>,
}

impl Model for LinePart {
    ghost use Rattle.std.specs.Prelude.{List, ℕ, length, ◌≤◌};

    ghost Value = { List ℕ };

    ghost view = { λ part. part.bytes.items };

    ghost invariant = { λ part. length part.bytes.items ≤ 1048577 };
}

impl LinePart {
    /// The part of a line of which nothing was read.
    pub fn new(alloc: Global) -> LinePart
        ensures { result ≡ [] }
    {
        LinePart {
            bytes: Vec::new(alloc),
        }
    }

    /// The bytes: at most 1,048,577.
    pub fn as_slice(&self) -> &[u8]
        ensures same { result.now ≡ self.now }
        ensures limit { length result.now ≤ 1048577 }
    {
        self.bytes.as_slice()
    }

    /// Adds more of the line.
    pub fn grow(&mut self, more: &[u8]) -> Result<(), AllocError>
        ensures { OnOk result (self.new ≡ grown self.old more.now) }
    {
        let room = (LINE_LIMIT + 1).saturating_sub(self.bytes.len());
        let kept = room.min(more.len());
        self.bytes.extend_from_slice(&more[..kept])
    }

    /// Forgets what was read.
    pub fn clear(&mut self)
        ensures { self.new ≡ [] }
    {
        self.bytes.clear();
    }
}
