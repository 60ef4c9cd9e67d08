//! Bytes that are given one after another, and the place at which each of them ends.
ghost use Rattle.std.specs.Prelude.{◌≡◌, ◌++◌, [], ◌∷◌, length, OnOk};

use std::alloc::{AllocError, Global};

/// Answers or files in one row of bytes, and the place at which each of them ends.
#[derive(Drop)]
pub struct Joined {
    pub bytes: Vec<u8>,
    pub ends: Vec<usize>,
}

impl Joined {
    /// No bytes.
    pub fn new(alloc: Global) -> Joined
        ensures bytes { result.bytes.items ≡ [] }
        ensures ends { result.ends.items ≡ [] }
    {
        Joined {
            bytes: Vec::new(alloc),
            ends: Vec::new(alloc),
        }
    }

    /// Adds the next ones.
    pub fn push(&mut self, bytes: &[u8]) -> Result<(), AllocError>
        ensures bytes { OnOk result (self.new.bytes.items ≡ self.old.bytes.items ++ bytes.now) }
        ensures ends { OnOk result (self.new.ends.items ≡ self.old.ends.items ++ length self.new.bytes.items ∷ []) }
    {
        self.bytes.extend_from_slice(bytes)?;
        self.ends.push(self.bytes.len())?;
        Ok(())
    }
}
