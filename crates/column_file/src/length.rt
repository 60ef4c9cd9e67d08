//! A writer that only counts.

use std::io::{self, Write};

/// A writer that counts the bytes that it takes, and keeps none.
#[derive(Drop)]
pub struct Length {
    bytes: u64,
}

impl Length {
    /// A writer that has taken no byte.
    pub fn new() -> Length {
        Length { bytes: 0 }
    }

    /// How many bytes it has taken. From 2^64 - 1 on it counts no more.
    pub fn bytes(&self) -> u64 {
        self.bytes
    }
}

impl Write for Length {
    ghost use Rattle.std.specs.Prelude.{None};

    ghost contents = { λ _. None };

    fn write(&mut self, piece: &[u8]) -> io::Result<usize> {
        self.bytes = self.bytes.saturating_add(piece.len() as u64);
        Ok(piece.len())
    }

    fn flush(&mut self) -> io::Result<()> {
        Ok(())
    }
}
