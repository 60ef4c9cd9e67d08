//! The first bytes of an input, which tell what kind of file it is.

use refusal_sentences::KIND_BYTES;
use std::io::{self, Read};

/// The first bytes of an input, as many as its kind is told by.
#[derive(Clone, Copy, Debug)]
pub struct Beginning {
    bytes: [u8; KIND_BYTES],
    length: usize,
}

impl Beginning {
    /// That of an input of which nothing was read yet.
    pub fn new() -> Beginning {
        Beginning {
            bytes: [0; KIND_BYTES],
            length: 0,
        }
    }

    /// Adds the bytes that came next, as far as there is room.
    pub fn add(&mut self, bytes: &[u8]) {
        for byte in bytes.iter().take(KIND_BYTES) {
            if let Some(place) = self.bytes.get_mut(self.length) {
                *place = *byte;
                self.length = self.length.saturating_add(1);
            }
        }
    }

    /// The bytes.
    pub fn as_slice(&self) -> &[u8] {
        self.bytes.get(..self.length).unwrap_or(&[])
    }
}

/// A reader of an input, and what it began with.
#[derive(Drop)]
pub struct Begun<D> {
    inner: D,
    beginning: Beginning,
}

impl<D> Begun<D> {
    /// A reader from which nothing was read yet.
    pub fn new(inner: D) -> Begun<D> {
        Begun {
            inner,
            beginning: Beginning::new(),
        }
    }

    /// What it began with, as far as it was read.
    pub fn beginning(&self) -> &[u8] {
        self.beginning.as_slice()
    }
}

impl<D: Read> Read for Begun<D> {
    fn read(&mut self, buffer: &mut [u8]) -> io::Result<usize> {
        let count = self.inner.read(buffer)?;
        self.beginning.add(buffer.get(..count).unwrap_or(&[]));
        Ok(count)
    }
}
