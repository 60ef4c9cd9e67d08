//! A reader whose first bytes are looked at before it is read.

use crate::front::read_front;
use refusal_sentences::KIND_BYTES;
use std::io::{self, Read};

/// A reader whose first bytes were looked at. They come again, and then what follows.
#[derive(Drop)]
pub struct Peeked<D> {
    inner: D,
    front: [u8; KIND_BYTES],
    length: usize,
    given: usize,
    fault: Option<io::Error>,
}

impl<D: Read + Drop> Peeked<D> {
    /// A reader, from which nothing was read yet. If it fails, that comes again when it is read.
    pub fn new(mut inner: D) -> Peeked<D> {
        let mut front = [0; KIND_BYTES];
        let came = read_front(&mut inner, &mut front);
        Peeked {
            inner,
            front,
            length: came.length.min(KIND_BYTES),
            given: 0,
            fault: came.fault,
        }
    }

    /// The first bytes, as many as tell what kind of file it is.
    pub fn front(&self) -> &[u8] {
        self.front.get(..self.length).unwrap_or(&[])
    }
}

impl<D: Read + Drop> Read for Peeked<D> {
    fn read(&mut self, buffer: &mut [u8]) -> io::Result<usize> {
        let left = self.front.get(self.given..self.length).unwrap_or(&[]);
        let count = left.len().min(buffer.len());
        if count > 0 {
            let (before, _) = buffer.split_at_mut(count);
            before.copy_from_slice(&left[..count]);
            self.given = self.given.saturating_add(count);
            return Ok(count);
        }
        match self.fault.take() {
            Some(error) => Err(error),
            None => self.inner.read(buffer),
        }
    }
}
