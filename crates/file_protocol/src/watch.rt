//! What is told of a file while it is read whole.

use std::fs::File;
use std::io::{self, Read};

/// What is told of a file while it is read whole.
pub trait ReadWatch {
    /// So many bytes more came of the file of this name; none at its end.
    fn came(&self, name: &str, count: usize);
}

/// Nothing is told.
#[derive(Clone, Copy, Debug, Drop)]
pub struct Unwatched;

impl ReadWatch for Unwatched {
    fn came(&self, _name: &str, _count: usize) {}
}

/// A file, whose bytes are told of as they are read.
#[derive(Drop)]
pub struct WatchedFile<'n, 'w, W> {
    file: File,
    name: &'n str,
    watch: &'w W,
}

impl<'n, 'w, W: ReadWatch> WatchedFile<'n, 'w, W> {
    /// A file of this name, of which nothing was read.
    pub fn new(file: File, name: &'n str, watch: &'w W) -> WatchedFile<'n, 'w, W> {
        WatchedFile { file, name, watch }
    }
}

impl<'n, 'w, W: ReadWatch> Read for WatchedFile<'n, 'w, W> {
    fn read(&mut self, buffer: &mut [u8]) -> io::Result<usize> {
        let count = self.file.read(buffer)?;
        self.watch.came(self.name, count);
        Ok(count)
    }
}
