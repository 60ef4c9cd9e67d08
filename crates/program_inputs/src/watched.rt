//! A reader or a writer that remembers why the system did not give or take bytes.

use std::io::{self, ErrorKind, Read, Write};
use table_model::Refusal;

/// Why a command ends: what is refused, and of a failed write the system's reason, if it is known.
#[derive(Clone, Copy, Debug)]
pub struct Cause {
    pub refusal: Refusal,
    pub reason: Option<ErrorKind>,
}

impl From<Refusal> for Cause {
    fn from(refusal: Refusal) -> Cause {
        Cause {
            refusal,
            reason: None,
        }
    }
}

/// A reader or a writer, with the kind of its last error.
#[derive(Drop)]
pub struct Watched<D: Drop> {
    inner: D,
    reason: Option<ErrorKind>,
}

impl<D: Drop> Watched<D> {
    /// A reader or a writer that has not failed yet.
    pub fn new(inner: D) -> Watched<D> {
        Watched {
            inner,
            reason: None,
        }
    }

    /// Why it failed last, if it did.
    pub fn reason(&self) -> Option<ErrorKind> {
        self.reason
    }

    /// An outcome of writing, with the reason of the last error.
    pub fn ended(self, outcome: Result<(), Refusal>) -> Result<(), Cause> {
        match outcome {
            Ok(()) => Ok(()),
            Err(refusal) => Err(Cause {
                refusal,
                reason: self.reason,
            }),
        }
    }
}

impl<D: Read + Drop> Read for Watched<D> {
    fn read(&mut self, buffer: &mut [u8]) -> io::Result<usize> {
        match self.inner.read(buffer) {
            Ok(count) => Ok(count),
            Err(error) => {
                self.reason = Some(error.kind());
                Err(error)
            }
        }
    }
}

impl<D: Write + Drop> Write for Watched<D> {
    fn write(&mut self, piece: &[u8]) -> io::Result<usize> {
        match self.inner.write(piece) {
            Ok(count) => Ok(count),
            Err(error) => {
                self.reason = Some(error.kind());
                Err(error)
            }
        }
    }

    fn flush(&mut self) -> io::Result<()> {
        match self.inner.flush() {
            Ok(()) => Ok(()),
            Err(error) => {
                self.reason = Some(error.kind());
                Err(error)
            }
        }
    }
}
