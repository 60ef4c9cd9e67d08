//! Readers and writers that stop, for trying what fails in mid-stream.
ghost use Rattle.std.specs.Prelude.{◌≡◌, ◌+◌, IsErr, IfOk, OnErr};
ghost use Rattle.std.specs.Io.{ReadsAtMost, WritesAtMost};
ghost use Rattle.std.specs.Io.KnownBytes.{Keeps, ReadConsumes, WriteAppends};

use std::io;
use std::io::{Read, Write};

/// A reader or a writer that passes on so many bytes, and then answers an error to every call.
#[derive(Drop)]
pub struct Stop<D> {
    /// The reader or writer that the bytes come from or go to.
    pub inner: D,
    /// How many bytes it still passes on.
    pub left: usize,
}

/// The error of a reader or a writer that stopped.
fn stopped() -> io::Error {
    io::Error::from(io::ErrorKind::BrokenPipe)
}

impl<D: Read> Read for Stop<D> {
    ghost remaining = { λ s. D.remaining s.inner };

    fn read(&mut self, buffer: &mut [u8]) -> io::Result<usize>
        ensures bound { ReadsAtMost result buffer.new }
        ensures bytes { ReadConsumes (D.remaining self.old.inner) (D.remaining self.new.inner) result buffer.new }
        ensures stops { self.old.left ≡ 0 → IsErr result }
        ensures passed { IfOk result (λ count. count + self.new.left ≡ self.old.left) }
        ensures kept { OnErr result (self.new.left ≡ self.old.left) }
    {
        if self.left == 0 {
            return Err(stopped());
        }
        let room = buffer.len().min(self.left);
        let count = self.inner.read(&mut buffer[..room])?;
        self.left -= count;
        Ok(count)
    }
}

impl<D: Write> Write for Stop<D> {
    ghost contents = { λ s. D.contents s.inner };

    fn write(&mut self, piece: &[u8]) -> io::Result<usize>
        ensures bound { WritesAtMost result piece.now }
        ensures bytes { WriteAppends (D.contents self.old.inner) (D.contents self.new.inner) result piece.now }
        ensures stops { self.old.left ≡ 0 → IsErr result }
        ensures passed { IfOk result (λ count. count + self.new.left ≡ self.old.left) }
        ensures kept { OnErr result (self.new.left ≡ self.old.left) }
    {
        if self.left == 0 {
            return Err(stopped());
        }
        let room = piece.len().min(self.left);
        let count = self.inner.write(&piece[..room])?;
        self.left -= count;
        Ok(count)
    }

    fn flush(&mut self) -> io::Result<()>
        ensures bytes { Keeps (D.contents self.old.inner) (D.contents self.new.inner) }
        ensures stops { self.old.left ≡ 0 → IsErr result }
        ensures kept { self.new.left ≡ self.old.left }
    {
        if self.left == 0 {
            return Err(stopped());
        }
        self.inner.flush()
    }
}
