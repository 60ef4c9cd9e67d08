//! Readers and writers that count their failures.
ghost use Rattle.std.specs.Prelude.{◌≡◌, OnOk, OnErr, IfErr};
ghost use Rattle.std.specs.Io.{ReadsAtMost, WritesAtMost};
ghost use Rattle.std.specs.Io.KnownBytes.{Appends, ReadConsumes, WriteAppends};
ghost use Rattle.table_model.specs.Counted.{after_read, after_write, one_more, write_fails};
ghost use Rattle.table_model.specs.Faults.{AppendsFront};

use crate::refusal::Refusal;
use std::io;
use std::io::{Read, Write};
use std::marker::Model;

/// The most bytes that one call reads: 2^48.
pub const READ_LIMIT: u64 = 1 << 48;

/// How many bytes one read asks for when any input is read through a buffer: 65,536.
pub const READ_CHUNK: usize = 65_536;

/// A reader or a writer, and how often it failed. Contracts see it as that pair.
///
/// A failure is a read or a write that answers an error, and a write that takes none of a piece that isn't empty.
#[derive(Drop)]
pub struct Counted<D> {
    inner: D,
    failures: u64,
}

impl<D> Model for Counted<D> {
    ghost use Rattle.std.specs.Prelude.{ℕ};

    ghost Value = { D × ℕ };

    ghost view = { λ c. (c.inner, c.failures) };
}

impl<D> Counted<D> {
    /// A reader or a writer with no failure yet.
    pub fn new(inner: D) -> Counted<D>
        ensures { result ≡ (inner, 0) }
    {
        Counted { inner, failures: 0 }
    }

    /// The reader or writer itself.
    pub fn into_inner(self) -> D
        ensures { result ≡ self.0 }
    {
        let Counted { inner, .. } = self;
        inner
    }

    /// How often it failed; at its greatest value the number stays.
    pub fn failures(&self) -> u64
        ensures { result ≡ self.now.1 }
    {
        self.failures
    }
}

impl<D: Read> Counted<D> {
    /// Reads once into the buffer, and answers how many bytes came; 0 is the end.
    pub fn read(&mut self, buffer: &mut [u8]) -> io::Result<usize>
        ensures bound { ReadsAtMost result buffer.new }
        ensures bytes { ReadConsumes (D.remaining self.old.0) (D.remaining self.new.0) result buffer.new }
        ensures failures { self.new.1 ≡ after_read result self.old.1 }
    {
        let outcome = self.inner.read(buffer);
        if outcome.is_err() {
            self.failures = self.failures.saturating_add(1);
        }
        outcome
    }
}

impl<D: Write> Counted<D> {
    /// Writes once from the piece, and answers how many bytes were taken.
    pub fn write(&mut self, piece: &[u8]) -> io::Result<usize>
        ensures bound { WritesAtMost result piece.now }
        ensures bytes { WriteAppends (D.contents self.old.0) (D.contents self.new.0) result piece.now }
        ensures failures { self.new.1 ≡ after_write result piece.now self.old.1 }
    {
        let outcome = self.inner.write(piece);
        if has_failed(&outcome, piece) {
            self.failures = self.failures.saturating_add(1);
        }
        outcome
    }

    /// Writes all bytes, in as many writes as it takes. If a write fails, `WriteFault`; what was written is then a front of
    /// the bytes.
    pub fn write_whole(&mut self, bytes: &[u8]) -> Result<(), Refusal>
        ensures ok { OnOk result (Appends (D.contents self.old.0) (D.contents self.new.0) bytes.now) }
        ensures front { OnErr result (AppendsFront (D.contents self.old.0) (D.contents self.new.0) bytes.now) }
        ensures kept { OnOk result (self.new.1 ≡ self.old.1) }
        ensures fault { IfErr result (λ e. (e ≡ Refusal.WriteFault) × (self.new.1 ≡ one_more self.old.1)) }
    {
        let mut rest = bytes;
        while !rest.is_empty() {
            let Ok(taken) = self.write(rest) else {
                return Err(Refusal::WriteFault);
            };
            if taken == 0 {
                return Err(Refusal::WriteFault);
            }
            let (_, left) = rest.split_at(taken);
            rest = left;
        }
        Ok(())
    }
}

/// Whether a write failed: an error, or none taken of a piece that isn't empty.
fn has_failed(outcome: &io::Result<usize>, piece: &[u8]) -> bool
    ensures { result ≡ write_fails outcome.now piece.now }
{
    match outcome {
        Ok(taken) => *taken == 0 && !piece.is_empty(),
        Err(_) => true,
    }
}
