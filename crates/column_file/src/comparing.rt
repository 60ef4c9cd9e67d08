//! Comparing bytes with others while these are written, so that the others are kept nowhere.
ghost use Rattle.std.specs.Prelude.{◌≡◌, ◌<◌, [], length, OnErr, IfOk, IsOk, IsTrue, Some};
ghost use Rattle.std.specs.Io.{ReadsAtMost, WritesAtMost};
ghost use Rattle.std.specs.Io.KnownBytes.{Keeps, WriteAppends};
ghost use Rattle.column_file.specs.Comparing.{told, is_whole, has_differed, verdict};
ghost use Rattle.column_file.specs.Files.{first_difference};

use std::io;
use std::io::Write;
use std::marker::Model;
use table_model::Refusal;

/// The first place at which two texts differ, or the length of the shorter one if the other begins with it.
pub(crate) fn first_difference(a: &[u8], b: &[u8]) -> usize
    ensures { result ≡ first_difference a.now b.now }
{
    let shorter = a.len().min(b.len());
    for index in 0..shorter {
        if a[index] != b[index] {
            return index;
        }
    }
    shorter
}

/// A writer that takes the bytes that are expected, and the first byte that differs from them; from then on it answers an error.
/// Contracts see the expected bytes and what came, and both as its contents, so that a call which only writes can't change the
/// expected ones.
#[derive(Drop)]
pub(crate) struct Comparison<'a> {
    expected: &'a [u8],
    same: usize,
    other: Option<u8>,
}

impl<'a> Model for Comparison<'a> {
    ghost use Rattle.std.specs.Prelude.{ℕ, List};
    ghost use Rattle.column_file.specs.Comparing.{came, IsCompared};

    ghost Value = { List ℕ × List ℕ };

    ghost view = { λ c. (c.expected.now, came c.expected.now c.same c.other) };

    ghost invariant = { λ c. IsCompared c.expected.now c.same c.other };
}

impl<'a> Comparison<'a> {
    /// A comparison with these bytes, to which nothing came.
    pub(crate) fn new(expected: &'a [u8]) -> Self
        ensures { result ≡ (expected.now, []) }
    {
        Comparison {
            expected,
            same: 0,
            other: None,
        }
    }

    /// The first place at which what came differs from what was expected, or the length of the shorter one.
    pub(crate) fn place(&self) -> usize
        ensures { result ≡ first_difference self.now.0 self.now.1 }
    {
        self.same
    }

    /// Whether exactly what was expected came.
    pub(crate) fn is_whole(&self) -> bool
        ensures { result ≡ is_whole self.now }
    {
        if self.other.is_some() {
            return false;
        }
        self.same == self.expected.len()
    }

    /// Whether a byte came that wasn't expected.
    pub(crate) fn has_differed(&self) -> bool
        ensures { result ≡ has_differed self.now }
    {
        self.other.is_some()
    }

    /// What it says of a text that was written to it with this outcome: nothing if exactly what was expected came; otherwise
    /// `NotCanonical` with the first place that differs, or `Memory` if the writing ended before there was one.
    pub(crate) fn verdict(&self, outcome: Result<(), Refusal>) -> Result<(), Refusal>
        ensures { result ≡ verdict self.now outcome }
    {
        let other = Refusal::NotCanonical(self.place() as u64);
        match outcome {
            Ok(()) if self.is_whole() => Ok(()),
            Ok(()) => Err(other),
            Err(Refusal::WriteFault) if self.has_differed() => Err(other),
            Err(_) => Err(Refusal::Memory),
        }
    }
}

impl<'a> Write for Comparison<'a> {
    ghost contents = { λ c. Some (told c) };

    fn write(&mut self, piece: &[u8]) -> io::Result<usize>
        ensures bound { WritesAtMost result piece.now }
        ensures bytes { WriteAppends (Some (told self.old)) (Some (told self.new)) result piece.now }
        ensures fails { OnErr result (IsTrue (has_differed self.old)) }
        ensures takes { IfOk result (λ n. 0 < length piece.now → 0 < n) }
    {
        if self.other.is_some() {
            return Err(io::Error::from(io::ErrorKind::BrokenPipe));
        }
        let (_, next) = self.expected.split_at(self.same);
        let count = first_difference(next, piece);
        let (_, rest) = next.split_at(count);
        self.same = self.expected.len() - rest.len();
        if count < piece.len() {
            self.other = Some(piece[count]);
            return Ok(count + 1);
        }
        Ok(count)
    }

    fn flush(&mut self) -> io::Result<()>
        ensures bytes { Keeps (Some (told self.old)) (Some (told self.new)) }
        ensures done { IsOk result }
    {
        Ok(())
    }
}
