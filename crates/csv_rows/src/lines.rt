//! The lines of a text, while it is read.
ghost use Rattle.std.specs.Prelude.{◌≡◌, ◌⊎◌, true, false, ◌==◌, nat_le, nat_lt, ◌+◌, ◌-◌, ◌≤◌, ◌<◌, [], ◌++◌, suc, length, take, drop, position, IfOk, IfErr, OnOk, OnErr};
ghost use Rattle.std.specs.Io.KnownBytes.{IsAtEnd, Consumes, Keeps};
ghost use Rattle.table_model.specs.Counted.{one_more};
ghost use Rattle.table_model.specs.Faults.{read_limit};
ghost use Rattle.csv_rows.specs.Line.{without_return, unmarked, line_limit};
ghost use Rattle.csv_rows.specs.LineReading.{Takes, Ends, Took, Grows, Finds, FirstTooLong, lines_after};
ghost use Rattle.csv_rows.specs.LinesForm.{no_lines};
ghost use Rattle.csv_rows.specs.Reading.{AsKnown, ReadCounts, ReadsOnward};

use crate::bytes::{after_mark, before_last};
use std::alloc::{AllocError, Global};
use std::io::Read;
use std::marker::Model;
use table_model::{Counted, READ_CHUNK, READ_LIMIT, Refusal};

/// The greatest number of bytes of a line, without its end.
pub const LINE_LIMIT: usize = 1_048_576;

/// How many bytes a byte order mark has.
const MARK: usize = 3;

/// How many times is read at most for a line: each time but the last a byte at least comes.
const TURNS: u64 = READ_LIMIT + 1;

/// What was added from some bytes to a part of a line.
#[derive(Clone, Copy)]
pub enum Taken {
    /// This many bytes, which end the line.
    Line(usize),
    /// All of them, and the line continues.
    Part,
    /// So much that the line is too long.
    TooLong,
}

/// What the next line of a text is.
#[derive(Clone, Copy)]
pub enum Found {
    /// A line, which is kept.
    Line,
    /// A line of more bytes than a line has.
    TooLong,
    /// There is no line.
    End,
}

/// The place of the first line feed.
fn line_end(bytes: &[u8]) -> Option<usize>
    ensures { result ≡ position (λ byte. byte == 10) bytes.now }
{
    bytes.iter().position(|byte| *byte == b'\n')
}

/// How many bytes can follow a part of a line: up to those of a line and its carriage return.
fn room_behind(part: &[u8]) -> usize
    ensures { result ≡ line_limit + 1 - length part.now }
{
    (LINE_LIMIT + 1).saturating_sub(part.len())
}

/// Whether a line has more bytes than a line may have.
fn is_too_long(line: &[u8]) -> bool
    ensures { result ≡ nat_lt line_limit (length line.now) }
{
    line.len() > LINE_LIMIT
}

/// Leaves out a carriage return at the end.
fn drop_return(line: &mut Vec<u8>)
    ensures { line.new.items ≡ without_return line.old.items }
{
    let Some(front) = before_last(line.as_slice(), b'\r') else {
        return;
    };
    let kept = front.len();
    line.truncate(kept);
}

/// Takes bytes onto a part of a line, up to the end of the line.
pub fn take_line(line: &mut Vec<u8>, bytes: &[u8]) -> Result<Taken, AllocError>
    ensures { IfOk result (λ taken. Takes taken line.old.items bytes.now line.new.items) }
{
    let room = room_behind(line.as_slice());
    match line_end(bytes) {
        None => {
            if bytes.len() > room {
                return Ok(Taken::TooLong);
            }
            line.extend_from_slice(bytes)?;
            Ok(Taken::Part)
        }
        Some(end) => {
            if end > room {
                return Ok(Taken::TooLong);
            }
            line.extend_from_slice(&bytes[..end])?;
            drop_return(line);
            if is_too_long(line.as_slice()) {
                return Ok(Taken::TooLong);
            }
            Ok(Taken::Line(end + 1))
        }
    }
}

/// The lines of a text that is being read: it keeps a line and a chunk of the text.
#[derive(Drop)]
pub struct Lines {
    buffer: Vec<u8>,
    from: usize,
    to: usize,
    line: Vec<u8>,
    has_end: bool,
    number: u64,
    given: u64,
}

impl Model for Lines {
    ghost use Rattle.std.specs.Prelude.{◌≡◌, ◌+◌, ◌-◌, ◌^◌, ◌≤◌, length, take, drop};
    ghost use Rattle.csv_rows.specs.LinesForm.{LinesForm};

    ghost Value = { LinesForm };

    ghost view = { λ l. record { at = l.from; pending = drop l.from (take l.to l.buffer.items); line = l.line.items; has_end = l.has_end; number = l.number; given = l.given; spare = l.given + l.from - (l.number + l.to) } };

    ghost invariant = { λ l. (l.from ≤ l.to) × (l.to ≤ length l.buffer.items) × (length l.buffer.items ≡ 65536) × (l.number + l.to ≤ l.given + l.from) × (l.given ≤ 2 ^ 48 + 65536) };
}

impl Lines {
    /// The lines of a text, before anything is read.
    pub fn new(alloc: Global) -> Result<Lines, AllocError>
        ensures { IfOk result (λ lines. lines ≡ no_lines) }
    {
        let buffer = vec![in alloc; 0u8; READ_CHUNK]?;
        Ok(Lines {
            buffer,
            from: 0,
            to: 0,
            line: Vec::new(alloc),
            has_end: true,
            number: 0,
            given: 0,
        })
    }

    /// The line that was read last, without its end.
    pub fn line(&self) -> &[u8]
        ensures { result.now ≡ self.now.line }
    {
        self.line.as_slice()
    }

    /// Whether the line that was read last has an end.
    pub fn has_end(&self) -> bool
        ensures { result ≡ self.now.has_end }
    {
        self.has_end
    }

    /// How many bytes came in all.
    pub fn given(&self) -> u64
        ensures { result ≡ self.now.given }
    {
        self.given
    }

    /// How many lines were read.
    pub fn number(&self) -> u64
        ensures { result ≡ self.now.number }
    {
        self.number
    }

    /// Passes over a byte order mark at the head of the text.
    pub fn skip_mark<R: Read>(&mut self, reader: &mut Counted<R>) -> Result<(), Refusal>
        requires at { self.old.at ≡ 0 }
        requires few { length self.old.pending < 3 }
        ensures text { OnOk result (AsKnown (λ bytes rest. unmarked (self.old.pending ++ bytes) ≡ self.new.pending ++ rest) (R.remaining reader.old.0) (R.remaining reader.new.0)) }
        ensures refused { OnErr result ((self.new.at ≡ 0) × (length self.new.pending < 3)) }
        ensures number { self.new.number ≡ self.old.number }
        ensures reads { ReadsOnward R.remaining ReadCounts self.old.given self.new.given reader.old reader.new result }
    {
        self.read_head(reader)?;
        self.drop_mark();
        Ok(())
    }

    /// Reads until three bytes came, or the end.
    fn read_head<R: Read>(&mut self, reader: &mut Counted<R>) -> Result<(), Refusal>
        requires at { self.old.at ≡ 0 }
        requires few { length self.old.pending < 3 }
        ensures text { OnOk result (AsKnown (λ bytes rest. self.old.pending ++ bytes ≡ self.new.pending ++ rest) (R.remaining reader.old.0) (R.remaining reader.new.0)) }
        ensures head { OnOk result ((3 ≤ length self.new.pending) ⊎ IsAtEnd (R.remaining reader.new.0)) }
        ensures at { self.new.at ≡ 0 }
        ensures refused { OnErr result (length self.new.pending < 3) }
        ensures number { self.new.number ≡ self.old.number }
        ensures reads { ReadsOnward R.remaining ReadCounts self.old.given self.new.given reader.old reader.new result }
    {
        for _turn in 0..MARK {
            let count = self.refill(reader)?;
            if count == 0 || self.has_head() {
                return Ok(());
            }
        }
        Ok(())
    }

    /// Whether as many bytes as a byte order mark has came and weren't taken yet.
    fn has_head(&self) -> bool
        ensures { result ≡ nat_le 3 (length self.now.pending) }
    {
        self.to - self.from >= MARK
    }

    /// Forgets the line that was read last.
    fn start_line(&mut self)
        ensures line { self.new.line ≡ [] }
        ensures at { self.new.at ≡ self.old.at }
        ensures pending { self.new.pending ≡ self.old.pending }
        ensures number { self.new.number ≡ self.old.number }
        ensures given { self.new.given ≡ self.old.given }
        ensures fewer { self.new.number ≤ self.new.given }
    {
        self.line.clear();
    }

    /// Passes over a byte order mark at the head of what came.
    fn drop_mark(&mut self)
        requires { self.old.at ≡ 0 }
        ensures pending { self.new.pending ≡ unmarked self.old.pending }
        ensures same { (self.new.number ≡ self.old.number) × (self.new.given ≡ self.old.given) }
    {
        let (front, _) = self.buffer.as_slice().split_at(self.to);
        let (_, pending) = front.split_at(self.from);
        if after_mark(pending).is_some() {
            self.from += MARK;
        }
    }

    /// Takes what came onto the line, up to the line's end.
    fn take(&mut self) -> Result<Taken, AllocError>
        ensures took { IfOk result (λ taken. Took taken self.old self.new) }
        ensures given { self.new.given ≡ self.old.given }
        ensures number { OnErr result (self.new.number ≡ self.old.number) }
        ensures fewer { self.new.number ≤ self.new.given }
    {
        let (front, _) = self.buffer.as_slice().split_at(self.to);
        let (_, pending) = front.split_at(self.from);
        let taken = take_line(&mut self.line, pending)?;
        match taken {
            Taken::Line(count) => {
                self.from += count;
                self.has_end = true;
                self.number += 1;
            }
            Taken::Part => {
                self.from = 0;
                self.to = 0;
            }
            Taken::TooLong => {}
        }
        Ok(taken)
    }

    /// Reads once, after the bytes that came and weren't taken yet, and answers how many bytes came; 0 is the end.
    fn refill<R: Read>(&mut self, reader: &mut Counted<R>) -> Result<usize, Refusal>
        requires { self.old.at + length self.old.pending < 65536 }
        ensures grows { IfOk result (λ count. Grows count self.old.pending self.new.pending (R.remaining reader.old.0) (R.remaining reader.new.0)) }
        ensures end { IfOk result (λ count. count ≡ 0 → IsAtEnd (R.remaining reader.new.0)) }
        ensures refused { OnErr result (self.new.pending ≡ self.old.pending) }
        ensures same { (self.new.at ≡ self.old.at) × (self.new.line ≡ self.old.line) × (self.new.number ≡ self.old.number) }
        ensures spare { OnOk result (self.new.spare ≡ self.old.spare) }
        ensures reads { ReadsOnward R.remaining ReadCounts self.old.given self.new.given reader.old reader.new result }
        ensures given { IfOk result (λ count. (self.new.given ≡ self.old.given + count) × (self.new.given ≤ read_limit)) }
        ensures fewer { self.new.number ≤ self.new.given }
    {
        if self.given > READ_LIMIT {
            return Err(Refusal::ReadFault);
        }
        let count = read_behind(reader, self.buffer.as_mut_slice(), self.to)?;
        self.given += count as u64;
        if self.given > READ_LIMIT {
            return Err(Refusal::ReadFault);
        }
        self.to += count;
        Ok(count)
    }

    /// The part of a line at the end of the text: it is the last line, unless it is empty.
    fn last_line(&mut self) -> Found
        requires { length self.old.line ≤ self.old.spare }
        ensures found { Ends result self.old self.new }
        ensures same { (self.new.pending ≡ self.old.pending) × (self.new.given ≡ self.old.given) }
        ensures fewer { self.new.number ≤ self.new.given }
    {
        if self.line.is_empty() {
            return Found::End;
        }
        if self.line.len() > LINE_LIMIT {
            return Found::TooLong;
        }
        self.has_end = false;
        self.number += 1;
        Found::Line
    }

    /// Reads the next line.
    pub fn advance<R: Read>(&mut self, reader: &mut Counted<R>) -> Result<Found, Refusal>
        ensures found { IfOk result (λ found. Finds found self.old self.new (R.remaining reader.old.0) (R.remaining reader.new.0)) }
        ensures number { OnErr result (self.new.number ≡ self.old.number) }
        ensures reads { ReadsOnward R.remaining ReadCounts self.old.given self.new.given reader.old reader.new result }
        ensures fewer { self.new.number ≤ self.new.given }
    {
        self.start_line();
        for _turn in 0..TURNS {
            match self.take()? {
                Taken::Line(_) => return Ok(Found::Line),
                Taken::TooLong => return Ok(Found::TooLong),
                Taken::Part => {}
            }
            if self.refill(reader)? == 0 {
                return Ok(self.last_line());
            }
        }
        Err(Refusal::ReadFault)
    }
}

/// Reads once into the buffer after its first bytes, as many as are given, and answers how many bytes came; 0 is the end.
fn read_behind<R: Read>(
    reader: &mut Counted<R>,
    buffer: &mut [u8],
    kept: usize,
) -> Result<usize, Refusal>
    requires { kept < length buffer.old }
    ensures front { take kept buffer.new ≡ take kept buffer.old }
    ensures len { length buffer.new ≡ length buffer.old }
    ensures bound { IfOk result (λ count. kept + count ≤ length buffer.old) }
    ensures bytes { IfOk result (λ count. Consumes (R.remaining reader.old.0) (R.remaining reader.new.0) (take count (drop kept buffer.new))) }
    ensures end { IfOk result (λ count. count ≡ 0 → IsAtEnd (R.remaining reader.new.0)) }
    ensures ok { OnOk result (reader.new.1 ≡ reader.old.1) }
    ensures err { IfErr result (λ e. (e ≡ Refusal.ReadFault) × (reader.new.1 ≡ one_more reader.old.1) × Keeps (R.remaining reader.old.0) (R.remaining reader.new.0)) }
{
    match reader.read(&mut buffer[kept..]) {
        Ok(count) => Ok(count),
        Err(_) => Err(Refusal::ReadFault),
    }
}
