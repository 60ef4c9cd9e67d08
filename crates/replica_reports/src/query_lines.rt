//! Queries that are the lines of a text, answered as they come.
ghost use Rattle.std.specs.Prelude.{◌≡◌, ◌≢◌, ◌⊎◌, ◌&&◌, ◌==◌, ◌<◌, ◌≤◌, ◌∷◌, true, [], None, Option, List, ℕ, Ok, Err, length, position, MatchResult, MatchOption, IfSome, IfOk, IfErr, OnOk, OnErr};
ghost use Rattle.std.specs.Io.KnownBytes.{Appends, IsAtEnd};
ghost use Rattle.table_model.specs.Faults.{AppendsFront, CountsWrites, Failed};
ghost use Rattle.table_model.specs.declared.refusal.Refusal.TheVariants.{Memory, ReadFault, Syntax, WriteFault};
ghost use Rattle.std.specs.Str.{IsUtf8};
ghost use Rattle.std.specs.Str.Lossy.{utf8_valid_len};
ghost use Rattle.replica_reports.specs.Asking.{WritesText};
ghost use Rattle.replica_reports.specs.ReadAndWritten.{EndsFailed};
ghost use Rattle.replica_reports.specs.QueryLines.{CutAt, Fed, FedFront, Heard, HeardAll, HeardFront, HeardMore, EndsEarly, answer_in_bytes, grown, line_answer, still_told, told_of};
ghost use Rattle.replica_reports.specs.RefusedLines.{RefusedLine, HearsMore, HearsRefused, HearsSome, Hearing, HearsChunk, HearsChunkFront, HearingMore, HearingEnds, next_number, refused_line, refused_of};

use crate::answers::answer;
use crate::line_part::LinePart;
use crate::open_file::OpenFile;
use answer_formats::Format;
use csv_rows::LINE_LIMIT;
use std::alloc::Global;
use std::io::{Read, Write};
use std::str;
use table_model::{Counted, READ_CHUNK, READ_LIMIT, Refusal};

/// The most reads: each but the last reads at least a byte.
const ROUNDS: u64 = READ_LIMIT + 1;

/// What is reported while queries are read.
pub trait Listener {
    /// The refused lines of which it was told, the first one first, if it says so.
    ghost heard: { Self → Option (List RefusedLine) } = { λ _. None };

    /// More lines are to be read.
    fn wait(&mut self)
        ensures { heard self.new ≡ heard self.old };

    /// A line is refused and passed over: its number, from 1, its bytes, up to one past the limit of a line, and why.
    fn refused(&mut self, number: u64, line: &[u8], refusal: Refusal)
        ensures { HearsMore (heard self.old) (heard self.new) (refused_line number line.now refusal ∷ []) };
}

/// The place of the first line feed.
fn line_end(bytes: &[u8]) -> Option<usize>
    ensures { result ≡ position (λ byte. byte == 10) bytes.now }
{
    bytes.iter().position(|byte| *byte == b'\n')
}

/// What is before the first line feed and what is after it, if there is one.
fn cut_line(bytes: &[u8]) -> Option<(&[u8], &[u8])>
    ensures parts { MatchOption result (None ≡ position (λ byte. byte == 10) bytes.now) (λ parts. CutAt bytes.now parts.0.now parts.1.now) }
    ensures shorter { IfSome result (λ parts. length parts.1.now < length bytes.now) }
{
    match line_end(bytes) {
        None => None,
        Some(end) => Some((&bytes[..end], &bytes[end + 1..])),
    }
}

/// What came of a line: nothing if it was answered, or the refusal that is passed over; else the refusal that ends all.
fn unless_ended(outcome: Result<(), Refusal>) -> Result<Option<Refusal>, Refusal>
    ensures { MatchResult result (λ passed. MatchOption passed (outcome ≡ Ok tt) (λ e. (outcome ≡ Err e) × (e ≢ Memory) × (e ≢ WriteFault))) (λ e. (outcome ≡ Err e) × ((e ≡ Memory) ⊎ (e ≡ WriteFault))) }
{
    match outcome {
        Ok(()) => Ok(None),
        Err(Refusal::Memory) => Err(Refusal::Memory),
        Err(Refusal::WriteFault) => Err(Refusal::WriteFault),
        Err(refusal) => Ok(Some(refusal)),
    }
}

/// Bytes as a text; if they are none, `Syntax` at the first byte that belongs to no character.
fn text_of(bytes: &[u8]) -> Result<&str, Refusal>
    ensures text { IfOk result (λ text. (text.now ≡ bytes.now) × IsUtf8 bytes.now) }
    ensures fault { IfErr result (λ e. (IsUtf8 bytes.now → ⊥) × (e ≡ Syntax (utf8_valid_len bytes.now))) }
{
    match str::from_utf8(bytes) {
        Ok(text) => Ok(text),
        Err(fault) => Err(Refusal::Syntax(fault.valid_up_to() as u64)),
    }
}

/// A file that queries are asked of, and the format of the answers.
#[derive(Drop)]
struct Asked<'a> {
    alloc: Global,
    file: &'a OpenFile,
    format: Format,
}

impl<'a> Asked<'a> {
    /// Writes the answer of a query in bytes.
    fn answer_bytes<W: Write>(&self, bytes: &[u8], writer: &mut Counted<W>) -> Result<(), Refusal>
        ensures text { WritesText result (W.contents writer.old.0) (W.contents writer.new.0) writer.old.1 writer.new.1 (answer_in_bytes self.now.format self.now.file.now.replica bytes.now) }
    {
        match text_of(bytes) {
            Ok(sql) => answer(self.alloc, self.file, sql, self.format, writer),
            Err(refusal) => Err(refusal),
        }
    }

    /// Writes the answer of a line.
    #[tactic(auto, unfolding(crate::specs::QueryLines::line_answer))]
    fn answer_line<W: Write>(&self, line: &[u8], writer: &mut Counted<W>) -> Result<(), Refusal>
        ensures text { WritesText result (W.contents writer.old.0) (W.contents writer.new.0) writer.old.1 writer.new.1 (line_answer self.now.format self.now.file.now.replica line.now) }
    {
        if line.is_empty() {
            return Ok(());
        }
        if line.len() > LINE_LIMIT {
            return Err(Refusal::LineTooLong);
        }
        self.answer_bytes(line, writer)
    }
}

/// The lines that were read: the part of a line that was read last, how many lines were ended, and whether each of them was answered.
#[derive(Drop)]
struct QueryLines {
    line: LinePart,
    number: u64,
    is_whole: bool,
}

impl QueryLines {
    /// Before anything was read.
    fn new(alloc: Global) -> QueryLines
        ensures start { (result.line ≡ []) × (result.is_whole ≡ true) }
        ensures number { result.number ≡ 0 }
    {
        QueryLines {
            line: LinePart::new(alloc),
            number: 0,
            is_whole: true,
        }
    }

    /// Answers the line that was read; one that is refused is reported, and passed over.
    fn answer<W: Write, L: Listener>(
        &mut self,
        asked: &Asked<'_>,
        writer: &mut Counted<W>,
        listener: &mut L,
    ) -> Result<(), Refusal>
        ensures told { OnOk result (Appends (W.contents writer.old.0) (W.contents writer.new.0) (told_of (line_answer asked.now.format asked.now.file.now.replica self.old.line)).0) }
        ensures whole { OnOk result (self.new.is_whole ≡ (self.old.is_whole && (told_of (line_answer asked.now.format asked.now.file.now.replica self.old.line)).1)) }
        ensures line { self.new.line ≡ self.old.line }
        ensures number { OnOk result (self.new.number ≡ next_number self.old.number) }
        ensures refused { OnOk result (HearsMore (L.heard listener.old) (L.heard listener.new) (refused_of (next_number self.old.number) self.old.line (line_answer asked.now.format asked.now.file.now.replica self.old.line))) }
        ensures quiet { OnErr result (L.heard listener.new ≡ L.heard listener.old) }
        ensures front { OnErr result (AppendsFront (W.contents writer.old.0) (W.contents writer.new.0) (told_of (line_answer asked.now.format asked.now.file.now.replica self.old.line)).0) }
        ensures ended { IfErr result (λ e. (e ≡ Memory) ⊎ (e ≡ WriteFault)) }
        ensures kept { OnOk result (writer.new.1 ≡ writer.old.1) }
        ensures fault { IfErr result (λ e. CountsWrites e writer.old.1 writer.new.1) }
    {
        self.number = self.number.saturating_add(1);
        let line = self.line.as_slice();
        if let Some(refusal) = unless_ended(asked.answer_line(line, writer))? {
            listener.refused(self.number, line, refusal);
            self.is_whole = false;
        }
        Ok(())
    }

    /// Answers the line that the part that was read last and the piece make together.
    fn end_line<W: Write, L: Listener>(
        &mut self,
        asked: &Asked<'_>,
        piece: &[u8],
        writer: &mut Counted<W>,
        listener: &mut L,
    ) -> Result<(), Refusal>
        ensures told { OnOk result (Appends (W.contents writer.old.0) (W.contents writer.new.0) (told_of (line_answer asked.now.format asked.now.file.now.replica (grown self.old.line piece.now))).0) }
        ensures whole { OnOk result (self.new.is_whole ≡ (self.old.is_whole && (told_of (line_answer asked.now.format asked.now.file.now.replica (grown self.old.line piece.now))).1)) }
        ensures line { OnOk result (self.new.line ≡ []) }
        ensures number { OnOk result (self.new.number ≡ next_number self.old.number) }
        ensures refused { OnOk result (HearsMore (L.heard listener.old) (L.heard listener.new) (refused_of (next_number self.old.number) (grown self.old.line piece.now) (line_answer asked.now.format asked.now.file.now.replica (grown self.old.line piece.now)))) }
        ensures quiet { OnErr result (L.heard listener.new ≡ L.heard listener.old) }
        ensures front { OnErr result (AppendsFront (W.contents writer.old.0) (W.contents writer.new.0) (told_of (line_answer asked.now.format asked.now.file.now.replica (grown self.old.line piece.now))).0) }
        ensures ended { IfErr result (λ e. (e ≡ Memory) ⊎ (e ≡ WriteFault)) }
        ensures kept { OnOk result (writer.new.1 ≡ writer.old.1) }
        ensures fault { IfErr result (λ e. CountsWrites e writer.old.1 writer.new.1) }
    {
        self.line.grow(piece)?;
        self.answer(asked, writer, listener)?;
        self.line.clear();
        Ok(())
    }

    /// Answers each line that the chunk ends, and keeps what follows the last of them.
    fn feed<W: Write, L: Listener>(
        &mut self,
        asked: &Asked<'_>,
        chunk: &[u8],
        writer: &mut Counted<W>,
        listener: &mut L,
    ) -> Result<(), Refusal>
        ensures fed { OnOk result (Fed asked.now.format asked.now.file.now.replica (W.contents writer.old.0) (W.contents writer.new.0) self.old.is_whole self.new.is_whole self.old.line chunk.now self.new.line) }
        ensures front { OnErr result (FedFront asked.now.format asked.now.file.now.replica (W.contents writer.old.0) (W.contents writer.new.0) self.old.line chunk.now) }
        ensures refused { OnOk result (HearsChunk asked.now.format asked.now.file.now.replica (L.heard listener.old) (L.heard listener.new) self.old.number self.new.number self.old.line chunk.now self.new.line) }
        ensures fewer { OnErr result (HearsChunkFront asked.now.format asked.now.file.now.replica (L.heard listener.old) (L.heard listener.new) self.old.number self.old.line chunk.now) }
        ensures ended { IfErr result (λ e. (e ≡ Memory) ⊎ (e ≡ WriteFault)) }
        ensures kept { OnOk result (writer.new.1 ≡ writer.old.1) }
        ensures fault { IfErr result (λ e. CountsWrites e writer.old.1 writer.new.1) }
    {
        let mut left = chunk;
        while let Some((piece, after)) = cut_line(left) {
            self.end_line(asked, piece, writer, listener)?;
            left = after;
        }
        self.line.grow(left)?;
        Ok(())
    }
}

/// Reads once, and answers the lines that end in what came; answers how many bytes came, 0 at the end.
fn round<R: Read, W: Write, L: Listener>(
    asked: &Asked<'_>,
    reader: &mut Counted<R>,
    writer: &mut Counted<W>,
    listener: &mut L,
    lines: &mut QueryLines,
    buffer: &mut [u8],
) -> Result<usize, Refusal>
    requires { 0 < length buffer.old }
    ensures heard { IfOk result (λ n. HeardMore asked.now.format asked.now.file.now.replica (R.remaining reader.old.0) (R.remaining reader.new.0) (W.contents writer.old.0) (W.contents writer.new.0) lines.old.is_whole lines.new.is_whole lines.old.line lines.new.line n) }
    ensures bound { IfOk result (λ n. n ≤ length buffer.old) }
    ensures end { IfOk result (λ n. n ≡ 0 → IsAtEnd (R.remaining reader.new.0)) }
    ensures early { OnErr result (EndsEarly asked.now.format asked.now.file.now.replica (R.remaining reader.old.0) (W.contents writer.old.0) (W.contents writer.new.0) lines.old.is_whole lines.old.line) }
    ensures refused { OnOk result (HearingMore asked.now.format asked.now.file.now.replica (R.remaining reader.old.0) (R.remaining reader.new.0) (L.heard listener.old) (L.heard listener.new) lines.old.number lines.new.number lines.old.line lines.new.line) }
    ensures fewer { OnErr result (HearingEnds asked.now.format asked.now.file.now.replica (R.remaining reader.old.0) (L.heard listener.old) (L.heard listener.new) lines.old.number lines.old.line) }
    ensures kept { OnOk result ((reader.new.1 ≡ reader.old.1) × (writer.new.1 ≡ writer.old.1)) }
    ensures fault { IfErr result (λ e. Failed ⊥ e reader.old.1 reader.new.1 writer.old.1 writer.new.1) }
{
    listener.wait();
    let Ok(count) = reader.read(buffer) else {
        return Err(Refusal::ReadFault);
    };
    let (chunk, _) = buffer.split_at(count);
    lines.feed(asked, chunk, writer, listener)?;
    Ok(count)
}

/// Reads to the end of the input; what is left is a part of a line without a line feed.
fn rounds<R: Read, W: Write, L: Listener>(
    asked: &Asked<'_>,
    reader: &mut Counted<R>,
    writer: &mut Counted<W>,
    listener: &mut L,
    buffer: &mut [u8],
) -> Result<QueryLines, Refusal>
    requires some { 0 < length buffer.old }
    requires limit { length buffer.old ≤ 65536 }
    ensures heard { IfOk result (λ lines. (total : ℕ) × Heard asked.now.format asked.now.file.now.replica (R.remaining reader.old.0) (R.remaining reader.new.0) (W.contents writer.old.0) (W.contents writer.new.0) lines.is_whole lines.line total) }
    ensures early { OnErr result (HeardFront asked.now.format asked.now.file.now.replica (R.remaining reader.old.0) (W.contents writer.old.0) (W.contents writer.new.0)) }
    ensures refused { IfOk result (λ lines. Hearing asked.now.format asked.now.file.now.replica (R.remaining reader.old.0) (R.remaining reader.new.0) (L.heard listener.old) (L.heard listener.new) lines.number lines.line) }
    ensures fewer { OnErr result (HearsSome asked.now.format asked.now.file.now.replica (R.remaining reader.old.0) (L.heard listener.old) (L.heard listener.new)) }
    ensures ends { EndsFailed R.remaining reader.old reader.new writer.old writer.new result }
{
    let mut lines = QueryLines::new(asked.alloc);
    let mut total: u64 = 0;
    for _turn in 0..ROUNDS {
        let count = round(asked, reader, writer, listener, &mut lines, buffer)?;
        if count == 0 {
            return Ok(lines);
        }
        total += count as u64;
        if total > READ_LIMIT {
            return Err(Refusal::ReadFault);
        }
    }
    Err(Refusal::ReadFault)
}

/// Answers queries over a file that are the lines of a text, each as soon as it was read, and says whether all were answered. A line's
/// query is its bytes up to the line feed. One that is refused is reported, and passed over; empty lines are passed over too.
///
/// Refused are of a line `LineTooLong` if it has more than 1,048,576 bytes, `Syntax` at the first byte that belongs to no character, and
/// what [`answer`] refuses. `Memory`, a failed read (`ReadFault`, also if there are more than 2^48 bytes) and a failed write
/// (`WriteFault`) end the call; what was written is then a beginning of the answers.
pub fn answer_lines<R: Read, W: Write, L: Listener>(
    alloc: Global,
    file: &OpenFile,
    reader: &mut Counted<R>,
    format: Format,
    writer: &mut Counted<W>,
    listener: &mut L,
) -> Result<bool, Refusal>
    ensures heard { IfOk result (λ whole. HeardAll format file.now.replica (R.remaining reader.old.0) (W.contents writer.old.0) (W.contents writer.new.0) whole) }
    ensures front { OnErr result (HeardFront format file.now.replica (R.remaining reader.old.0) (W.contents writer.old.0) (W.contents writer.new.0)) }

    // Each line that is refused is told to the listener, and no other.
    ensures refused { OnOk result (HearsRefused format file.now.replica (R.remaining reader.old.0) (L.heard listener.old) (L.heard listener.new)) }
    ensures fewer { OnErr result (HearsSome format file.now.replica (R.remaining reader.old.0) (L.heard listener.old) (L.heard listener.new)) }
    ensures ends { EndsFailed R.remaining reader.old reader.new writer.old writer.new result }
{
    let asked = Asked {
        alloc,
        file,
        format,
    };
    let mut buffer = vec![in alloc; 0u8; READ_CHUNK]?;
    let mut lines = rounds(&asked, reader, writer, listener, buffer.as_mut_slice())?;
    lines.answer(&asked, writer, listener)?;
    Ok(lines.is_whole)
}
