//! Scripts: lines are read, and each is answered.
ghost use Rattle.std.specs.Prelude.{◌≡◌, ◌<◌, ◌≤◌, length, ℕ, IfOk, IfErr, OnOk, OnErr};
ghost use Rattle.std.specs.Io.KnownBytes.{IsAtEnd};
ghost use Rattle.table_model.specs.Faults.{Failed};
ghost use Rattle.replica_reports.specs.ReadAndWritten.{IsReadAndWritten};
ghost use Rattle.lanes_main.specs.Script.{parts_in};
ghost use Rattle.lanes_main.specs.Told.{Sofar, IsStopped, EndsScript, GoesOn, EndsEarly, StaysTold};

use crate::session::Session;
use query_eval::HashKey;
use std::alloc::Global;
use std::io::{self, Read, Write};
use table_model::{Counted, READ_CHUNK, READ_LIMIT, Refusal};

/// The most reads: each round but the last reads at least a byte.
const ROUNDS: u64 = READ_LIMIT + 1;

/// Reads once, answers the lines that end in what came, and writes their replies; answers how many bytes came, 0 at the end.
fn round<R: Read, W: Write, N: Write>(
    alloc: Global,
    reader: &mut Counted<R>,
    writer: &mut Counted<W>,
    notes: &mut N,
    session: &mut Session,
    buffer: &mut [u8],
) -> Result<usize, Refusal>
    requires { 0 < length buffer.old }
    ensures told { IfOk result (λ n. GoesOn (R.remaining reader.old.0) (R.remaining reader.new.0) (W.contents writer.old.0) (W.contents writer.new.0)
        (parts_in session.old.cluster) session.old.line (parts_in session.new.cluster) session.new.line n) }
    ensures bound { IfOk result (λ n. n ≤ length buffer.old) }
    ensures end { IfOk result (λ n. n ≡ 0 → IsAtEnd (R.remaining reader.new.0)) }
    ensures early { OnErr result (EndsEarly (R.remaining reader.old.0) (W.contents writer.old.0) (W.contents writer.new.0) (parts_in session.old.cluster) session.old.line) }
    ensures reached { IfErr result (λ e. e ≡ Refusal.ReadFault → StaysTold (R.remaining reader.old.0) (R.remaining reader.new.0) (W.contents writer.old.0) (W.contents writer.new.0)
        (parts_in session.old.cluster) session.old.line) }
    ensures kept { OnOk result ((reader.new.1 ≡ reader.old.1) × (writer.new.1 ≡ writer.old.1)) }
    ensures fault { IfErr result (λ e. Failed ⊥ e reader.old.1 reader.new.1 writer.old.1 writer.new.1) }
{
    let Ok(count) = reader.read(buffer) else {
        return Err(Refusal::ReadFault);
    };
    let mut out = Vec::new(alloc);
    let (chunk, _) = buffer.split_at(count);
    session.feed(alloc, &mut out, chunk)?;
    writer.write_whole(out.as_slice())?;
    session.tell(notes);
    Ok(count)
}

/// Reads to the end of the input; what is left is a part of a line without a line feed.
fn rounds<R: Read, W: Write, N: Write>(
    alloc: Global,
    hash_key: HashKey,
    reader: &mut Counted<R>,
    writer: &mut Counted<W>,
    notes: &mut N,
    buffer: &mut [u8],
) -> Result<Session, Refusal>
    requires some { 0 < length buffer.old }
    requires limit { length buffer.old ≤ 65536 }
    ensures told { IfOk result (λ session. (total : ℕ) × Sofar (R.remaining reader.old.0) (R.remaining reader.new.0) (W.contents writer.old.0) (W.contents writer.new.0)
        (parts_in session.cluster) session.line total) }
    ensures whole { OnOk result (IsReadAndWritten R.remaining reader.old reader.new writer.old writer.new) }
    ensures stopped { IfErr result (IsStopped R.remaining W.contents reader.old reader.new writer.old writer.new) }
{
    let mut session = Session::new(alloc, hash_key);
    let mut total: u64 = 0;
    for _turn in 0..ROUNDS {
        let count = round(alloc, reader, writer, notes, &mut session, buffer)?;
        if count == 0 {
            return Ok(session);
        }
        total += count as u64;
        if total > READ_LIMIT {
            return Err(Refusal::ReadFault);
        }
    }
    Err(Refusal::ReadFault)
}

/// Reads a script to its end, and writes the reply to each line that isn't empty. Its queries go by the fixed key of hashes.
///
/// `Memory`, `ReadFault` and `WriteFault` end it with that refusal. After `ReadFault` the replies to all lines that were read
/// whole are written; after each of the three, what was written is a beginning of the script's text. `ReadFault` is answered only if
/// the reader's count of failures rose or it gave more than 2^48 bytes, and `WriteFault` only if the writer's count rose. It is
/// written to hold at most one line of its input and a buffer of 65,536 bytes; no clause says so.
pub fn script<R: Read, W: Write>(
    alloc: Global,
    reader: &mut Counted<R>,
    writer: &mut Counted<W>,
) -> Result<(), Refusal>
    ensures { EndsScript R.remaining W.contents reader.old reader.new writer.old writer.new result }
{
    let hash_key = HashKey::fixed();
    script_with_notes(alloc, hash_key, reader, writer, &mut io::sink())
}

/// As [`script`], but its queries find groups by hashes of this key, and in addition a note on each refused line is written to a third
/// writer: the line's number, counted from 1, its reply, and what that means, or for `BadLine` what was expected there. What that
/// writer doesn't take is dropped.
pub fn script_with_notes<R: Read, W: Write, N: Write>(
    alloc: Global,
    hash_key: HashKey,
    reader: &mut Counted<R>,
    writer: &mut Counted<W>,
    notes: &mut N,
) -> Result<(), Refusal>
    ensures { EndsScript R.remaining W.contents reader.old reader.new writer.old writer.new result }
{
    let mut buffer = vec![in alloc; 0u8; READ_CHUNK]?;
    let mut session = rounds(
        alloc,
        hash_key,
        reader,
        writer,
        notes,
        buffer.as_mut_slice(),
    )?;
    let mut last = Vec::new(alloc);
    session.finish(alloc, &mut last)?;
    writer.write_whole(last.as_slice())?;
    session.tell(notes);
    Ok(())
}
