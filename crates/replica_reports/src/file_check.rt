//! The line of a check.
ghost use Rattle.std.specs.Prelude.{◌≡◌, ◌≢◌, ◌++◌, OnOk, IfOk, IfErr, Ok, decimal};
ghost use Rattle.table_model.specs.declared.refusal.Refusal.TheVariants.{WriteFault};
ghost use Rattle.replica_reports.specs.Asking.{WritesText, checked_line, checked_text, counts_of, digest_ending};
ghost use Rattle.replica_reports.specs.Digests.{held_digest};

use crate::digest::held_digest;
use crate::open_file::OpenFile;
use itoa::Buffer;
use std::alloc::{AllocError, Global};
use std::io::Write;
use table_model::{Counted, Refusal};

/// Puts a number behind a text, in decimal.
fn push_number(out: &mut Vec<u8>, number: u64) -> Result<(), AllocError>
    ensures { OnOk result (out.new.items ≡ out.old.items ++ decimal number) }
{
    let mut buffer = Buffer::new();
    out.extend_from_slice(buffer.format(number).as_bytes())
}

/// The line of a number of batches and ranges with an ending: `ok batches=B ranges=R`, and what comes behind it.
fn checked_line(
    alloc: Global,
    batches: u64,
    ranges: u64,
    ending: &[u8],
) -> Result<Vec<u8>, AllocError>
    ensures { IfOk result (λ line. line.items ≡ checked_line (batches, ranges) ending.now) }
{
    let mut line = Vec::new(alloc);
    line.extend_from_slice(b"ok batches=")?;
    push_number(&mut line, batches)?;
    line.extend_from_slice(b" ranges=")?;
    push_number(&mut line, ranges)?;
    line.extend_from_slice(ending)?;
    Ok(line)
}

/// Writes how many batches and maximal ranges of deleted rows a file has, and what comes behind them.
fn write_line<W: Write>(
    alloc: Global,
    file: &OpenFile,
    ending: &[u8],
    writer: &mut Counted<W>,
) -> Result<(), Refusal>
    ensures text { WritesText result (W.contents writer.old.0) (W.contents writer.new.0) writer.old.1 writer.new.1 (Ok (checked_line (counts_of file.now.replica) ending.now)) }
    ensures unwritten { IfErr result (λ e. e ≢ WriteFault → writer.new ≡ writer.old) }
{
    let store = file.store();
    let batches = store.batches() as u64;
    let ranges = store.tombs().ranges().len() as u64;
    let line = checked_line(alloc, batches, ranges, ending)?;
    writer.write_whole(line.as_slice())
}

/// Writes how many batches and maximal ranges of deleted rows a file has: `ok batches=B ranges=R` and a line feed.
///
/// Refused are `Memory`, before anything is written, and `WriteFault`, after a front.
pub fn check<W: Write>(
    alloc: Global,
    file: &OpenFile,
    writer: &mut Counted<W>,
) -> Result<(), Refusal>
    ensures text { WritesText result (W.contents writer.old.0) (W.contents writer.new.0) writer.old.1 writer.new.1 (Ok (checked_text (counts_of file.now.replica))) }
    ensures unwritten { IfErr result (λ e. e ≢ WriteFault → writer.new ≡ writer.old) }
{
    write_line(alloc, file, b"\n", writer)
}

/// How a line ends that tells a digest: ` digest=`, the digest and a line feed.
fn digest_ending(alloc: Global, digest: &str) -> Result<Vec<u8>, AllocError>
    ensures { IfOk result (λ ending. ending.items ≡ digest_ending digest.now) }
{
    let mut ending = Vec::new(alloc);
    ending.extend_from_slice(b" digest=")?;
    ending.extend_from_slice(digest.as_bytes())?;
    ending.extend_from_slice(b"\n")?;
    Ok(ending)
}

/// Writes the line of a check with the digest of what the file holds: `ok batches=B ranges=R digest=HEX` and a line feed.
///
/// Refused are `Memory`, before anything is written, and `WriteFault`, after a front.
pub fn check_with_digest<W: Write>(
    alloc: Global,
    file: &OpenFile,
    writer: &mut Counted<W>,
) -> Result<(), Refusal>
    ensures text { WritesText result (W.contents writer.old.0) (W.contents writer.new.0) writer.old.1 writer.new.1 (Ok (checked_line (counts_of file.now.replica) (digest_ending (held_digest file.now.replica)))) }
    ensures unwritten { IfErr result (λ e. e ≢ WriteFault → writer.new ≡ writer.old) }
{
    let digest = held_digest(alloc, file.store())?;
    let ending = digest_ending(alloc, digest.as_str())?;
    write_line(alloc, file, ending.as_slice(), writer)
}
