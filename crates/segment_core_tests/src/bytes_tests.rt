//! A batch's columns in bytes, at bytes and places worked out by hand from the format.
ghost use Rattle.std.specs.Prelude.{◌≤◌, length};

use crate::tests::{Pattern, first, rows_of, segment_of};
use segment_core::{Coded, Segment};
use std::alloc::{AllocError, Global};
use std::process::Abort;
use std::test::Fail;
use table_model::{ColType, Counted, Refusal, Schema};
use test_support::{Stop, agree};

/// The schema of one SMALLINT column.
fn one_column(alloc: Global) -> Result<Schema, Refusal> {
    Schema::new(alloc, "T", &[("A", ColType::SmallInt)])
}

/// Adds so many of one byte.
fn add_repeated(bytes: &mut Vec<u8>, count: usize, byte: u8) -> Result<(), AllocError> {
    for _ in 0..count {
        bytes.push(byte)?;
    }
    Ok(())
}

/// Adds a front, then so many bytes that are 0, then what is left.
fn add(bytes: &mut Vec<u8>, front: &[u8], zeros: usize, back: &[u8]) -> Result<(), AllocError> {
    bytes.extend_from_slice(front)?;
    add_repeated(bytes, zeros, 0)?;
    bytes.extend_from_slice(back)
}

/// So many of each byte, one after another.
fn repeated(alloc: Global, parts: &[(usize, u8)]) -> Result<Vec<u8>, AllocError> {
    let mut bytes = Vec::new(alloc);
    for (count, byte) in parts {
        add_repeated(&mut bytes, *count, *byte)?;
    }
    Ok(bytes)
}

/// The bytes of the segment of 1024 rows in one SMALLINT column.
fn bytes_of(alloc: Global, pattern: Pattern) -> Result<Vec<u8>, Refusal> {
    let rows = rows_of(alloc, 1024, pattern)?;
    let segment = segment_of(alloc, ColType::SmallInt, &rows)?;
    let mut writer = Counted::new(Vec::new(alloc));
    segment.write_bytes(&mut writer)?;
    Ok(writer.into_inner())
}

/// One row of one SMALLINT column that stands in such bytes from a place on, and the place after it.
fn one_row(alloc: Global, bytes: &[u8], at: usize) -> Result<(Segment, usize), Refusal>
    requires { at ≤ length bytes.now }
{
    let schema = one_column(alloc)?;
    Segment::read_bytes(alloc, &schema, 1, bytes, at)
}

/// A row of 7 in FOR.
fn check_seven(rt: &impl Abort, segment: &Segment) -> Result<(), Fail> {
    let vector = first(rt, segment);
    agree((vector.rows(), vector.nulls().is_none()), (1, true))?;
    match vector.coded() {
        Coded::For(form) => agree(form.get().value(0), 7)?,
        _ => assert!(rt; false, "the tag is FOR's"),
    }
    Ok(())
}

// Flag 0, tag 0, width 0, count 0, reference 7.
#[test]
fn one_row_of_seven_takes_seven_bytes(rt: HostRuntime) -> Result<(), Fail> {
    let bytes = [9, 9, 0, 0, 0, 0, 0, 7, 0, 5];
    let (segment, next) = one_row(rt.alloc(), &bytes, 2)?;
    agree((segment.rows(), segment.columns(), next), (1, 1, 9))?;
    check_seven(&rt, &segment)?;
    let copy = segment.copy(rt.alloc())?;
    let rows = rows_of(rt.alloc(), 1, Pattern::All(7))?;
    assert!(rt; copy.same_rows(&segment) && copy.has_rows(&rows));
    Ok(())
}

// Null flag, tag, width and count, then the payload. Row 500 is bit 4 of byte 62 of the start mask. Sixteen rows side by side
// are a lane, so that codes 0, 1, 0, 1, .. of one bit fill words of AAAA. DELTA has a least delta of 1 and then for each lane its
// first value less 1: lane 0 begins at row 0, and lane 1 at row 64.
const CANONICAL: [(Pattern, &[(usize, u8)]); 3] = [
    (Pattern::All(7), &[(5, 0), (1, 7), (1, 0)]),
    (
        Pattern::ChangedAt(500, 0, 32767),
        &[
            (1, 0),
            (1, 2),
            (1, 1),
            (1, 2),
            (63, 0),
            (1, 16),
            (67, 0),
            (1, 255),
            (1, 127),
        ],
    ),
    (
        Pattern::Alternating(0, 32767),
        &[
            (1, 0),
            (1, 3),
            (1, 1),
            (1, 2),
            (3, 0),
            (1, 255),
            (1, 127),
            (128, 170),
        ],
    ),
];

#[test]
fn canonical_vectors_have_these_bytes(rt: HostRuntime) -> Result<(), Fail> {
    let alloc = rt.alloc();
    for &(pattern, parts) in &CANONICAL {
        agree(bytes_of(alloc, pattern)?, repeated(alloc, parts)?)?;
    }
    let deltas = bytes_of(alloc, Pattern::Counting)?;
    agree(deltas.len(), 135)?;
    assert!(rt; deltas.starts_with(&[0, 1, 0, 0, 0, 1, 0, 255, 255, 63, 0]));
    Ok(())
}

/// The bytes of 1,025 rows of three columns in parts: a front, how many bytes that are 0 follow it, and the rest. Each vector has a
/// null, and packed numbers or codes are of one bit, of which the last alone is set.
const THREE_COLUMNS: [(&[u8], usize, &[u8]); 12] = [
    // SMALLINT: row 0 null, FOR of reference 7; then one row, null, DELTA of least delta 1 and 64 bases of 0.
    (&[1, 1], 127, &[0, 1, 0, 0, 7, 0]),
    (&[], 127, &[128]),
    (&[1, 1], 127, &[1, 1, 0, 0, 1, 0]),
    (&[], 255, &[128]),
    // INTEGER: row 1 null, RLE of two runs, 7 and then 8 from row 1 on; then one row, null, DICT of -1 and 2.
    (&[1, 2], 127, &[2, 1, 2, 0]),
    (&[2], 127, &[7, 0, 0, 0, 8, 0, 0, 0]),
    (&[1, 1], 127, &[3, 1, 2, 0, 255, 255, 255, 255, 2, 0, 0, 0]),
    (&[], 127, &[128]),
    // BIGINT: row 0 null, DICT of -1 and 2; then one row, null, DELTA of least delta 1 and 16 bases of 0.
    (
        &[1, 1],
        127,
        &[3, 1, 2, 0, 255, 255, 255, 255, 255, 255, 255, 255],
    ),
    (&[2], 134, &[128]),
    (&[1, 1], 127, &[1, 1, 0, 0, 1]),
    (&[], 262, &[128]),
];

fn three_columns(alloc: Global) -> Result<Vec<u8>, AllocError> {
    let mut bytes = Vec::new(alloc);
    for &(front, zeros, back) in &THREE_COLUMNS {
        add(&mut bytes, front, zeros, back)?;
    }
    Ok(bytes)
}

/// The names and types of those columns.
const THREE_TYPES: [(&str, ColType); 3] = [
    ("A", ColType::SmallInt),
    ("B", ColType::Integer),
    ("C", ColType::BigInt),
];

/// The 1,025 rows that stand in such bytes, and the place after them.
fn three_read(alloc: Global, bytes: &[u8]) -> Result<(Segment, usize), Refusal> {
    let schema = Schema::new(alloc, "T", &THREE_TYPES)?;
    Segment::read_bytes(alloc, &schema, 1025, bytes, 0)
}

/// What writing a segment answers, what was written and how often the writer failed, when the writer passes so many bytes on.
fn written_until(
    alloc: Global,
    segment: &Segment,
    left: usize,
) -> (Result<(), Refusal>, Vec<u8>, u64) {
    let mut writer = Counted::new(Stop {
        inner: Vec::new(alloc),
        left,
    });
    let outcome = segment.write_bytes(&mut writer);
    let failures = writer.failures();
    let Stop { inner, .. } = writer.into_inner();
    (outcome, inner, failures)
}

/// Whether a segment with these bytes is written so far as a writer passes bytes on, and refused once if that is not to the end.
fn stops_at(alloc: Global, segment: &Segment, bytes: &[u8], left: usize) -> bool {
    let (outcome, written, failures) = written_until(alloc, segment, left);
    let ends = if left < bytes.len() {
        (Err(Refusal::WriteFault), 1)
    } else {
        (Ok(()), 0)
    };
    (outcome, failures) == ends && bytes.get(..left) == Some(written.as_slice())
}

fn check_stops(rt: &impl Abort, alloc: Global, segment: &Segment, bytes: &[u8]) {
    for left in 0..=bytes.len() {
        assert!(rt; stops_at(alloc, segment, bytes, left), "at {left}");
    }
}

#[test]
fn a_writer_that_stops_at_a_byte_has_the_bytes_before_it(rt: HostRuntime) -> Result<(), Fail> {
    let bytes = three_columns(rt.alloc())?;
    let (segment, next) = three_read(rt.alloc(), &bytes)?;
    agree(
        (segment.rows(), segment.columns(), next),
        (1025, 3, bytes.len()),
    )?;
    check_stops(&rt, rt.alloc(), &segment, &bytes);
    Ok(())
}

/// What writing a segment into so much room answers, and how often the writer failed.
fn written_into(segment: &Segment, room: &mut [u8]) -> (Result<(), Refusal>, u64) {
    let mut writer = Counted::new(room);
    let outcome = segment.write_bytes(&mut writer);
    (outcome, writer.failures())
}

// Six bytes have room for all but the last of the seven.
#[test]
fn a_full_writer_has_a_front_and_a_fault(rt: HostRuntime) -> Result<(), Fail> {
    let (segment, _) = one_row(rt.alloc(), &[0, 0, 0, 0, 0, 7, 0], 0)?;
    let mut room = [1; 6];
    let ends = written_into(&segment, &mut room);
    agree(ends, (Err(Refusal::WriteFault), 1))?;
    agree(room, [0, 0, 0, 0, 0, 7])
}
