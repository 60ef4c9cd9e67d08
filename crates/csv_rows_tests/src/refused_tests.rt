//! Reads and writes, each with a growth refused. A test's own growths are counted from 1: with the Nth refused, a test fails by an
//! `AllocError` or `Memory` of its set-up, or, if it was a growth of the call that it is of, with the text `REFUSED` or
//! `CHANGED`; with none refused it passes. The command `tests/refused-memory` refuses each in turn and counts those texts.
use crate::tests::three;
use csv_rows::{CsvError, CsvReader, CsvWriter};
use std::alloc::Global;
use std::test::Fail;
use table_model::{Counted, Refusal, Schema};
use test_support::{agree, growth_refused};

const TEXT: &[u8] = b"C,B,A\n1,2,3\n4,5,6\n";

/// Reads the text by the schema.
fn read(alloc: Global, schema: &Schema) -> Result<(), Fail> {
    let mut reader = Counted::new(TEXT);
    let mut csv = CsvReader::new(alloc, schema, true)?;
    match csv.next_batch(alloc, &mut reader) {
        Ok(rows) => agree(rows.len(), 2),
        Err(fault) => growth_refused(
            fault == CsvError::Refused(Refusal::Memory) && reader.failures() == 0,
        ),
    }
}

#[test]
fn a_refused_read_gives_no_rows(rt: HostRuntime) -> Result<(), Fail> {
    let schema = three(rt.alloc())?;
    read(rt.alloc(), &schema)
}

#[test]
fn a_refused_line_writes_nothing(rt: HostRuntime) -> Result<(), Fail> {
    let alloc = rt.alloc();
    let mut room = [0u8; 8];
    let mut csv = CsvWriter::new(alloc);
    let mut writer = Counted::new(room.as_mut_slice());
    let outcome = csv.row([Some(1), None, Some(-3)].as_slice(), &mut writer);
    let failures = writer.failures();
    match outcome {
        Ok(()) => agree(room, *b"1,,-3\n\0\0"),
        Err(fault) => growth_refused(fault == Refusal::Memory && failures == 0 && room == [0; 8]),
    }
}
