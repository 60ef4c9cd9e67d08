//! Reads and writes that stop in mid-stream.
use crate::tests::three;
use csv_rows::{CsvError, CsvReader, CsvWriter};
use std::alloc::Global;
use std::test::Fail;
use table_model::{Counted, Refusal, Schema};
use test_support::{Stop, agree_at};

const TEXT: &[u8] = b"\xEF\xBB\xBFA,B,C\n1,2,3\n4,5,6\n";

/// Reads the text by the schema from a reader that stops after so many bytes.
fn read(alloc: Global, schema: &Schema, left: usize) -> Result<(), Fail> {
    let mut reader = Counted::new(Stop { inner: TEXT, left });
    let mut csv = CsvReader::new(alloc, schema, true)?;
    let fault = csv.next_batch(alloc, &mut reader).err();
    agree_at(left, fault, Some(CsvError::Refused(Refusal::ReadFault)))?;
    agree_at(left, reader.failures(), 1)
}

#[test]
fn a_read_that_stops_is_a_read_fault(rt: HostRuntime) -> Result<(), Fail> {
    let schema = three(rt.alloc())?;
    for left in 0..=TEXT.len() {
        read(rt.alloc(), &schema, left)?;
    }
    Ok(())
}

/// Writes a row to a writer that stops after so many bytes.
fn write(alloc: Global, left: usize) -> Result<(), Fail> {
    let mut room = [0u8; 6];
    let mut writer = Counted::new(Stop {
        inner: room.as_mut_slice(),
        left,
    });
    let mut csv = CsvWriter::new(alloc);
    let outcome = csv.row([Some(1), None, Some(-3)].as_slice(), &mut writer);
    agree_at(left, outcome, Err(Refusal::WriteFault))?;
    agree_at(left, writer.failures(), 1)
}

#[test]
fn a_write_that_stops_is_a_write_fault(rt: HostRuntime) -> Result<(), Fail> {
    for left in 0..6 {
        write(rt.alloc(), left)?;
    }
    Ok(())
}
