//! The example of csv_rows's README, which has the same text.
use csv_rows::{CsvReader, CsvWriter};
use std::alloc::Global;
use std::test::Fail;
use table_model::{ColType, Counted, Rows, Schema};
use test_support::agree;

/// Reads the rows of a text of comma-separated values.
fn read(alloc: Global, schema: &Schema) -> Result<Rows, Fail> {
    let mut reader = CsvReader::new(alloc, schema, true)?;
    let mut text = Counted::new(b"HITS,DAY\n7,1\nNULL,2\n".as_slice());
    Ok(reader.next_batch(alloc, &mut text)?)
}

/// Writes rows as comma-separated values.
fn write(alloc: Global, rows: &Rows) -> Result<Vec<u8>, Fail> {
    let mut writer = CsvWriter::new(alloc);
    let mut written = Counted::new(Vec::new(alloc));
    for ordinal in 0..rows.len() {
        writer.row(rows.row(ordinal), &mut written)?;
    }
    Ok(written.into_inner())
}

/// Reads a text, and writes its rows again.
fn read_and_write(alloc: Global, schema: &Schema) -> Result<(), Fail> {
    let rows = read(alloc, schema)?;
    let written = write(alloc, &rows)?;
    agree(written.as_slice(), b"1,7\n2,\n".as_slice())
}

#[test]
fn the_example_holds(rt: HostRuntime) -> Result<(), Fail> {
    let columns = [("DAY", ColType::Integer), ("HITS", ColType::BigInt)];
    let schema = Schema::new(rt.alloc(), "VISITS", &columns)?;
    read_and_write(rt.alloc(), &schema)
}
