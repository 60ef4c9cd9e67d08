//! Texts that come in pieces of whole lines, each from a reader of its own, against the same texts whole. The faults were worked out by hand.
use crate::tests::three;
use csv_rows::{CsvError, CsvReader};
use std::alloc::Global;
use std::test::Fail;
use table_model::{Counted, MAX_ROWS, Rows, Schema};
use test_support::agree_at;

/// A byte order mark, a header in another order, a line with a return, an empty line, and rows.
const TEXT: &[u8] = b"\xEF\xBB\xBFC,A,B\n1,2,3\r\n\n4,5,6\n,7,8\n9,,NULL\n";

/// The same lines, with a fault in the sixth.
const FAULTY: &[u8] = b"\xEF\xBB\xBFC,A,B\n1,2,3\r\n\n4,5,6\n,7,8\n9,x,\n1,2,3\n";

/// Reads the pieces before and behind a place.
fn read(alloc: Global, schema: &Schema, text: &[u8], place: usize) -> Result<Rows, CsvError> {
    let mut csv = CsvReader::new(alloc, schema, true)?;
    let mut rows = Rows::new(alloc);
    let (front, back) = text.split_at(place.min(text.len()));
    csv.fill_batch(alloc, &mut Counted::new(front), &mut rows)?;
    if rows.len() < MAX_ROWS {
        csv.fill_batch(alloc, &mut Counted::new(back), &mut rows)?;
    }
    Ok(rows)
}

/// Whether the rows are those of `TEXT`, worked out by hand.
fn are_of_text(rows: &Rows) -> bool {
    rows.len() == 4
        && rows.row(0) == [Some(2), Some(3), Some(1)].as_slice()
        && rows.row(1) == [Some(5), Some(6), Some(4)].as_slice()
        && rows.row(2) == [Some(7), Some(8), None].as_slice()
        && rows.row(3) == [None, None, Some(9)].as_slice()
}

/// Cuts both texts behind the byte at a place, if that ends a line.
fn cut_behind(alloc: Global, schema: &Schema, place: usize) -> Result<(), Fail> {
    if TEXT.get(place) == Some(&b'\n') {
        let rows = read(alloc, schema, TEXT, place + 1)?;
        agree_at(place, are_of_text(&rows), true)?;
    }
    if FAULTY.get(place) == Some(&b'\n') {
        let fault = read(alloc, schema, FAULTY, place + 1).err();
        agree_at(place, fault, Some(CsvError::BadCsv { line: 6, column: 2 }))?;
    }
    Ok(())
}

#[test]
fn a_text_cut_behind_a_line_is_the_text(rt: HostRuntime) -> Result<(), Fail> {
    let schema = three(rt.alloc())?;
    for place in 0..FAULTY.len() {
        cut_behind(rt.alloc(), &schema, place)?;
    }
    Ok(())
}
