//! Reading and writing files and messages when the reader or the writer stops at a byte.
use crate::file_tests::{ONE_ROW, offer_from, opened};
use crate::tests::TWO_NAMES;
use column_file::{export, open, read_offer, read_summary, write_offer, write_summary};
use std::alloc::Global;
use std::test::Fail;
use table_model::{Counted, Origin, Refusal};
use test_support::{Stop, agree, agree_at};

/// The calls that read.
#[derive(Clone, Copy)]
enum Reading {
    Open,
    Offer,
    Summary,
}

/// What opening a file is refused as.
fn open_fault(alloc: Global, reader: &mut Counted<Stop<&[u8]>>) -> Option<Refusal> {
    open(alloc, reader, Origin(1)).err()
}

/// What reading an offer is refused as.
fn offer_fault(alloc: Global, reader: &mut Counted<Stop<&[u8]>>) -> Option<Refusal> {
    read_offer(alloc, reader).err()
}

/// What reading a summary is refused as.
fn summary_fault(alloc: Global, reader: &mut Counted<Stop<&[u8]>>) -> Option<Refusal> {
    read_summary(alloc, reader).err()
}

/// What a call that reads is refused as.
fn read_fault(alloc: Global, call: Reading, reader: &mut Counted<Stop<&[u8]>>) -> Option<Refusal> {
    match call {
        Reading::Open => open_fault(alloc, reader),
        Reading::Offer => offer_fault(alloc, reader),
        Reading::Summary => summary_fault(alloc, reader),
    }
}

/// What a call that reads answers when the reader passes so many bytes on, and how often the reader failed.
fn read_until(alloc: Global, call: Reading, bytes: &[u8], left: usize) -> (Option<Refusal>, u64) {
    let mut reader = Counted::new(Stop { inner: bytes, left });
    let fault = read_fault(alloc, call, &mut reader);
    (fault, reader.failures())
}

const READINGS: [(Reading, &[u8]); 3] = [
    (Reading::Open, ONE_ROW),
    (Reading::Offer, ONE_ROW),
    (Reading::Summary, TWO_NAMES),
];

/// Sees that a reader of these bytes has failed if it stops at any of them, and has not if it does not stop.
fn see_reader_stop(alloc: Global, call: Reading, bytes: &[u8]) -> Result<(), Fail> {
    for left in 0..=bytes.len() {
        let found = read_until(alloc, call, bytes, left);
        agree_at(
            format_args!("at {left}"),
            found,
            (Some(Refusal::ReadFault), 1),
        )?;
    }
    agree(read_until(alloc, call, bytes, 1000), (None, 0))
}

// The end is seen by a read that answers no byte, so that a reader which stops right after the last byte failed as well.
#[test]
fn a_reader_that_stops_at_a_byte_has_failed(rt: HostRuntime) -> Result<(), Fail> {
    for &(call, bytes) in &READINGS {
        see_reader_stop(rt.alloc(), call, bytes)?;
    }
    Ok(())
}

/// The calls that write.
#[derive(Clone, Copy)]
enum Writing {
    Export,
    Offer,
    Summary,
}

/// Exports the store that a file opens to.
fn export_again(
    alloc: Global,
    bytes: &[u8],
    writer: &mut Counted<Stop<Vec<u8>>>,
) -> Result<(), Refusal> {
    let store = opened(alloc, bytes)?;
    export(alloc, &store, writer)
}

/// Writes the offer that bytes are.
fn write_offer_again(
    alloc: Global,
    bytes: &[u8],
    writer: &mut Counted<Stop<Vec<u8>>>,
) -> Result<(), Refusal> {
    let offer = offer_from(alloc, bytes)?;
    write_offer(&offer, writer)
}

/// Writes the summary that bytes are.
fn write_summary_again(
    alloc: Global,
    bytes: &[u8],
    writer: &mut Counted<Stop<Vec<u8>>>,
) -> Result<(), Refusal> {
    let summary = read_summary(alloc, &mut Counted::new(bytes))?;
    write_summary(&summary, writer)
}

/// What a call answers that writes what was read of these bytes.
fn write(
    alloc: Global,
    call: Writing,
    bytes: &[u8],
    writer: &mut Counted<Stop<Vec<u8>>>,
) -> Result<(), Refusal> {
    match call {
        Writing::Export => export_again(alloc, bytes, writer),
        Writing::Offer => write_offer_again(alloc, bytes, writer),
        Writing::Summary => write_summary_again(alloc, bytes, writer),
    }
}

/// Whether a writer was given these bytes.
fn has_written(writer: Counted<Stop<Vec<u8>>>, bytes: &[u8]) -> bool {
    let Stop { inner, .. } = writer.into_inner();
    inner.as_slice() == bytes
}

/// What such a call answers and how often the writer failed, when the writer passes as many bytes on as this front of them has,
/// and whether it was given that front.
fn written_until(
    alloc: Global,
    call: Writing,
    bytes: &[u8],
    front: &[u8],
) -> (Result<(), Refusal>, u64, bool) {
    let mut writer = Counted::new(Stop {
        inner: Vec::new(alloc),
        left: front.len(),
    });
    let outcome = write(alloc, call, bytes, &mut writer);
    let failures = writer.failures();
    (outcome, failures, has_written(writer, front))
}

const WRITINGS: [(Writing, &[u8]); 3] = [
    (Writing::Export, ONE_ROW),
    (Writing::Offer, ONE_ROW),
    (Writing::Summary, TWO_NAMES),
];

/// Sees that a writer that stops at any of these bytes has those before it, and that one that does not stop has them all.
fn see_writer_stop(alloc: Global, call: Writing, bytes: &[u8]) -> Result<(), Fail> {
    for left in 0..bytes.len() {
        let (front, _) = bytes.split_at(left);
        let found = written_until(alloc, call, bytes, front);
        agree_at(
            format_args!("at {left}"),
            found,
            (Err(Refusal::WriteFault), 1, true),
        )?;
    }
    agree(written_until(alloc, call, bytes, bytes), (Ok(()), 0, true))
}

#[test]
fn a_writer_that_stops_at_a_byte_has_the_bytes_before_it(rt: HostRuntime) -> Result<(), Fail> {
    for &(call, bytes) in &WRITINGS {
        see_writer_stop(rt.alloc(), call, bytes)?;
    }
    Ok(())
}
