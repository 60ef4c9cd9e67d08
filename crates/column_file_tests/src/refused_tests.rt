//! Calls that read and write files and messages, each with a growth refused. A test's own growths are counted from 1: with the
//! Nth refused, a test fails by an `AllocError` or `Memory` of its set-up, or, if it was a growth of the call that it is of,
//! with the text `REFUSED` or `CHANGED`; with none refused it passes. The command `tests/refused-memory` refuses each in turn and
//! counts those texts.
use crate::file_tests::{THREE_ROWS, ZEROS, changed, opened};
use crate::tests::TWO_NAMES;
use column_file::{export, open, read_offer, read_summary};
use replica_store::{Offer, Store};
use segment_core::Coding;
use std::alloc::Global;
use std::process::Abort;
use std::test::Fail;
use table_model::{BatchName, Counted, Number, Origin, Refusal};
use test_support::growth_refused;

/// The most bytes that a call of these tests writes.
const ROOM: usize = 256;

/// The end of a test whose call was refused so: what it was given counts so many failures, and all else is as it was.
fn refused(fault: Refusal, failures: u64, is_as_it_was: bool) -> Result<(), Fail> {
    let is_kept = fault == Refusal::Memory && failures == 0 && is_as_it_was;
    growth_refused(is_kept)
}

/// Whether these bytes are a text and then bytes that are 0.
fn begins_with(room: &[u8], text: &[u8]) -> bool {
    let (front, back) = room.split_at(text.len().min(room.len()));
    front == text && ZEROS.get(..back.len()) == Some(back)
}

/// The calls that read a file of one batch, or a summary of two names.
#[derive(Clone, Copy)]
enum Reading {
    Open,
    Offer,
    Summary,
}

/// Whether what is opened has one batch.
fn opens(alloc: Global, reader: &mut Counted<&[u8]>) -> Result<bool, Refusal> {
    let store = open(alloc, reader, Origin(1))?;
    Ok(store.batches() == 1)
}

/// Whether the offer that is read has one batch.
fn offers(alloc: Global, reader: &mut Counted<&[u8]>) -> Result<bool, Refusal> {
    let offer = read_offer(alloc, reader)?;
    Ok(offer.batches() == 1)
}

/// Whether the summary that is read has two names.
fn sums_up(alloc: Global, reader: &mut Counted<&[u8]>) -> Result<bool, Refusal> {
    let summary = read_summary(alloc, reader)?;
    Ok(summary.names().len() == 2)
}

/// Makes the call: whether it gives what was to be read.
fn reads(alloc: Global, call: Reading, reader: &mut Counted<&[u8]>) -> Result<bool, Refusal> {
    match call {
        Reading::Open => opens(alloc, reader),
        Reading::Offer => offers(alloc, reader),
        Reading::Summary => sums_up(alloc, reader),
    }
}

/// What the call ends as, and what is left if a growth is refused.
fn is_read(rt: &impl Abort, alloc: Global, call: Reading, bytes: &[u8]) -> Result<(), Fail> {
    let mut reader = Counted::new(bytes);
    match reads(alloc, call, &mut reader) {
        Ok(is_whole) => assert!(rt; is_whole),
        Err(fault) => {
            let again = reads(alloc, call, &mut Counted::new(bytes));
            return refused(fault, reader.failures(), again == Ok(true));
        }
    }
    Ok(())
}

#[test]
fn a_refused_open_gives_no_store(rt: HostRuntime) -> Result<(), Fail> {
    let bytes = changed(rt.alloc(), &THREE_ROWS)?;
    is_read(&rt, rt.alloc(), Reading::Open, &bytes)
}

/// What opening a file that is not canonical ends as, which is refused so, and what is left if a growth is refused.
fn is_refused(alloc: Global, bytes: &[u8], wanted: Refusal) -> Result<(), Fail> {
    let mut reader = Counted::new(bytes);
    let Some(fault) = open(alloc, &mut reader, Origin(1)).err() else {
        return growth_refused(false);
    };
    if fault == wanted {
        return Ok(());
    }
    let again = open(alloc, &mut Counted::new(bytes), Origin(1)).err();
    refused(fault, reader.failures(), again == Some(wanted))
}

// FOR of width 1 in the place of width 0: the vector is put into its canonical form where it lies, and the file is compared.
#[test]
fn a_refused_open_of_another_form_is_not_judged(rt: HostRuntime) -> Result<(), Fail> {
    let bytes = changed(rt.alloc(), &(29, 34, &[(b"\x01\0\0\x07", 129)]))?;
    is_refused(rt.alloc(), &bytes, Refusal::NotCanonical(29))
}

#[test]
fn a_refused_reading_gives_no_offer(rt: HostRuntime) -> Result<(), Fail> {
    let bytes = changed(rt.alloc(), &THREE_ROWS)?;
    is_read(&rt, rt.alloc(), Reading::Offer, &bytes)
}

#[test]
fn a_refused_reading_gives_no_summary(rt: HostRuntime) -> Result<(), Fail> {
    is_read(&rt, rt.alloc(), Reading::Summary, TWO_NAMES)
}

/// The store that a file opens to, its vector recoded, so that an export makes a canonical copy.
fn recoded(alloc: Global, bytes: &[u8]) -> Result<Store, Refusal> {
    let mut store = opened(alloc, bytes)?;
    let name = BatchName {
        origin: Origin(2),
        number: Number(1),
    };
    store.recode(alloc, name, 0, 0, Coding::Dict)?;
    Ok(store)
}

/// Writes a store's file: what that answers, and how often the writer failed.
fn exported(alloc: Global, store: &Store, room: &mut [u8]) -> (Result<(), Refusal>, u64) {
    let mut writer = Counted::new(room);
    let outcome = export(alloc, store, &mut writer);
    (outcome, writer.failures())
}

/// What exporting a store that has this file ends as, and what is left if a growth is refused.
fn is_exported(rt: &impl Abort, alloc: Global, store: &Store, bytes: &[u8]) -> Result<(), Fail> {
    let mut room = [0; ROOM];
    match exported(alloc, store, &mut room) {
        (Ok(()), _) => assert!(rt; begins_with(&room, bytes)),
        (Err(fault), failures) => {
            let is_unwritten = begins_with(&room, b"");
            let (again, _) = exported(alloc, store, &mut room);
            let is_whole = again.is_ok() && begins_with(&room, bytes);
            return refused(fault, failures, is_unwritten && is_whole);
        }
    }
    Ok(())
}

/// Whether the store of a file, its vector recoded, is exported as the file's bytes.
fn is_exported_again(rt: &impl Abort, alloc: Global, bytes: &[u8]) -> Result<(), Fail> {
    let store = recoded(alloc, bytes)?;
    is_exported(rt, alloc, &store, bytes)
}

#[test]
fn a_refused_export_writes_nothing(rt: HostRuntime) -> Result<(), Fail> {
    let bytes = changed(rt.alloc(), &THREE_ROWS)?;
    is_exported_again(&rt, rt.alloc(), &bytes)
}
