//! Calls of a store, each with a growth refused. A test's own growths are counted from 1: with the Nth refused, a test fails by
//! an `AllocError` or `Memory` of its set-up, or, if it was a growth of the call that it is of, as `growth_refused` says; with
//! none refused it passes. The command `tests/refused-memory` refuses each in turn and counts those texts.
//!
//! A function that makes a store, or drops one, is dear to prove on each of its ways out. So each makes one thing at most, and
//! each call is made in a function to which the store is only lent. That a refused call leaves all of the store is in its
//! contract; here its batches and deletions are counted.
use replica_store::{Offer, Store, Summary};
use segment_core::Coding;
use std::alloc::{AllocError, Global};
use std::test::Fail;
use table_model::{BatchName, ColType, Number, Origin, Refusal, RowName, Rows, Schema};
use test_support::growth_refused;

/// The batch that the store of these tests holds.
const HELD: BatchName = BatchName {
    origin: Origin(1),
    number: Number(1),
};

/// A batch that it does not hold.
const OTHER: BatchName = BatchName {
    origin: Origin(2),
    number: Number(1),
};

/// The first row of the other batch.
const OTHER_ROW: RowName = RowName {
    batch: OTHER,
    ordinal: 0,
};

/// Two rows of one cell each.
fn two_rows(alloc: Global) -> Result<Rows, AllocError> {
    let mut rows = Rows::new(alloc);
    rows.push_row(&[Some(10)])?;
    rows.push_row(&[Some(11)])?;
    Ok(rows)
}

/// A table of one column.
fn table(alloc: Global) -> Result<Schema, Refusal> {
    Schema::new(alloc, "T", &[("A", ColType::BigInt)])
}

/// A store of that table.
fn new_store(alloc: Global, own: Origin) -> Result<Store, Refusal> {
    let schema = table(alloc)?;
    Store::new(alloc, &schema, own)
}

/// A store that holds one batch.
fn store_of(alloc: Global, name: BatchName, rows: &Rows) -> Result<Store, Refusal> {
    let mut store = new_store(alloc, name.origin)?;
    let _ = store.insert(alloc, name, rows)?;
    Ok(store)
}

/// A store that holds the other batch, and of which a row is deleted.
fn other_store(alloc: Global) -> Result<Store, Fail> {
    let rows = two_rows(alloc)?;
    let mut store = store_of(alloc, OTHER, &rows)?;
    let _ = store.delete(alloc, OTHER_ROW, 0)?;
    Ok(store)
}

/// Whether a store has one batch and no deletion.
fn is_held(store: &Store) -> bool {
    store.batches() == 1 && store.tombs().ranges().is_empty()
}

/// The end of a test: by why its call was refused, if it was; whether all was as before then; and whether the same call was refused
/// again.
fn end(first: Option<Refusal>, is_same: bool, again: Option<Refusal>) -> Result<(), Fail> {
    match first {
        None => match again {
            None => Ok(()),
            Some(fault) => Err(Fail::from(fault)),
        },
        Some(fault) => growth_refused(fault == Refusal::Memory && is_same && again.is_none()),
    }
}

/// A call of a store that is given rows at most.
#[derive(Clone, Copy)]
enum Call {
    Append,
    Insert,
    Delete,
    DeleteAll,
    Summary,
    Recode,
}

/// Makes the call, and says why it was refused, if it was.
fn made(alloc: Global, store: &mut Store, call: Call, rows: &Rows) -> Option<Refusal> {
    match call {
        Call::Append => store.append(alloc, rows).err(),
        Call::Insert => store.insert(alloc, OTHER, rows).err(),
        Call::Delete => store.delete(alloc, OTHER_ROW, 9).err(),
        Call::DeleteAll => store.delete_all(alloc, &[OTHER_ROW]).err(),
        Call::Summary => store.summary(alloc).err(),
        Call::Recode => store.recode(alloc, HELD, 0, 0, Coding::Dict).err(),
    }
}

/// Makes the call twice.
fn tried_of(alloc: Global, store: &mut Store, call: Call, rows: &Rows) -> Result<(), Fail> {
    let first = made(alloc, store, call, rows);
    let is_same = is_held(store);
    end(first, is_same, made(alloc, store, call, rows))
}

/// Makes the call of a store that holds these rows.
fn tried_with(alloc: Global, call: Call, rows: &Rows) -> Result<(), Fail> {
    let mut store = store_of(alloc, HELD, rows)?;
    tried_of(alloc, &mut store, call, rows)
}

/// Makes the call.
fn tried(alloc: Global, call: Call) -> Result<(), Fail> {
    let rows = two_rows(alloc)?;
    tried_with(alloc, call, &rows)
}

#[test]
fn a_refused_append_leaves_the_store(rt: HostRuntime) -> Result<(), Fail> {
    tried(rt.alloc(), Call::Append)
}

#[test]
fn a_refused_insert_leaves_the_store(rt: HostRuntime) -> Result<(), Fail> {
    tried(rt.alloc(), Call::Insert)
}

#[test]
fn a_refused_delete_leaves_the_store(rt: HostRuntime) -> Result<(), Fail> {
    tried(rt.alloc(), Call::Delete)
}

#[test]
fn a_refused_delete_of_listed_rows_leaves_the_store(rt: HostRuntime) -> Result<(), Fail> {
    tried(rt.alloc(), Call::DeleteAll)
}

#[test]
fn a_refused_summary_leaves_the_store(rt: HostRuntime) -> Result<(), Fail> {
    tried(rt.alloc(), Call::Summary)
}

#[test]
fn a_refused_recode_leaves_the_store(rt: HostRuntime) -> Result<(), Fail> {
    tried(rt.alloc(), Call::Recode)
}

/// The store of these tests.
fn held(alloc: Global) -> Result<Store, Fail> {
    let rows = two_rows(alloc)?;
    Ok(store_of(alloc, HELD, &rows)?)
}

/// Merges the other store twice.
fn merged(alloc: Global, store: &mut Store, other: &Store) -> Result<(), Fail> {
    let first = store.merge(alloc, other).err();
    let is_same = is_held(store);
    end(first, is_same, store.merge(alloc, other).err())
}

/// Merges the other store.
fn merged_with(alloc: Global, other: &Store) -> Result<(), Fail> {
    let mut store = held(alloc)?;
    merged(alloc, &mut store, other)
}

#[test]
fn a_refused_merge_leaves_the_store(rt: HostRuntime) -> Result<(), Fail> {
    let other = other_store(rt.alloc())?;
    merged_with(rt.alloc(), &other)
}

/// The summary of a store that holds nothing.
fn no_names(alloc: Global) -> Result<Summary, Refusal> {
    let schema = table(alloc)?;
    Summary::empty(alloc, &schema)
}

/// Makes an offer to the summary twice.
fn offered(alloc: Global, store: &Store, summary: &Summary) -> Result<(), Fail> {
    let first = store.offer(alloc, summary).err();
    end(first, is_held(store), store.offer(alloc, summary).err())
}

/// Makes an offer to the summary.
fn offered_to(alloc: Global, summary: &Summary) -> Result<(), Fail> {
    let store = held(alloc)?;
    offered(alloc, &store, summary)
}

#[test]
fn a_refused_offer_leaves_the_store(rt: HostRuntime) -> Result<(), Fail> {
    let summary = no_names(rt.alloc())?;
    offered_to(rt.alloc(), &summary)
}

/// What the other store offers to the summary.
fn offer_to(alloc: Global, summary: &Summary) -> Result<Offer, Fail> {
    let other = other_store(alloc)?;
    Ok(other.offer(alloc, summary)?)
}

/// What the other store offers to a store that holds nothing.
fn other_offer(alloc: Global) -> Result<Offer, Fail> {
    let summary = no_names(alloc)?;
    offer_to(alloc, &summary)
}

/// Applies the offer twice.
fn applied(alloc: Global, store: &mut Store, offer: &Offer) -> Result<(), Fail> {
    let first = store.apply(alloc, offer).err();
    let is_same = is_held(store);
    end(first, is_same, store.apply(alloc, offer).err())
}

/// Applies the offer.
fn applied_to_held(alloc: Global, offer: &Offer) -> Result<(), Fail> {
    let mut store = held(alloc)?;
    applied(alloc, &mut store, offer)
}

#[test]
fn a_refused_apply_leaves_the_store(rt: HostRuntime) -> Result<(), Fail> {
    let offer = other_offer(rt.alloc())?;
    applied_to_held(rt.alloc(), &offer)
}

/// Moves the other store's offer into the store, which takes it as it is.
fn absorbed(alloc: Global, store: &mut Store) -> Result<(), Fail> {
    let offer = other_offer(alloc)?;
    let first = store.absorb(alloc, offer).err();
    end(first, is_held(store), None)
}

#[test]
fn a_refused_absorb_leaves_the_store(rt: HostRuntime) -> Result<(), Fail> {
    let mut store = held(rt.alloc())?;
    absorbed(rt.alloc(), &mut store)
}

/// Makes a store of the table twice.
fn made_stores(alloc: Global, schema: &Schema) -> Result<(), Fail> {
    let first = Store::new(alloc, schema, Origin(1)).err();
    let is_same = schema.columns() == 1;
    end(first, is_same, Store::new(alloc, schema, Origin(1)).err())
}

#[test]
fn a_refused_store_leaves_its_schema(rt: HostRuntime) -> Result<(), Fail> {
    let schema = table(rt.alloc())?;
    made_stores(rt.alloc(), &schema)
}

/// Makes a summary of the table without names twice.
fn made_summaries(alloc: Global, schema: &Schema) -> Result<(), Fail> {
    let first = Summary::empty(alloc, schema).err();
    let is_same = schema.columns() == 1;
    end(first, is_same, Summary::empty(alloc, schema).err())
}

#[test]
fn a_refused_summary_without_names_leaves_its_schema(rt: HostRuntime) -> Result<(), Fail> {
    let schema = table(rt.alloc())?;
    made_summaries(rt.alloc(), &schema)
}
