//! The example of replica_store's README, which has the same text.
use replica_store::Store;
use std::alloc::Global;
use std::test::Fail;
use table_model::{ColType, Origin, Refusal, RowName, Rows, Schema};
use test_support::agree;

/// A replica of the table of visits, with this own origin.
fn replica(alloc: Global, own: u32) -> Result<Store, Refusal> {
    let schema = Schema::new(alloc, "VISITS", &[("HITS", ColType::BigInt)])?;
    Store::new(alloc, &schema, Origin(own))
}

/// Takes what another replica has: its rows, and a deletion. A second merge changes nothing.
fn merge_two(alloc: Global, here: &mut Store, there: &mut Store, rows: &Rows) -> Result<(), Fail> {
    here.append(alloc, rows)?;
    let batch = there.append(alloc, rows)?;
    there.delete(alloc, RowName { batch, ordinal: 1 }, 1)?;
    agree(here.merge(alloc, there)?, true)?;
    agree(here.merge(alloc, there)?, false)?;
    agree(here.batches(), 2)
}

/// Merges rows of two replicas that have nothing yet.
fn merge_rows(alloc: Global, rows: &Rows) -> Result<(), Fail> {
    let mut here = replica(alloc, 1)?;
    let mut there = replica(alloc, 2)?;
    merge_two(alloc, &mut here, &mut there, rows)
}

#[test]
fn the_example_holds(rt: HostRuntime) -> Result<(), Fail> {
    let mut rows = Rows::new(rt.alloc());
    rows.push_row(&[Some(7)])?;
    rows.push_row(&[None])?;
    merge_rows(rt.alloc(), &rows)
}
