//! The example of column_file's README, which has the same text.
use column_file::{export_bytes, open};
use replica_store::Store;
use std::alloc::Global;
use std::test::Fail;
use table_model::{ColType, Counted, Origin, Rows, Schema};
use test_support::agree;

/// The canonical file of a replica, which another one opens under an origin of its own.
fn export_and_open(alloc: Global) -> Result<(), Fail> {
    let schema = Schema::new(alloc, "VISITS", &[("HITS", ColType::BigInt)])?;
    let mut here = Store::new(alloc, &schema, Origin(1))?;
    let mut rows = Rows::new(alloc);
    rows.push_row(&[Some(7)])?;
    here.append(alloc, &rows)?;
    let file = export_bytes(alloc, &here)?;
    let there = open(alloc, &mut Counted::new(file.as_slice()), Origin(2))?;
    agree(there.batches(), 1)
}

#[test]
fn the_example_holds(rt: HostRuntime) -> Result<(), Fail> {
    export_and_open(rt.alloc())
}
