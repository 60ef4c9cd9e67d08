//! The example of store_view's README, which has the same text.
use query_eval::{HashKey, text};
use replica_store::Store;
use std::alloc::Global;
use std::test::Fail;
use store_view::ask;
use table_model::{ColType, Origin, Rows, Schema};
use test_support::agree;

/// The answer to a query over a store, as a text.
fn ask_a_store(alloc: Global) -> Result<(), Fail> {
    let schema = Schema::new(
        alloc,
        "VISITS",
        &[("SITE", ColType::SmallInt), ("HITS", ColType::BigInt)],
    )?;
    let mut store = Store::new(alloc, &schema, Origin(1))?;
    let mut rows = Rows::new(alloc);
    rows.push_row(&[Some(1), Some(120)])?;
    rows.push_row(&[Some(1), None])?;
    store.append(alloc, &rows)?;
    let answer = ask(
        alloc,
        &store,
        HashKey::fixed(),
        "SELECT SITE,SUM(HITS) FROM VISITS GROUP BY SITE",
    )?;
    let lines = text(alloc, &answer)?;
    agree(lines.as_slice(), b"SITE,SUM(HITS)\n1,120\n".as_slice())
}

#[test]
fn the_example_holds(rt: HostRuntime) -> Result<(), Fail> {
    ask_a_store(rt.alloc())
}
