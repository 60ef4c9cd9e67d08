//! The example of catalogue_join's README, which has the same text.
use catalogue_join::{Held, Tombs};
use std::alloc::Global;
use std::test::Fail;
use table_model::{BatchName, Number, Origin, RowName};
use test_support::agree;

/// Finds what one site lacks of another, and which rows are deleted.
fn compare_sites(alloc: Global) -> Result<(), Fail> {
    let first = BatchName {
        origin: Origin(1),
        number: Number(1),
    };
    let second = BatchName {
        origin: Origin(1),
        number: Number(2),
    };
    let mut here = Held::new(alloc);
    here.insert(first)?;
    let mut there = here.copy(alloc)?;
    there.insert(second)?;
    agree(there.missing_from(&here)?.as_slice(), [second].as_slice())?;
    here.join(&there)?;
    agree((here.len(), here.holds(second)), (2, true))?;
    let mut deleted = Tombs::new(alloc);
    let row = RowName {
        batch: first,
        ordinal: 3,
    };
    deleted.insert(row, 5)?;
    agree(
        (deleted.holds_rows(row, 5), deleted.holds_rows(row, 6)),
        (true, false),
    )
}

#[test]
fn the_example_holds(rt: HostRuntime) -> Result<(), Fail> {
    compare_sites(rt.alloc())
}
