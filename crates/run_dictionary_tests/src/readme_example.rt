//! The example of run_dictionary's README, which has the same text.
use run_dictionary::{Dict, Runs};
use std::alloc::Global;
use std::test::Fail;
use test_support::{Pattern, agree, column};

/// Codes two values, of which the second begins at row 500: two runs, or a dictionary of two.
fn code_two_values(alloc: Global) -> Result<(), Fail> {
    let values = column(32, Pattern::ChangedAt(500, 7, 9));
    let runs = Runs::encode(alloc, &values, 32)?;
    let dict = Dict::encode(alloc, &values, 32)?;
    agree((runs.values().len(), dict.values().len()), (2, 2))?;
    agree((runs.value(499), runs.value(500)), (7, 9))?;
    let mut back = [0; 1024];
    dict.decode(&mut back);
    agree(back.as_slice(), values.as_slice())
}

#[test]
fn the_example_holds(rt: HostRuntime) -> Result<(), Fail> {
    code_two_values(rt.alloc())
}
