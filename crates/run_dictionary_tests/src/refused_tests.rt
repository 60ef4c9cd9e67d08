//! Calls that grow, each with a growth refused. A test's own growths are counted from 1: with the Nth refused, a test fails by an
//! `AllocError` of its set-up, or, if it was a growth of the call that it is of, as `growth_refused` says; with none refused
//! it passes. The command `tests/refused-memory` refuses each in turn and counts those texts.
use run_dictionary::{Dict, Runs};
use std::alloc::{AllocError, Global};
use std::test::Fail;
use test_support::{Pattern, agree, column, growth_refused};

/// A vector of two values, so that a dictionary has packed codes of it.
const TWO_PARTS: Pattern = Pattern::ChangedAt(500, 0, 9);

/// Whether runs decode to a vector.
fn are_runs_of(runs: &Runs, values: &[i64; 1024]) -> bool {
    let mut back = [1; 1024];
    runs.decode(&mut back);
    back.as_slice() == values.as_slice()
}

/// Whether runs were made, and decode to a vector.
fn are_made_runs(made: &Result<Runs, AllocError>, values: &[i64; 1024]) -> bool {
    match made {
        Ok(runs) => are_runs_of(runs, values),
        Err(AllocError) => false,
    }
}

#[test]
fn a_refused_encoding_gives_no_runs(rt: HostRuntime) -> Result<(), Fail> {
    let values = column(16, TWO_PARTS);
    match Runs::encode(rt.alloc(), &values, 16) {
        Ok(runs) => agree(are_runs_of(&runs, &values), true),
        Err(AllocError) => {
            let again = Runs::encode(rt.alloc(), &values, 16);
            growth_refused(are_made_runs(&again, &values))
        }
    }
}

/// A copy of runs decodes to the vector, or is refused and leaves them.
fn runs_are_copied(alloc: Global, runs: &Runs, values: &[i64; 1024]) -> Result<(), Fail> {
    match runs.copy(alloc) {
        Ok(copy) => agree(are_runs_of(&copy, values), true),
        Err(AllocError) => {
            growth_refused(are_runs_of(runs, values) && are_made_runs(&runs.copy(alloc), values))
        }
    }
}

#[test]
fn a_refused_copy_leaves_its_runs(rt: HostRuntime) -> Result<(), Fail> {
    let values = column(16, TWO_PARTS);
    let runs = Runs::encode(rt.alloc(), &values, 16)?;
    runs_are_copied(rt.alloc(), &runs, &values)
}

/// Whether a dictionary's codes decode to a vector.
fn is_dict_of(dict: &Dict, values: &[i64; 1024]) -> bool {
    let mut back = [1; 1024];
    dict.decode(&mut back);
    back.as_slice() == values.as_slice()
}

/// Whether a dictionary was made, and its codes decode to a vector.
fn is_made_dict(made: &Result<Dict, AllocError>, values: &[i64; 1024]) -> bool {
    match made {
        Ok(dict) => is_dict_of(dict, values),
        Err(AllocError) => false,
    }
}

#[test]
fn a_refused_encoding_gives_no_dictionary(rt: HostRuntime) -> Result<(), Fail> {
    let values = column(16, TWO_PARTS);
    match Dict::encode(rt.alloc(), &values, 16) {
        Ok(dict) => agree(is_dict_of(&dict, &values), true),
        Err(AllocError) => {
            let again = Dict::encode(rt.alloc(), &values, 16);
            growth_refused(is_made_dict(&again, &values))
        }
    }
}

/// A copy of a dictionary decodes to the vector, or is refused and leaves it.
fn dict_is_copied(alloc: Global, dict: &Dict, values: &[i64; 1024]) -> Result<(), Fail> {
    match dict.copy(alloc) {
        Ok(copy) => agree(is_dict_of(&copy, values), true),
        Err(AllocError) => {
            growth_refused(is_dict_of(dict, values) && is_made_dict(&dict.copy(alloc), values))
        }
    }
}

#[test]
fn a_refused_copy_leaves_its_dictionary(rt: HostRuntime) -> Result<(), Fail> {
    let values = column(16, TWO_PARTS);
    let dict = Dict::encode(rt.alloc(), &values, 16)?;
    dict_is_copied(rt.alloc(), &dict, &values)
}
