//! Calls of sets, each with a growth refused. A test's own growths are counted from 1: with the Nth refused, a test fails by an
//! `AllocError` of its set-up, or, if it was a growth of the call that it is of, as `growth_refused` says; with none refused
//! it passes. The command `tests/refused-memory` refuses each in turn and counts those texts.
use crate::row_list_tests::{rows_at, set_of};
use crate::tests::{batch, held_of, row};
use catalogue_join::{Held, Tombs};
use std::alloc::{AllocError, Global};
use std::test::Fail;
use table_model::RowName;
use test_support::growth_refused;

/// The numbers of a set's names of origin 1, so many that one more takes memory.
const NAMES: [u32; 4] = [1, 3, 5, 7];

/// Those of another set's names.
const OTHER_NAMES: [u32; 2] = [4, 9];

/// Those of both sets' names.
const NAMES_OF_BOTH: [u32; 6] = [1, 3, 4, 5, 7, 9];

/// A set's ranges of ordinals of batch 1.1, so many that one more takes memory.
const RANGES: [(u16, u16); 4] = [(0, 1), (3, 3), (5, 9), (20, 30)];

/// Those of another set.
const OTHER_RANGES: [(u16, u16); 2] = [(4, 4), (40, 41)];

/// Those of both sets together.
const RANGES_OF_BOTH: [(u16, u16); 4] = [(0, 1), (3, 9), (20, 30), (40, 41)];

/// Whether a set has the names of origin 1 with these numbers, and no others.
fn has_names(held: &Held, numbers: &[u32]) -> bool {
    for number in numbers {
        if !held.holds(batch(1, *number)) {
            return false;
        }
    }
    held.len() == numbers.len()
}

/// Inserts the name 1.9 in a set with the names of these tests.
fn insert_name(held: &mut Held) -> Result<(), Fail> {
    match held.insert(batch(1, 9)) {
        Ok(()) => Ok(()),
        Err(AllocError) => {
            let is_same = has_names(held, &NAMES);
            let again = held.insert(batch(1, 9));
            growth_refused(is_same && again.is_ok() && has_names(held, &[1, 3, 5, 7, 9]))
        }
    }
}

#[test]
fn a_refused_insert_of_a_name_leaves_the_set(rt: HostRuntime) -> Result<(), Fail> {
    let mut held = held_of(rt.alloc(), &NAMES)?;
    insert_name(&mut held)
}

/// Joins another set to a set with the names of these tests.
fn join_names(held: &mut Held, other: &Held) -> Result<(), Fail> {
    match held.join(other) {
        Ok(()) => Ok(()),
        Err(AllocError) => {
            let is_same = has_names(held, &NAMES) && has_names(other, &OTHER_NAMES);
            let again = held.join(other);
            growth_refused(is_same && again.is_ok() && has_names(held, &NAMES_OF_BOTH))
        }
    }
}

/// Joins the names with the other set of these tests.
fn join_other_names(alloc: Global, held: &mut Held) -> Result<(), Fail> {
    let other = held_of(alloc, &OTHER_NAMES)?;
    join_names(held, &other)
}

#[test]
fn a_refused_join_of_names_leaves_both_sets(rt: HostRuntime) -> Result<(), Fail> {
    let mut held = held_of(rt.alloc(), &NAMES)?;
    join_other_names(rt.alloc(), &mut held)
}

/// Makes the list of a set's names that another set lacks.
fn list_missing(held: &Held, other: &Held) -> Result<(), AllocError> {
    let _ = held.missing_from(other)?;
    Ok(())
}

/// Lists the names that are missing, and fails as a test does.
fn see_missing(held: &Held, other: &Held) -> Result<(), Fail> {
    match list_missing(held, other) {
        Ok(()) => Ok(()),
        Err(AllocError) => {
            let again = list_missing(held, other);
            let is_same = has_names(held, &NAMES_OF_BOTH) && has_names(other, &[4]);
            growth_refused(is_same && again.is_ok())
        }
    }
}

/// Lists the names that a set with 1.4 alone does not have: five names are missing, so many that the list grows twice.
fn see_five_missing(alloc: Global, held: &Held) -> Result<(), Fail> {
    let other = held_of(alloc, &[4])?;
    see_missing(held, &other)
}

#[test]
fn a_refused_list_of_missing_names_leaves_both_sets(rt: HostRuntime) -> Result<(), Fail> {
    let held = held_of(rt.alloc(), &NAMES_OF_BOTH)?;
    see_five_missing(rt.alloc(), &held)
}

/// The rows of batch 1.1 in these ranges of ordinals.
fn tombs_with(alloc: Global, ranges: &[(u16, u16)]) -> Result<Tombs, AllocError> {
    let mut tombs = Tombs::new(alloc);
    for &(first, last) in ranges {
        if first <= last {
            tombs.insert(row(1, first), last)?;
        }
    }
    Ok(tombs)
}

/// Whether these are a set's ranges.
fn has_ranges(tombs: &Tombs, ranges: &[(u16, u16)]) -> bool {
    for (range, want) in tombs.ranges().iter().zip(ranges) {
        if *range != (row(1, want.0), want.1) {
            return false;
        }
    }
    tombs.ranges().len() == ranges.len()
}

/// Inserts rows 40 and 41 in a set with the ranges of these tests.
fn insert_rows(tombs: &mut Tombs) -> Result<(), Fail> {
    match tombs.insert(row(1, 40), 41) {
        Ok(()) => Ok(()),
        Err(AllocError) => {
            let is_same = has_ranges(tombs, &RANGES);
            let again = tombs.insert(row(1, 40), 41);
            growth_refused(is_same && again.is_ok() && tombs.ranges().len() == 5)
        }
    }
}

#[test]
fn a_refused_insert_of_rows_leaves_the_set(rt: HostRuntime) -> Result<(), Fail> {
    let mut tombs = tombs_with(rt.alloc(), &RANGES)?;
    insert_rows(&mut tombs)
}

/// Joins another set to a set with the ranges of these tests.
fn join_rows(tombs: &mut Tombs, other: &Tombs) -> Result<(), Fail> {
    match tombs.join(other) {
        Ok(()) => Ok(()),
        Err(AllocError) => {
            let is_same = has_ranges(tombs, &RANGES) && has_ranges(other, &OTHER_RANGES);
            let again = tombs.join(other);
            growth_refused(is_same && again.is_ok() && has_ranges(tombs, &RANGES_OF_BOTH))
        }
    }
}

/// Joins the rows with the other set of these tests.
fn join_other_rows(alloc: Global, tombs: &mut Tombs) -> Result<(), Fail> {
    let other = tombs_with(alloc, &OTHER_RANGES)?;
    join_rows(tombs, &other)
}

#[test]
fn a_refused_join_of_rows_leaves_both_sets(rt: HostRuntime) -> Result<(), Fail> {
    let mut tombs = tombs_with(rt.alloc(), &RANGES)?;
    join_other_rows(rt.alloc(), &mut tombs)
}

/// Whether a copy was made, with the names of these tests.
fn is_copied(copied: &Result<Held, AllocError>) -> bool {
    match copied {
        Ok(held) => has_names(held, &NAMES),
        Err(AllocError) => false,
    }
}

/// Copies a set with the names of these tests.
fn copy_names(alloc: Global, held: &Held) -> Result<(), Fail> {
    let copied = held.copy(alloc);
    if is_copied(&copied) {
        return Ok(());
    }
    growth_refused(copied.is_err() && has_names(held, &NAMES) && is_copied(&held.copy(alloc)))
}

#[test]
fn a_refused_copy_leaves_its_names(rt: HostRuntime) -> Result<(), Fail> {
    let held = held_of(rt.alloc(), &NAMES)?;
    copy_names(rt.alloc(), &held)
}

/// Whether a copy was made, with the ranges of these tests.
fn are_copied(copied: &Result<Tombs, AllocError>) -> bool {
    match copied {
        Ok(tombs) => has_ranges(tombs, &RANGES),
        Err(AllocError) => false,
    }
}

/// Copies a set with the ranges of these tests.
fn copy_rows(alloc: Global, tombs: &Tombs) -> Result<(), Fail> {
    let copied = tombs.copy(alloc);
    if are_copied(&copied) {
        return Ok(());
    }
    growth_refused(copied.is_err() && has_ranges(tombs, &RANGES) && are_copied(&tombs.copy(alloc)))
}

#[test]
fn a_refused_copy_leaves_its_rows(rt: HostRuntime) -> Result<(), Fail> {
    let tombs = tombs_with(rt.alloc(), &RANGES)?;
    copy_rows(rt.alloc(), &tombs)
}

/// Rows of batch 1.1 in no order, so many apart that the set of them grows twice.
const SCATTERED: [(u32, u16); 7] = [(1, 9), (1, 1), (1, 3), (1, 1), (1, 7), (1, 5), (1, 11)];

/// The ranges of their set.
const SCATTERED_RANGES: [(u16, u16); 6] = [(1, 1), (3, 3), (5, 5), (7, 7), (9, 9), (11, 11)];

/// Whether a set was made, with those ranges.
fn is_scattered(made: &Result<Tombs, AllocError>) -> bool {
    match made {
        Ok(tombs) => has_ranges(tombs, &SCATTERED_RANGES),
        Err(AllocError) => false,
    }
}

/// Makes the set of those rows.
fn make_of_rows(alloc: Global, rows: &[RowName]) -> Result<(), Fail> {
    let made = set_of(alloc, rows);
    if is_scattered(&made) {
        return Ok(());
    }
    growth_refused(made.is_err() && is_scattered(&set_of(alloc, rows)))
}

#[test]
fn a_refused_set_of_rows_leaves_the_rows(rt: HostRuntime) -> Result<(), Fail> {
    let rows = rows_at(rt.alloc(), &SCATTERED)?;
    make_of_rows(rt.alloc(), &rows)
}
