//! Sets in use: what the contracts cannot say is that memory suffices, so each call that takes some is made here.
ghost use Rattle.std.specs.Prelude.{◌≡◌};

use catalogue_join::Held;
use std::alloc::{AllocError, Global};
use std::process::Abort;
use std::test::Fail;
use table_model::{BatchName, Number, Origin, RowName};

pub(crate) fn batch(origin: u32, number: u32) -> BatchName
    ensures { result ≡ record { origin = record { 0 = origin }; number = record { 0 = number } } }
{
    BatchName {
        origin: Origin(origin),
        number: Number(number),
    }
}

pub(crate) fn row(number: u32, ordinal: u16) -> RowName
    ensures { result ≡ record { batch = record { origin = record { 0 = 1 }; number = record { 0 = number } }; ordinal = ordinal } }
{
    RowName {
        batch: batch(1, number),
        ordinal,
    }
}

// The names of origin 1 with these numbers, each at least 1.
pub(crate) fn held_of(alloc: Global, numbers: &[u32]) -> Result<Held, AllocError> {
    let mut held = Held::new(alloc);
    for number in numbers {
        if *number > 0 {
            held.insert(batch(1, *number))?;
        }
    }
    Ok(held)
}

// The numbers of a set's names in order.
fn numbers_of(alloc: Global, held: &Held) -> Result<Vec<u32>, AllocError> {
    let mut numbers = Vec::new(alloc);
    for index in 0..held.len() {
        numbers.push(held.name(index).number.0)?;
    }
    Ok(numbers)
}

// The numbers of the names that the other set lacks, in order.
fn lacked_numbers(alloc: Global, held: &Held, other: &Held) -> Result<Vec<u32>, AllocError> {
    let mut numbers = Vec::new(alloc);
    for name in &held.missing_from(other)? {
        numbers.push(name.number.0)?;
    }
    Ok(numbers)
}

// A set of names of origin 1 has these numbers in order.
fn check_numbers(rt: &impl Abort, alloc: Global, held: &Held, names: &[u32]) -> Result<(), Fail> {
    let numbers = numbers_of(alloc, held)?;
    assert!(rt; numbers.as_slice() == names);
    Ok(())
}

// How many runs a set's names make, the fronts of origins 1 and 2, and whether 1.5 is held.
fn check_shape(rt: &impl Abort, held: &Held, shape: (usize, u32, u32, bool)) {
    let found = (
        held.runs().len(),
        held.front(Origin(1)),
        held.front(Origin(2)),
        held.holds(batch(1, 5)),
    );
    assert!(rt; found == shape);
}

// What a set with 1.1 alone lacks of a set.
fn check_lacked(rt: &impl Abort, alloc: Global, held: &Held, missing: &[u32]) -> Result<(), Fail> {
    let one = held_of(alloc, &[1])?;
    let lacked = lacked_numbers(alloc, held, &one)?;
    assert!(rt; lacked.as_slice() == missing);
    Ok(())
}

/// Numbers to be inserted, the names in order, how many runs they make, the front of origin 1, and what a set with 1.1 alone lacks.
type FrontRow = ([u32; 3], &'static [u32], usize, u32, &'static [u32]);

fn check_row(
    rt: &impl Abort,
    alloc: Global,
    (inserted, names, runs, front, missing): FrontRow,
) -> Result<(), Fail> {
    let held = held_of(alloc, &inserted)?;
    check_numbers(rt, alloc, &held, names)?;
    check_shape(rt, &held, (runs, front, 0, names.contains(&5)));
    check_lacked(rt, alloc, &held, missing)
}

// Worked out by hand.
const FRONTS: [FrontRow; 3] = [
    ([3, 1, 1], &[1, 3], 2, 1, &[3]),
    ([3, 1, 2], &[1, 2, 3], 1, 3, &[2, 3]),
    ([5, 4, 2], &[2, 4, 5], 2, 0, &[2, 4, 5]),
];

#[test]
fn a_front_rises_exactly_over_gapless_numbers(rt: HostRuntime) -> Result<(), Fail> {
    for &row in &FRONTS {
        check_row(&rt, rt.alloc(), row)?;
    }
    Ok(())
}
