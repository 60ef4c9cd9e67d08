//! Calls of words and values, each with a growth refused. A test's own growths are counted from 1: with the Nth refused, a test
//! fails by an `AllocError` of its set-up, or, if it was a growth of the call that it is of, as `growth_refused` says; with
//! none refused it passes. The command `tests/refused-memory` refuses each in turn and counts those texts.
ghost use Rattle.std.specs.Prelude.{◌<◌};
ghost use Rattle.transpose_order.specs.Place.{IsLaneWidth};

use bit_interleave::{Values, Words};
use std::alloc::{AllocError, Global};
use std::test::Fail;
use test_support::growth_refused;

/// The numbers of these tests' words, which fit 8 bits.
const NUMBERS: [u64; 4] = [1, 255, 0, 128];

/// The numbers of these tests' values, which are in the range of 8 bits.
const VALUES: [i64; 3] = [-128, 0, 127];

/// Whether words have the numbers of these tests.
fn has_numbers(words: &Words) -> bool {
    if words.len() != NUMBERS.len() {
        return false;
    }
    for i in 0..NUMBERS.len() {
        if words.word(i) != NUMBERS[i] {
            return false;
        }
    }
    true
}

/// Whether words were made, and have the numbers of these tests.
fn is_made(made: &Result<Words, AllocError>) -> bool {
    match made {
        Ok(words) => has_numbers(words),
        Err(AllocError) => false,
    }
}

/// Makes words of these tests' numbers.
fn make(alloc: Global, lane_width: usize) -> Result<(), Fail>
    requires { IsLaneWidth lane_width }
{
    match Words::from_numbers(alloc, lane_width, &NUMBERS) {
        Ok(words) => if has_numbers(&words) {
            Ok(())
        } else {
            growth_refused(false)
        },
        Err(AllocError) => growth_refused(is_made(&Words::from_numbers(
            alloc, lane_width, &NUMBERS,
        ))),
    }
}

#[test]
fn refused_words_can_be_made_again(rt: HostRuntime) -> Result<(), Fail> {
    make(rt.alloc(), 8)?;
    make(rt.alloc(), 16)?;
    make(rt.alloc(), 32)?;
    make(rt.alloc(), 64)
}

/// Copies the words of these tests.
fn copy(alloc: Global, lane_width: usize) -> Result<(), Fail>
    requires { IsLaneWidth lane_width }
{
    let words = Words::from_numbers(alloc, lane_width, &NUMBERS)?;
    match words.copy(alloc) {
        Ok(copied) => if has_numbers(&copied) {
            Ok(())
        } else {
            growth_refused(false)
        },
        Err(AllocError) => growth_refused(has_numbers(&words) && is_made(&words.copy(alloc))),
    }
}

#[test]
fn a_refused_copy_leaves_its_words(rt: HostRuntime) -> Result<(), Fail> {
    copy(rt.alloc(), 8)?;
    copy(rt.alloc(), 16)?;
    copy(rt.alloc(), 32)?;
    copy(rt.alloc(), 64)
}

/// Whether values are those of these tests.
fn has_values(values: &Values) -> bool {
    if values.len() != VALUES.len() {
        return false;
    }
    for i in 0..VALUES.len() {
        if values.get(i) != VALUES[i] {
            return false;
        }
    }
    true
}

/// Whether values were made, and are those of these tests.
fn are_made(made: &Result<Values, AllocError>) -> bool {
    match made {
        Ok(values) => has_values(values),
        Err(AllocError) => false,
    }
}

/// Makes values of these tests' numbers.
fn make_values(alloc: Global, lane_width: usize) -> Result<(), Fail>
    requires { IsLaneWidth lane_width }
{
    match Values::from_slice(alloc, lane_width, &VALUES) {
        Ok(values) => if has_values(&values) {
            Ok(())
        } else {
            growth_refused(false)
        },
        Err(AllocError) => growth_refused(are_made(&Values::from_slice(
            alloc, lane_width, &VALUES,
        ))),
    }
}

#[test]
fn refused_values_can_be_made_again(rt: HostRuntime) -> Result<(), Fail> {
    make_values(rt.alloc(), 8)?;
    make_values(rt.alloc(), 16)?;
    make_values(rt.alloc(), 32)?;
    make_values(rt.alloc(), 64)
}

/// Copies the values of these tests.
fn copy_values(alloc: Global, lane_width: usize) -> Result<(), Fail>
    requires { IsLaneWidth lane_width }
{
    let values = Values::from_slice(alloc, lane_width, &VALUES)?;
    match values.copy(alloc) {
        Ok(copied) => if has_values(&copied) {
            Ok(())
        } else {
            growth_refused(false)
        },
        Err(AllocError) => growth_refused(has_values(&values) && are_made(&values.copy(alloc))),
    }
}

#[test]
fn a_refused_copy_leaves_its_values(rt: HostRuntime) -> Result<(), Fail> {
    copy_values(rt.alloc(), 8)?;
    copy_values(rt.alloc(), 16)?;
    copy_values(rt.alloc(), 32)?;
    copy_values(rt.alloc(), 64)
}
