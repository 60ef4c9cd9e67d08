//! Calls that grow, each with a growth refused. A test's own growths are counted from 1: with the Nth refused, a test fails by an
//! `AllocError` of its set-up, or, if it was a growth of the call that it is of, as `growth_refused` says; with none refused
//! it passes. The command `tests/refused-memory` refuses each in turn and counts those texts.
use frame_delta::{Delta, For};
use std::alloc::{AllocError, Global};
use std::test::Fail;
use test_support::{Pattern, agree, column, growth_refused};

/// A vector whose differences are 9 and -9 at 16 bits, so that both codings have packed words of it.
const TWO_IN_TURN: Pattern = Pattern::Alternating(0, 9);

/// Whether a frame decodes to a vector.
fn is_frame_of(frame: &For, values: &[i64; 1024]) -> bool {
    let mut back = [1; 1024];
    frame.decode(&mut back);
    back.as_slice() == values.as_slice()
}

/// Whether a frame was made, and decodes to a vector.
fn is_made_frame(made: &Result<For, AllocError>, values: &[i64; 1024]) -> bool {
    match made {
        Ok(frame) => is_frame_of(frame, values),
        Err(AllocError) => false,
    }
}

#[test]
fn a_refused_encoding_gives_no_frame(rt: HostRuntime) -> Result<(), Fail> {
    let values = column(16, TWO_IN_TURN);
    match For::encode(rt.alloc(), &values, 16) {
        Ok(frame) => agree(is_frame_of(&frame, &values), true),
        Err(AllocError) => {
            let again = For::encode(rt.alloc(), &values, 16);
            growth_refused(is_made_frame(&again, &values))
        }
    }
}

/// A copy of a frame decodes to the vector, or is refused and leaves it.
fn frame_is_copied(alloc: Global, frame: &For, values: &[i64; 1024]) -> Result<(), Fail> {
    match frame.copy(alloc) {
        Ok(copy) => agree(is_frame_of(&copy, values), true),
        Err(AllocError) => {
            let again = frame.copy(alloc);
            growth_refused(is_frame_of(frame, values) && is_made_frame(&again, values))
        }
    }
}

#[test]
fn a_refused_copy_leaves_its_frame(rt: HostRuntime) -> Result<(), Fail> {
    let values = column(16, TWO_IN_TURN);
    let frame = For::encode(rt.alloc(), &values, 16)?;
    frame_is_copied(rt.alloc(), &frame, &values)
}

/// Whether deltas decode to a vector.
fn are_deltas_of(deltas: &Delta, values: &[i64; 1024]) -> bool {
    let mut back = [1; 1024];
    deltas.decode(&mut back);
    back.as_slice() == values.as_slice()
}

/// Whether deltas were made, and decode to a vector.
fn are_made_deltas(made: &Result<Delta, AllocError>, values: &[i64; 1024]) -> bool {
    match made {
        Ok(deltas) => are_deltas_of(deltas, values),
        Err(AllocError) => false,
    }
}

#[test]
fn a_refused_encoding_gives_no_deltas(rt: HostRuntime) -> Result<(), Fail> {
    let values = column(16, TWO_IN_TURN);
    match Delta::encode(rt.alloc(), &values, 16) {
        Ok(deltas) => agree(are_deltas_of(&deltas, &values), true),
        Err(AllocError) => {
            let again = Delta::encode(rt.alloc(), &values, 16);
            growth_refused(are_made_deltas(&again, &values))
        }
    }
}

/// A copy of deltas decodes to the vector, or is refused and leaves them.
fn deltas_are_copied(alloc: Global, deltas: &Delta, values: &[i64; 1024]) -> Result<(), Fail> {
    match deltas.copy(alloc) {
        Ok(copy) => agree(are_deltas_of(&copy, values), true),
        Err(AllocError) => {
            let again = deltas.copy(alloc);
            growth_refused(are_deltas_of(deltas, values) && are_made_deltas(&again, values))
        }
    }
}

#[test]
fn a_refused_copy_leaves_its_deltas(rt: HostRuntime) -> Result<(), Fail> {
    let values = column(16, TWO_IN_TURN);
    let deltas = Delta::encode(rt.alloc(), &values, 16)?;
    deltas_are_copied(rt.alloc(), &deltas, &values)
}
