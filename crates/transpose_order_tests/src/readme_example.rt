//! The example of transpose_order's README, which has the same text.
use std::test::Fail;
use test_support::agree;
use transpose_order::{Mask, place, position};

/// Finds the place of row 65 at a lane width of 32 bits, and counts rows of a mask.
fn place_a_row() -> Result<(), Fail> {
    agree(place(32, 65), (1, 1))?;
    agree(position(65), 129)?;
    let mut taken = Mask::none();
    taken.set_range(10, 20, true);
    let rest = taken.not();
    agree((taken.count(), rest.count()), (10, 1014))?;
    agree(rest.next_true(10), 20)
}

#[test]
fn the_example_holds() -> Result<(), Fail> {
    place_a_row()
}
