//! The example of frame_delta's README, which has the same text.
use frame_delta::{Delta, For};
use std::alloc::Global;
use std::test::Fail;
use test_support::{Pattern, agree, column};

/// Codes the values 0, 3, 6 and so on: as a frame each takes 12 bits, and as deltas none.
fn code_a_ramp(alloc: Global) -> Result<(), Fail> {
    let values = column(32, Pattern::Ramp(3));
    let frame = For::encode(alloc, &values, 32)?;
    let deltas = Delta::encode(alloc, &values, 32)?;
    agree((frame.bytes_len(), deltas.bytes_len()), (1540, 132))?;
    let mut back = [0; 1024];
    deltas.decode(&mut back);
    agree(back.as_slice(), values.as_slice())
}

#[test]
fn the_example_holds(rt: HostRuntime) -> Result<(), Fail> {
    code_a_ramp(rt.alloc())
}
