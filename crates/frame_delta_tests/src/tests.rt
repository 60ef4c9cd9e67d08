//! Coded vectors at values worked out by hand from the definitions.
ghost use Rattle.std.specs.Prelude.{◌<◌};

use frame_delta::Delta;
use std::simd::prelude::*;
use std::test::Fail;
use test_support::{Pattern, agree, column};

/// The deltas of a ramp by 3 at 32 bits. Lane 0 begins at row 0, lane 1 at row 64, lane 16 at row 32: 0, 192 and 96, less the
/// least delta 3.
fn has_bases_of_a_ramp(coded: &Delta) -> Result<(), Fail> {
    agree((coded.least(), coded.width()), (3, 0))?;
    let bases = coded.bases();
    agree(bases.lane_width(), 32)?;
    if bases.len() != 32 {
        return agree(bases.len(), 32);
    }
    agree((bases.get(0), bases.get(1), bases.get(16)), (-3, 189, 93))
}

#[test]
fn bases_stand_in_lane_order(rt: HostRuntime) -> Result<(), Fail> {
    let coded = Delta::encode(rt.alloc(), &column(32, Pattern::Ramp(3)), 32)?;
    has_bases_of_a_ramp(&coded)
}
