//! Vectors of 1024 values by patterns.
ghost use Rattle.transpose_order.specs.Place.{IsLaneWidth};
ghost use Rattle.bit_interleave.specs.Range.{AreInRange};

use bit_interleave::wrap;

/// What a vector holds: multiples of a step, one number, two in turn, or one up to a row and another from it on.
#[derive(Clone, Copy)]
pub enum Pattern {
    /// Row n has n times the step.
    Ramp(u64),
    /// Each row has the number.
    All(u64),
    /// The even rows have the first number and the odd ones the second.
    Alternating(u64, u64),
    /// The rows before the row have the first number, and it and those after it the second.
    ChangedAt(usize, u64, u64),
}

fn bits_at(pattern: Pattern, row: usize) -> u64 {
    match pattern {
        Pattern::Ramp(step) => step.wrapping_mul(row as u64),
        Pattern::All(bits) => bits,
        Pattern::Alternating(even, odd) => { if row % 2 == 0 { even } else { odd } }
        Pattern::ChangedAt(change, before, after) => { if row < change { before } else { after } }
    }
}

/// The vector of a pattern, each value cut to `lane_width` bits, 8, 16, 32 or 64, and read as signed.
pub fn column(lane_width: usize, pattern: Pattern) -> [i64; 1024]
    requires { IsLaneWidth lane_width }
    ensures { AreInRange lane_width result }
{
    let mut values = [0; 1024];
    for row in 0..1024 {
        values[row] = wrap(lane_width, bits_at(pattern, row));
    }
    values
}
