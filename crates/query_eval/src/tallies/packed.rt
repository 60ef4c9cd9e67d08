//! Values packed with a count, so that one sum gives both their number and their sum.
ghost use Rattle.std.specs.Prelude.{◌≡◌, ◌≤◌, ◌<◌, ◌^◌, ◌+ℤ◌, List, ℤ, length, pos, true};
ghost use Rattle.table_model.specs.Values.{total};
ghost use Rattle.query_eval.specs.Packed.{ArePackable, ArePacked, IsPackable, packed_sum};

use crate::tallies::forms::Form;
use transpose_order::{Mask, raised_if};

/// How far a value is above -2^41, modulo 2^64.
#[inline(always)]
fn raised(value: i64) -> u64
    ensures { result < 2 ^ 42 → IsPackable value }
{
    raised_if(true, value).wrapping_sub((1 << 63) - (1 << 41))
}

/// Whether values can be packed: each is at least -2^41 and below 2^41.
pub fn are_packable(values: &[i64; 1024]) -> bool
    ensures { result ≡ true → ArePackable values.now }
{
    let mut bits: u64 = 0;
    for row in 0..1024 {
        bits |= raised(values[row]);
    }
    bits < 1 << 42
}

/// Packs the values at the rows of a mask: each is 2048 times itself and 1 more, and at the other rows there is 0.
pub fn pack(values: &[i64; 1024], rows: &Mask, packed: &mut [i64; 1024])
    requires { ArePackable values.now }
    ensures { ArePacked rows.now values.now packed.new }
{
    Form::Packed.write(values, rows, packed);
}

/// How many values a packed sum has, and their sum.
pub fn unpacked(sum: i64) -> (usize, i128)
    ensures count { (values : List ℤ) → length values ≤ 1024 → sum ≡ packed_sum values → result.0 ≡ length values }
    ensures sum { (values : List ℤ) → length values ≤ 1024 → sum ≡ packed_sum values → result.1 ≡ total values }
{
    let count = sum & 2047;
    (count as usize, i128::from(sum >> 11))
}
