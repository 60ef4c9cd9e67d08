//! What least values, greatest values and sums take of a number that may not count.
ghost use Rattle.std.specs.Prelude.{◌≡◌, cond, ◌^◌, pos, ◌+ℤ◌};
ghost use Rattle.std.specs.Int.{int_max};

/// The greater of two numbers if the second is taken, otherwise the first.
#[inline(always)]
pub fn greater_if(taken: bool, greatest: i64, number: i64) -> i64
    ensures { result ≡ cond taken (int_max greatest number) greatest }
{
    if taken {
        greatest.max(number)
    } else {
        greatest
    }
}

/// How far a number is above the least of 64 bits if it is taken, otherwise 0.
#[inline(always)]
pub fn raised_if(taken: bool, number: i64) -> u64
    ensures { pos result ≡ cond taken (number +ℤ pos (2 ^ 63)) (pos 0) }
{
    if taken {
        number.cast_unsigned().wrapping_add(1 << 63)
    } else {
        0
    }
}
