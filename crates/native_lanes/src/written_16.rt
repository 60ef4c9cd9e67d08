//! Values of 16 bits written to their rows, all 64 lanes of a step at once.
ghost use Rattle.std.specs.Prelude.{◌≡◌, ◌≢◌, ℕ, ◌+◌, ◌*◌, ◌^◌, ◌%◌, ◌<◌, slice_index, pos, ◌+ℤ◌};
ghost use Rattle.transpose_order.specs.Place.{lane_of};
ghost use Rattle.bit_interleave.specs.Range.{value_at};

/// The value of 16 bits that is this far above the least of them.
#[inline(always)]
fn value_above(number: u16) -> i64
    ensures { pos number ≡ result +ℤ pos (2 ^ 15) }
{
    i64::from(number) - 0x8000
}

/// Writes the values of a group of sixteen lanes to the rows at a place of each 64. A lane's number is how far its value is above
/// the least of 16 bits.
#[inline(always)]
fn put_group(numbers: &[u16; 64], group: usize, place: usize, values: &mut [i64; 1024])
    requires group { group < 4 }
    requires place { place < 64 }
    ensures written { (i : ℕ) → i < 16 → pos (slice_index numbers.now (16 * group + i)) ≡ value_at values.new (64 * i + place) +ℤ pos (2 ^ 15) }
    ensures others { (n : ℕ) → n % 64 ≢ place → value_at values.new n ≡ value_at values.old n }
{
    for i in 0..16 {
        values[64 * i + place] = value_above(numbers[16 * group + i]);
    }
}

/// Writes the values of all lanes at a step to their rows. A lane's number is how far its value is above the least of 16 bits.
#[inline(always)]
pub(crate) fn put_step(numbers: &[u16; 64], step: usize, values: &mut [i64; 1024])
    requires { step < 16 }
    ensures written { (n : ℕ) → n < 1024 → n % 16 ≡ step → pos (slice_index numbers.now (lane_of 16 n)) ≡ value_at values.new n +ℤ pos (2 ^ 15) }
    ensures others { (n : ℕ) → n % 16 ≢ step → value_at values.new n ≡ value_at values.old n }
{
    put_group(numbers, 0, step, values);
    put_group(numbers, 2, step + 16, values);
    put_group(numbers, 1, step + 32, values);
    put_group(numbers, 3, step + 48, values);
}
