//! The least or the greatest of the values that a mask has.
ghost use Rattle.std.specs.Prelude.{◌≡◌, ◌==◌, ℕ, ◌-◌, ◌^◌, ◌<◌, cond, slice_index, negsuc};
ghost use Rattle.std.specs.Int.{bit_at, int_max};
ghost use Rattle.bit_interleave.specs.Range.{value_at};
ghost use Rattle.table_model.specs.Extreme.{extreme_of, turned};
ghost use Rattle.fused_kernels.specs.Seen.{LanesSeen, AreOnlyRead, values_looked_at};
ghost use Rattle.native_lanes.specs.Folds.{fold_to};

use crate::lanes::{Lanes, next_values, rows_to_look_at};
use table_model::Extreme;
use transpose_order::{Mask, greater_if, place_in_word};

/// Raises each of sixteen numbers to its lane's, flipped if the least is asked for, if the row's bit is set.
#[inline(always)]
fn raise(
    greatests: &mut [i64; 16],
    side: Extreme,
    numbers: &[i64; 16],
    words: &[u64; 16],
    place: usize,
)
    requires { place < 64 }
    ensures { (i : ℕ) → i < 16 → value_at greatests.new i
        ≡ cond (bit_at (slice_index words.now i) place == 1) (int_max (value_at greatests.old i) (turned side (value_at numbers.now i))) (value_at greatests.old i) }
{
    for i in 0..16 {
        let number = side.turned(numbers[i]);
        greatests[i] = greater_if(words[i] >> place & 1 == 1, greatests[i], number);
    }
}

/// The greatest of sixteen numbers.
fn greatest_of(numbers: &[i64; 16]) -> i64
    ensures { result ≡ fold_to int_max (negsuc (2 ^ 63 - 1)) 16 (value_at numbers.now) }
{
    let mut greatest = i64::MIN;
    for i in 0..16 {
        greatest = greatest.max(numbers[i]);
    }
    greatest
}

/// The least or the greatest value of the rows looked at, none over none. The lanes have given no piece yet. The rows looked at are
/// those of the mask that are covered and not null.
pub fn extreme<L: Lanes>(side: Extreme, lanes: &mut L, mask: &Mask) -> Option<i64>
    requires { (L.seen lanes.old).given ≡ 0 }
    ensures value { result ≡ extreme_of side (values_looked_at (L.seen lanes.old) mask.now) }
    ensures only_read { AreOnlyRead (L.seen lanes.old) (L.seen lanes.new) }
{
    let lane_width = lanes.lane_width();
    let rows = rows_to_look_at(lanes, mask);
    let mut greatests = [i64::MIN; 16];
    for piece in 0..64 {
        let numbers = next_values(lanes);
        raise(
            &mut greatests,
            side,
            &numbers,
            rows.words(),
            place_in_word(lane_width, piece),
        );
    }
    if rows.count() == 0 {
        return None;
    }
    Some(side.turned(greatest_of(&greatests)))
}
