//! Lanes as values in row order.
ghost use Rattle.std.specs.Prelude.{◌≡◌, ◌≢◌, ℕ, ◌+◌, ◌*◌, ◌%◌, ◌<◌};
ghost use Rattle.bit_interleave.specs.Range.{value_at};
ghost use Rattle.fused_kernels.specs.Seen.{LanesSeen, AreOnlyRead};

use crate::lanes::{Lanes, next_values};
use transpose_order::place_in_word;

/// Writes the values of a piece to its rows, one in each 64.
#[inline(always)]
fn put_piece(piece: &[i64; 16], place: usize, values: &mut [i64; 1024])
    requires { place < 64 }
    ensures written { (i : ℕ) → i < 16 → value_at values.new (64 * i + place) ≡ value_at piece.now i }
    ensures others { (n : ℕ) → n % 64 ≢ place → value_at values.new n ≡ value_at values.old n }
{
    for i in 0..16 {
        values[64 * i + place] = piece[i];
    }
}

/// Writes the 1024 values of lanes, which have given no piece yet, in row order. A row that isn't covered or is null can get any
/// value.
pub fn decode_into<L: Lanes>(lanes: &mut L, values: &mut [i64; 1024])
    requires { (L.seen lanes.old).given ≡ 0 }
    ensures values { values.new ≡ (L.seen lanes.old).values }
    ensures only_read { AreOnlyRead (L.seen lanes.old) (L.seen lanes.new) }
{
    let lane_width = lanes.lane_width();
    for piece in 0..64 {
        let numbers = next_values(lanes);
        put_piece(&numbers, place_in_word(lane_width, piece), values);
    }
}
