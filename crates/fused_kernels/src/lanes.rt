//! Lanes: the values of a vector, sixteen at a time.
ghost use Rattle.std.specs.Prelude.{◌≡◌, ℕ, ◌+◌, ◌*◌, ◌<◌, ◌≤◌, ◌&&◌, not, nat_lt};
ghost use Rattle.transpose_order.specs.Mask.{has, rows_of};
ghost use Rattle.transpose_order.specs.Place.{place_of};
ghost use Rattle.bit_interleave.specs.Range.{value_at};
ghost use Rattle.fused_kernels.specs.Seen.{LanesSeen, AreLanes, next_of, given_of, looked_at};

use std::simd::prelude::*;
use transpose_order::Mask;

/// A vector's values in 64 pieces of sixteen, and which of its 1024 rows are covered and null.
pub trait Lanes {
    ghost seen: { Self → LanesSeen };

    /// The lane width in bits: 8, 16, 32 or 64. It says which rows a piece has.
    fn lane_width(&self) -> usize
        ensures value { result ≡ (seen self.now).lane_width }
        ensures form { AreLanes (seen self.now) };

    /// How many rows are covered, at most 1024.
    fn rows(&self) -> usize
        ensures value { result ≡ (seen self.now).rows }
        ensures form { AreLanes (seen self.now) };

    /// The rows that are null.
    fn nulls(&self) -> Mask
        ensures { result ≡ (seen self.now).nulls };

    /// The next piece, of which there are 64. Element i is the value at row `64 * i + place_in_word(lane_width, piece)`, if `piece`
    /// pieces were given before. There is no other way to a value.
    fn next_piece(&mut self) -> Simd<i64, 16>
        requires { (seen self.old).given < 64 }
        ensures piece { result ≡ next_of (seen self.old) }
        ensures one { seen self.new ≡ given_of (seen self.old) ((seen self.old).given + 1) };
}

/// The next piece as an array: element i is the value at row `64 * i + place_in_word(lane_width, piece)`.
#[inline(always)]
pub(crate) fn next_values<L: Lanes>(lanes: &mut L) -> [i64; 16]
    requires form { AreLanes (L.seen lanes.old) }
    requires more { (L.seen lanes.old).given < 64 }
    ensures values { (i : ℕ) → i < 16 → value_at result i
        ≡ value_at (L.seen lanes.old).values (64 * i + place_of (L.seen lanes.old).lane_width (L.seen lanes.old).given) }
    ensures one { L.seen lanes.new ≡ given_of (L.seen lanes.old) ((L.seen lanes.old).given + 1) }
{
    lanes.next_piece().to_array()
}

/// The rows that are covered, are in the mask and are not null.
pub(crate) fn rows_among(rows: usize, nulls: &Mask, mask: &Mask) -> Mask
    requires { rows ≤ 1024 }
    ensures { result ≡ rows_of (λ n. nat_lt n rows && (has mask.now n && not (has nulls.now n))) }
{
    let some = mask.and_not(nulls);
    if rows == 1024 {
        return some;
    }
    let mut covered = Mask::none();
    covered.set_range(0, rows, true);
    covered.and(&some)
}

/// The rows that a kernel looks at: those covered that the mask has and that aren't null.
pub(crate) fn rows_to_look_at<L: Lanes>(lanes: &L, mask: &Mask) -> Mask
    ensures rows { result ≡ rows_of (looked_at (L.seen lanes.now) mask.now) }
    ensures form { AreLanes (L.seen lanes.now) }
{
    rows_among(lanes.rows(), &lanes.nulls(), mask)
}
