//! The six comparisons of each row's value with a literal.
ghost use Rattle.std.specs.Prelude.{◌≡◌, ℕ, ◌&&◌, not, ℤ, FitsSigned, if◌then◌else◌};
ghost use Rattle.std.specs.Int.{w64};
ghost use Rattle.table_model.specs.Truth.{compared};
ghost use Rattle.transpose_order.specs.Mask.{rows_of};
ghost use Rattle.bit_interleave.specs.Range.{value_at};
ghost use Rattle.fused_kernels.specs.Seen.{LanesSeen, AreOnlyRead, looked_at, between};

use crate::lanes::Lanes;
use crate::ranges::compare_range;
use table_model::Op;
use transpose_order::Mask;

/// The range of numbers of 64 bits inside which a comparison with a literal holds, or, if the third part is false, outside which it
/// holds.
pub(crate) fn range_of(op: Op, literal: i128) -> (i128, i128, bool)
    ensures { (value : ℤ) → FitsSigned w64 value → compared op value literal
        ≡ (if result.2 then between result.0 result.1 value else not (between result.0 result.1 value)) }
{
    match op {
        Op::Equal => (literal, literal, true),
        Op::NotEqual => (literal, literal, false),
        Op::Less => (literal, i128::MAX, false),
        Op::LessOrEqual => (i128::MIN, literal, true),
        Op::Greater => (i128::MIN, literal, false),
        Op::GreaterOrEqual => (literal, i128::MAX, true),
    }
}

/// Of the rows looked at, those at which the comparison of the value with a literal holds, and those at which it doesn't. The lanes
/// have given no piece yet. The rows looked at are those of the mask that are covered and not null. If the literal takes more than
/// 64 bits, no value is read.
pub fn compare<L: Lanes>(lanes: &mut L, op: Op, literal: i128, mask: &Mask) -> (Mask, Mask)
    requires { (L.seen lanes.old).given ≡ 0 }
    ensures yes { result.0 ≡ rows_of (λ n. looked_at (L.seen lanes.old) mask.now n && compared op (value_at (L.seen lanes.old).values n) literal) }
    ensures no { result.1 ≡ rows_of (λ n. looked_at (L.seen lanes.old) mask.now n && not (compared op (value_at (L.seen lanes.old).values n) literal)) }
    ensures only_read { AreOnlyRead (L.seen lanes.old) (L.seen lanes.new) }
{
    let (low, high, inside) = range_of(op, literal);
    let (within, without) = compare_range(lanes, low, high, mask);
    if inside {
        return (within, without);
    }
    (without, within)
}
