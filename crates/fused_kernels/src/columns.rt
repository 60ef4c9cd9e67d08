//! The six comparisons of two columns, row by row.
ghost use Rattle.std.specs.Prelude.{◌≡◌, ◌==◌, ℕ, ◌+◌, ◌<◌, ◌≤◌, ◌&&◌, not, int_lt};
ghost use Rattle.std.specs.Int.{bit_at};
ghost use Rattle.std.specs.Ordering.{int_eq};
ghost use Rattle.table_model.specs.Truth.{compared};
ghost use Rattle.transpose_order.specs.Mask.{rows_of};
ghost use Rattle.bit_interleave.specs.Range.{value_at};
ghost use Rattle.fused_kernels.specs.Seen.{LanesSeen, AreOnlyRead, looked_at};

use crate::decoding::decode_into;
use crate::lanes::{Lanes, rows_to_look_at};
use native_lanes::with_bit;
use table_model::Op;
use transpose_order::Mask;

/// For 64 rows from `first` on, whether the left value is less.
#[inline(always)]
fn less_in_word(left: &[i64; 1024], right: &[i64; 1024], first: usize) -> u64
    requires { first + 64 ≤ 1024 }
    ensures { (p : ℕ) → p < 64 → (bit_at result p == 1) ≡ int_lt (value_at left.now (first + p)) (value_at right.now (first + p)) }
{
    let mut word = 0;
    for p in 0..64 {
        word = with_bit(word, p, left[first + p] < right[first + p]);
    }
    word
}

/// For 64 rows from `first` on, whether the values are equal.
#[inline(always)]
fn equal_in_word(left: &[i64; 1024], right: &[i64; 1024], first: usize) -> u64
    requires { first + 64 ≤ 1024 }
    ensures { (p : ℕ) → p < 64 → (bit_at result p == 1) ≡ int_eq (value_at left.now (first + p)) (value_at right.now (first + p)) }
{
    let mut word = 0;
    for p in 0..64 {
        word = with_bit(word, p, left[first + p] == right[first + p]);
    }
    word
}

/// The rows whose left value is less.
fn less_rows(left: &[i64; 1024], right: &[i64; 1024]) -> Mask
    ensures { result ≡ rows_of (λ n. int_lt (value_at left.now n) (value_at right.now n)) }
{
    let mut words = [0; 16];
    for j in 0..16 {
        words[j] = less_in_word(left, right, 64 * j);
    }
    Mask::from_words(words)
}

/// The rows whose values are equal.
fn equal_rows(left: &[i64; 1024], right: &[i64; 1024]) -> Mask
    ensures { result ≡ rows_of (λ n. int_eq (value_at left.now n) (value_at right.now n)) }
{
    let mut words = [0; 16];
    for j in 0..16 {
        words[j] = equal_in_word(left, right, 64 * j);
    }
    Mask::from_words(words)
}

/// The rows at which a comparison holds.
pub(crate) fn rows_where(left: &[i64; 1024], op: Op, right: &[i64; 1024]) -> Mask
    ensures { result ≡ rows_of (λ n. compared op (value_at left.now n) (value_at right.now n)) }
{
    match op {
        Op::Equal => equal_rows(left, right),
        Op::NotEqual => equal_rows(left, right).not(),
        Op::Less => less_rows(left, right),
        Op::LessOrEqual => less_rows(right, left).not(),
        Op::Greater => less_rows(right, left),
        Op::GreaterOrEqual => less_rows(left, right).not(),
    }
}

/// Of the rows looked at, those at which the comparison of the two values holds, and those at which it doesn't. Neither of the two
/// lanes has given a piece yet; their lane widths may differ. The rows looked at are those of the mask that both cover and that are
/// null in neither.
pub fn compare_columns<A: Lanes, B: Lanes>(
    left: &mut A,
    op: Op,
    right: &mut B,
    mask: &Mask,
) -> (Mask, Mask)
    requires left { (A.seen left.old).given ≡ 0 }
    requires right { (B.seen right.old).given ≡ 0 }
    ensures yes { result.0 ≡ rows_of (λ n. (looked_at (A.seen left.old) mask.now n && looked_at (B.seen right.old) mask.now n)
        && compared op (value_at (A.seen left.old).values n) (value_at (B.seen right.old).values n)) }
    ensures no { result.1 ≡ rows_of (λ n. (looked_at (A.seen left.old) mask.now n && looked_at (B.seen right.old) mask.now n)
        && not (compared op (value_at (A.seen left.old).values n) (value_at (B.seen right.old).values n))) }
    ensures left { AreOnlyRead (A.seen left.old) (A.seen left.new) }
    ensures right { AreOnlyRead (B.seen right.old) (B.seen right.new) }
{
    let rows = rows_to_look_at(left, mask).and(&rows_to_look_at(right, mask));
    let mut lefts = [0; 1024];
    let mut rights = [0; 1024];
    decode_into(left, &mut lefts);
    decode_into(right, &mut rights);
    let found = rows_where(&lefts, op, &rights);
    (rows.and(&found), rows.and_not(&found))
}
