//! The rows at which a comparison holds of two columns of numbers.
ghost use Rattle.std.specs.Prelude.{◌≡◌, ◌+◌, ◌≤◌, cond, int_lt, pos, slice_index_or};
ghost use Rattle.table_model.specs.Truth.{compared};
ghost use Rattle.transpose_order.specs.Mask.{number_of_bits, rows_of};

use table_model::Op;
use transpose_order::Mask;

/// Whether a number is below another.
#[inline(always)]
fn is_less(a: i64, b: i64) -> bool
    ensures { result ≡ int_lt a b }
{
    a < b
}

/// The word whose bit `b` is whether the left number of row `first + b` is below the right one. There is no branch for a row, so the
/// compiler makes vectors of it.
#[inline(always)]
fn less_word(left: &[i64; 1024], right: &[i64; 1024], first: usize) -> u64
    requires { first + 64 ≤ 1024 }
    ensures { result ≡ number_of_bits 64 (λ b. cond (int_lt (slice_index_or left.now (first + b) (pos 0)) (slice_index_or right.now (first + b) (pos 0))) 1 0) }
{
    let mut word = 0;
    for bit in 0..64 {
        word += u64::from(is_less(left[first + bit], right[first + bit])) << bit;
    }
    word
}

/// The rows at which the left number is below the right one.
fn less_rows(left: &[i64; 1024], right: &[i64; 1024]) -> Mask
    ensures { result ≡ rows_of (λ n. int_lt (slice_index_or left.now n (pos 0)) (slice_index_or right.now n (pos 0))) }
{
    let mut words = [0; 16];
    for index in 0..16 {
        words[index] = less_word(left, right, 64 * index);
    }
    Mask::from_words(words)
}

/// The rows at which a comparison holds of the left number and the right one.
pub fn compared_rows(op: Op, left: &[i64; 1024], right: &[i64; 1024]) -> Mask
    ensures { result ≡ rows_of (λ n. compared op (slice_index_or left.now n (pos 0)) (slice_index_or right.now n (pos 0))) }
{
    let low = less_rows(left, right);
    let high = less_rows(right, left);
    match op {
        Op::Equal => low.or(&high).not(),
        Op::NotEqual => low.or(&high),
        Op::Less => low,
        Op::LessOrEqual => high.not(),
        Op::Greater => high,
        Op::GreaterOrEqual => low.not(),
    }
}
