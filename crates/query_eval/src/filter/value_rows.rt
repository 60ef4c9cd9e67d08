//! The rows of a vector whose value is a given one, or another than that of the row before.
ghost use Rattle.std.specs.Prelude.{◌≡◌, ◌+◌, ◌≤◌, cond, pos, slice_index_or};
ghost use Rattle.std.specs.Ordering.{int_eq};
ghost use Rattle.transpose_order.specs.Mask.{number_of_bits, rows_of};
ghost use Rattle.query_eval.specs.Slices.{differs_at};

use transpose_order::Mask;

/// Whether two numbers are the same.
#[inline(always)]
fn is_equal(a: i64, b: i64) -> bool
    ensures { result ≡ int_eq a b }
{
    a == b
}

/// The word whose bit `b` is whether the value at row `first + b` is a given one.
#[inline(always)]
fn equal_word(values: &[i64; 1024], value: i64, first: usize) -> u64
    requires { first + 64 ≤ 1024 }
    ensures { result ≡ number_of_bits 64 (λ b. cond (int_eq value (slice_index_or values.now (first + b) (pos 0))) 1 0) }
{
    let mut word = 0;
    for bit in 0..64 {
        word += u64::from(is_equal(value, values[first + bit])) << bit;
    }
    word
}

/// The rows whose value is a given one.
pub fn equal_rows(values: &[i64; 1024], value: i64) -> Mask
    ensures { result ≡ rows_of (λ n. int_eq value (slice_index_or values.now n (pos 0))) }
{
    let mut words = [0; 16];
    for index in 0..16 {
        words[index] = equal_word(values, value, 64 * index);
    }
    Mask::from_words(words)
}

/// The word whose bit `b` is whether the value at row `first + b` isn't that of the row before. Row 0 has none before it.
#[inline(always)]
fn changed_word(values: &[i64; 1024], first: usize) -> u64
    requires { first + 64 ≤ 1024 }
    ensures { result ≡ number_of_bits 64 (λ b. cond (differs_at values.now (first + b)) 1 0) }
{
    let mut word = 0;
    for bit in 0..64 {
        let row = first + bit;
        let same = is_equal(values[row.saturating_sub(1)], values[row]);
        word += u64::from(!same) << bit;
    }
    word
}

/// The rows whose value isn't that of the row before.
pub fn changed_rows(values: &[i64; 1024]) -> Mask
    ensures { result ≡ rows_of (differs_at values.now) }
{
    let mut words = [0; 16];
    for index in 0..16 {
        words[index] = changed_word(values, 64 * index);
    }
    Mask::from_words(words)
}
