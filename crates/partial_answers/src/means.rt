//! A mean by division first, so that no product leaves 128 bits.
ghost use Rattle.std.specs.Prelude.{◌≡◌, ◌<◌, ◌≤◌, ◌*◌, ◌^◌, ℕ, ℤ, None, FitsSigned, pos, ◌+ℤ◌, ◌*ℤ◌, int_div, int_rem};
ghost use Rattle.std.specs.Int.{w128};
ghost use Rattle.std.specs.Option.{IfSome};
ghost use Rattle.table_model.specs.Group.{IsWithin};

use table_model::MILLION;

/// A mean in millionths is that of the quotient and of the remainder.
pub fn mean_laws()
    ensures { (z : ℤ) (n : ℕ) → 0 < n → int_div (z *ℤ pos 1000000) (pos n) ≡ (int_div z (pos n) *ℤ pos 1000000) +ℤ int_div (int_rem z (pos n) *ℤ pos 1000000) (pos n) }
{}

/// The quotient of a sum.
fn quotient(count: u64, sum: i128) -> i128
    requires { 1 ≤ count }
    ensures { result ≡ int_div sum (pos count) }
{
    sum / i128::from(count)
}

/// What the remainder of a sum gives to the mean, in millionths.
fn rest(count: u64, sum: i128) -> i128
    requires { 1 ≤ count }
    ensures { result ≡ int_div (int_rem sum (pos count) *ℤ pos 1000000) (pos count) }
{
    let number = i128::from(count);
    sum % number * MILLION / number
}

/// A million times a number, if 128 bits hold that.
fn in_millionths(number: i128) -> Option<i128>
    ensures some { IfSome result (λ product. product ≡ number *ℤ pos 1000000) }
    ensures none { result ≡ None → FitsSigned w128 (number *ℤ pos 1000000) → ⊥ }
{
    number.checked_mul(MILLION)
}

/// The sum of two numbers, if 128 bits hold it.
fn added(a: i128, b: i128) -> Option<i128>
    ensures some { IfSome result (λ sum. sum ≡ a +ℤ b) }
    ensures none { result ≡ None → FitsSigned w128 (a +ℤ b) → ⊥ }
{
    a.checked_add(b)
}

/// The mean of values, given their number and their sum, in millionths and truncated toward zero. `None` if it leaves 128 bits,
/// which it never does if each value has at most 64.
pub fn mean_of(count: u64, sum: i128) -> Option<i128>
    requires { 1 ≤ count }
    ensures value { IfSome result (λ mean. mean ≡ int_div (sum *ℤ pos 1000000) (pos count)) }
    ensures none { result ≡ None → IsWithin (count * 2 ^ 63) sum → ⊥ }
{
    let whole = in_millionths(quotient(count, sum))?;
    let mean = added(whole, rest(count, sum))?;
    Some(mean)
}
