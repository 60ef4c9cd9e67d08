//! Fields of set functions, from counts, sums and lists of values.
ghost use Rattle.std.specs.Prelude.{◌≡◌, ◌≤◌, ◌*◌, ◌^◌, List, ℤ, length};
ghost use Rattle.table_model.specs.Answer.{whole, millionths};
ghost use Rattle.table_model.specs.Group.{IsWithin, state_row_limit, sum_limit};
ghost use Rattle.table_model.specs.Meaning.{fold_value};
ghost use Rattle.table_model.specs.Values.{total, total_or_null, mean};

use table_model::{Extreme, Field, Fold};

/// A whole number, or null.
pub fn whole_field(value: Option<i64>) -> Field
    ensures { result ≡ whole value }
{
    match value {
        None => Field::Null,
        Some(value) => Field::Whole(i128::from(value)),
    }
}

/// SUM of values, given their number and their sum.
pub fn sum_field(count: u128, sum: i128) -> Field
    ensures { (zs : List ℤ) → count ≡ length zs → sum ≡ total zs → result ≡ whole (total_or_null zs) }
{
    if count == 0 {
        Field::Null
    } else {
        Field::Whole(sum)
    }
}

/// AVG of values, given their number and their sum: in millionths, truncated toward zero.
pub fn mean_field(count: u128, sum: i128) -> Field
    requires count { count ≤ 2 ^ 96 }
    requires sum { IsWithin sum_limit sum }
    ensures { (zs : List ℤ) → count ≡ length zs → sum ≡ total zs → result ≡ millionths (mean zs) }
{
    if count == 0 {
        Field::Null
    } else {
        Field::Millionths(sum * 1_000_000 / count as i128)
    }
}

/// The sum of some values.
pub(crate) fn sum_of(values: &[i64]) -> i128
    requires { length values.now ≤ state_row_limit }
    ensures value { result ≡ total values.now }
    ensures within { IsWithin sum_limit result }
{
    let mut sum = 0;
    for value in values {
        sum += i128::from(*value);
    }
    sum
}

/// A set function of some values.
pub fn values_field(fold: Fold, values: &[i64]) -> Field
    requires { length values.now ≤ state_row_limit }
    ensures { result ≡ fold_value fold values.now }
{
    match fold {
        Fold::Count => Field::Whole(values.len() as i128),
        Fold::Sum => sum_field(values.len() as u128, sum_of(values)),
        Fold::Avg => mean_field(values.len() as u128, sum_of(values)),
        Fold::Min => whole_field(Extreme::Least.of(values)),
        Fold::Max => whole_field(Extreme::Greatest.of(values)),
    }
}
