//! Values, each once and in ascending order.
ghost use Rattle.std.specs.Prelude.{◌≡◌, ◌&&◌, nat_lt, length, ℤ, IfOk};
ghost use Rattle.std.specs.List.{list_any};
ghost use Rattle.std.specs.List.Sorted.{IsStrictlySortedBy};
ghost use Rattle.std.specs.Ordering.{int_cmp, int_eq};
ghost use Rattle.partial_answers.specs.Kept.{HasValuesOf};

use query_eval::Seen;
use std::alloc::{AllocError, Global};
use std::marker::Model;

/// Values, each once and in ascending order. Contracts see them as that list.
#[derive(Drop)]
pub struct Values {
    items: Vec<i64>,
}

impl Model for Values {
    ghost use Rattle.std.specs.Prelude.{List, ℤ};
    ghost use Rattle.std.specs.List.Sorted.{IsStrictlySortedBy};
    ghost use Rattle.std.specs.Ordering.{int_cmp};

    ghost Value = { List ℤ };

    ghost view = { λ v. v.items.items };

    ghost invariant = { λ v. IsStrictlySortedBy int_cmp v.items.items };
}

impl Values {
    /// Values that ascend strictly. It takes no memory.
    pub fn from_rising(items: Vec<i64>) -> Values
        requires { IsStrictlySortedBy int_cmp items.items }
        ensures { result ≡ items.items }
    {
        Values { items }
    }

    /// The values that the evaluator has seen of a group under DISTINCT.
    pub fn of_seen(alloc: Global, seen: &Seen) -> Result<Values, AllocError>
        ensures { IfOk result (λ values. (z : ℤ) → list_any (int_eq z) values ≡ list_any (int_eq z) seen.now.values) }
    {
        let items = sorted_values(alloc, seen)?;
        Ok(Values { items })
    }

    /// The values, from the least on.
    pub fn as_slice(&self) -> &[i64]
        ensures value { result.now ≡ self.now }
        ensures rising { IsStrictlySortedBy int_cmp result.now }
    {
        self.items.as_slice()
    }

    /// These values and others that ascend strictly, each once.
    pub fn joined(&self, alloc: Global, other: &[i64]) -> Result<Values, AllocError>
        requires { IsStrictlySortedBy int_cmp other.now }
        ensures { IfOk result (λ both. HasValuesOf both self.now other.now) }
    {
        let items = merged(alloc, self.items.as_slice(), other)?;
        Ok(Values { items })
    }
}

/// The values that the evaluator has seen, in ascending order.
fn sorted_values(alloc: Global, seen: &Seen) -> Result<Vec<i64>, AllocError>
    ensures values { IfOk result (λ values. (z : ℤ) → list_any (int_eq z) values.items ≡ list_any (int_eq z) seen.now.values) }
    ensures rising { IfOk result (λ values. IsStrictlySortedBy int_cmp values.items) }
{
    let mut values = seen.values(alloc)?;
    values.sort_unstable();
    Ok(values)
}

/// Whether two lists have a value each at two places.
fn have_both(a: &[i64], i: usize, b: &[i64], j: usize) -> bool
    ensures { result ≡ (nat_lt i (length a.now) && nat_lt j (length b.now)) }
{
    i < a.len() && j < b.len()
}

/// The values of two ascending lists, each once, in ascending order.
fn merged(alloc: Global, a: &[i64], b: &[i64]) -> Result<Vec<i64>, AllocError>
    requires first { IsStrictlySortedBy int_cmp a.now }
    requires second { IsStrictlySortedBy int_cmp b.now }
    ensures values { IfOk result (λ both. HasValuesOf both.items a.now b.now) }
    ensures rising { IfOk result (λ both. IsStrictlySortedBy int_cmp both.items) }
{
    let mut both = Vec::new(alloc);
    let mut i = 0;
    let mut j = 0;
    while have_both(a, i, b, j) {
        let x = a[i];
        let y = b[j];
        if x < y {
            both.push(x)?;
            i += 1;
        } else if y < x {
            both.push(y)?;
            j += 1;
        } else {
            both.push(x)?;
            i += 1;
            j += 1;
        }
    }
    both.extend_from_slice(&a[i..])?;
    both.extend_from_slice(&b[j..])?;
    Ok(both)
}
