//! The values of a column under DISTINCT, row by row.
ghost use Rattle.std.specs.Prelude.{◌≡◌, ◌||◌, cond, true, ℤ, Some, IfSome, OnOk};
ghost use Rattle.std.specs.List.{list_any};
ghost use Rattle.std.specs.Ordering.{int_eq};
ghost use Rattle.query_eval.specs.Slices.{values_at};

use crate::tallies::seen::Seen;
use std::alloc::AllocError;
use transpose_order::Mask;

/// Whether a value is that of the row before, if there is one.
#[inline(always)]
fn came_before(before: Option<i64>, value: i64) -> bool
    ensures { result ≡ true → before ≡ Some value }
{
    match before {
        None => false,
        Some(before) => before == value,
    }
}

/// Adds a value to values that have that of the row before. If the two are the same, nothing is added.
#[inline(always)]
fn add_after(seen: &mut Seen, before: Option<i64>, value: i64) -> Result<(), AllocError>
    requires { IfSome before (λ last. list_any (int_eq last) seen.old.values ≡ true) }
    ensures values { OnOk result ((z : ℤ) → list_any (int_eq z) seen.new.values ≡ cond (int_eq value z) true (list_any (int_eq z) seen.old.values)) }
    ensures there { OnOk result (list_any (int_eq value) seen.new.values ≡ true) }
{
    if !came_before(before, value) {
        seen.insert(value)?;
    }
    Ok(())
}

/// Adds the values at the rows of a mask. A value that is that of the row before is not added again.
pub(crate) fn add_values(
    seen: &mut Seen,
    rows: &Mask,
    values: &[i64; 1024],
) -> Result<(), AllocError>
    ensures { OnOk result ((z : ℤ) → list_any (int_eq z) seen.new.values ≡ (list_any (int_eq z) seen.old.values || list_any (int_eq z) (values_at rows.now values.now))) }
{
    let mut before = None;
    for row in 0..1024 {
        if rows.get(row) {
            let value = values[row];
            add_after(seen, before, value)?;
            before = Some(value);
        }
    }
    Ok(())
}
