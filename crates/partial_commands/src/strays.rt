//! The names of batches of which rows are deleted and which are not held.
ghost use Rattle.std.specs.Prelude.{◌≡◌, ◌&&◌, not, IfOk};
ghost use Rattle.std.specs.FinSet as set;
ghost use Rattle.std.specs.List.{list_any};
ghost use Rattle.table_model.specs.declared.names.BatchName.{BatchName};
ghost use Rattle.catalogue_join.specs.RowRange.{AreMaximal};
ghost use Rattle.partial_commands.specs.StorePartialAnswer.{batches_deleted, is_of_batch};

use catalogue_join::{Held, Tombs};
use std::alloc::{AllocError, Global};
use table_model::RowName;

/// The batches of some ranges of rows, without those that are held.
fn batches_not_held(
    alloc: Global,
    ranges: &[(RowName, u16)],
    held: &Held,
) -> Result<Held, AllocError>
    requires { AreMaximal ranges.now }
    ensures { IfOk result (λ names. (q : BatchName) → set.contains names q ≡ (list_any (is_of_batch q) ranges.now && not (set.contains held.now q))) }
{
    let mut names = Held::new(alloc);
    for range in ranges {
        let batch = range.0.batch;
        if !held.holds(batch) {
            names.insert(batch)?;
        }
    }
    Ok(names)
}

/// The batches of which rows are deleted, without those that are held.
pub fn stray_names(alloc: Global, tombs: &Tombs, held: &Held) -> Result<Held, AllocError>
    ensures { IfOk result (λ names. names ≡ set.difference (batches_deleted tombs.now) held.now) }
{
    let names = batches_not_held(alloc, tombs.ranges(), held)?;
    Ok(names)
}
