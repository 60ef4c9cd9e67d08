//! The groups of a query with GROUP BY, when they are finished.
ghost use Rattle.std.specs.Prelude.{◌≡◌, ◌<◌, ◌≤◌, ℕ, List, None, map, length, slice_index_or, IfOk};
ghost use Rattle.std.specs.Global.{Vec as Items};
ghost use Rattle.std.specs.Option.{IfSome};
ghost use Rattle.query_eval.specs.declared.tallies.tally.Tally.{Tally as ATally};
ghost use Rattle.std.specs.List.Sorted.{IsStrictlySortedBy};
ghost use Rattle.std.specs.Map.{keys_of};
ghost use Rattle.table_model.specs.Group.{key_cmp};
ghost use Rattle.table_model.specs.State.{Cells};
ghost use Rattle.table_model.specs.Table.{Table};
ghost use Rattle.query_eval.specs.Aggregate.{aggregate_value};
ghost use Rattle.query_eval.specs.Finished.{fields_of};
ghost use Rattle.query_eval.specs.Grouping.{AreHeld, IsHeld};
ghost use Rattle.query_eval.specs.Kept.{AreFew};
ghost use Rattle.query_eval.specs.Taken.{AreAllFinished, AreFinished};

use crate::grouping::Key;
use crate::tallies::aggregate::Aggregate;
use crate::tallies::finished_group::FinishedGroup;
use crate::tallies::groups::Groups;
use crate::tallies::plan::Plan;
use crate::tallies::tally::Tally;
use std::alloc::{AllocError, Global};
use table_model::{Field, Fold};

/// The value of an aggregate by its tally.
pub(crate) fn value_of(
    alloc: Global,
    aggregate: Aggregate,
    tally: &Tally,
) -> Result<Field, AllocError>
    ensures { IfOk result (λ field. (table : Table) (rows : List Cells) → AreFew table rows → IsHeld rows aggregate tally.now → field ≡ aggregate_value aggregate rows) }
{
    match aggregate {
        Aggregate::Rows => Ok(tally.field(alloc, Fold::Count)?),
        Aggregate::Folded { fold, .. } => Ok(tally.field(alloc, fold)?),
    }
}

/// The tally of an aggregate at a place.
fn tally_at(tallies: &[Vec<Tally>], i: usize, place: usize) -> Option<&Tally>
    ensures some { IfSome result (λ t. (column : Items ATally) (d : ATally) → t.now ≡ slice_index_or (slice_index_or tallies.now i column).items place d) }
    ensures none { result ≡ None → (column : Items ATally) → i < length tallies.now → length (slice_index_or tallies.now i column).items ≤ place }
{
    match tallies.get(i) {
        None => None,
        Some(column) => column.as_slice().get(place),
    }
}

/// The values of some aggregates by their tallies at a place.
fn values_of(
    alloc: Global,
    aggregates: &[Aggregate],
    tallies: &[Vec<Tally>],
    place: usize,
) -> Result<Vec<Field>, AllocError>
    ensures { IfOk result (λ fields. (table : Table) (rows : List Cells) → AreFew table rows → AreHeld rows aggregates.now tallies.now place → fields.items ≡ fields_of aggregates.now rows) }
{
    let mut fields = Vec::with_capacity(alloc, aggregates.len())?;
    for i in 0..aggregates.len() {
        let field = match tally_at(tallies, i, place) {
            None => Field::Null,
            Some(tally) => value_of(alloc, aggregates[i], tally)?,
        };
        fields.push(field)?;
    }
    Ok(fields)
}

/// The groups of entries, in the order of these.
fn groups_of_entries(
    alloc: Global,
    aggregates: &[Aggregate],
    entries: Vec<(Key, usize)>,
    tallies: &[Vec<Tally>],
) -> Result<Vec<FinishedGroup>, AllocError>
    requires { IsStrictlySortedBy key_cmp (keys_of entries.items) }
    ensures { IfOk result (λ finished. AreFinished aggregates.now entries.items tallies.now finished.items) }
{
    let mut finished = Vec::with_capacity(alloc, entries.len())?;
    for (key, place) in entries {
        let fields = values_of(alloc, aggregates, tallies, place)?;
        finished.push(FinishedGroup::new(key, fields))?;
    }
    Ok(finished)
}

/// The groups of the rows that were taken in, in ascending order of their keys.
pub fn grouped_table(
    alloc: Global,
    plan: &Plan,
    groups: Groups,
) -> Result<Vec<FinishedGroup>, AllocError>
    ensures { IfOk result (λ finished. AreAllFinished plan.now groups finished.items) }
{
    let entries = groups.places.into_entries(alloc)?;
    let finished = groups_of_entries(alloc, plan.aggregates(), entries, groups.tallies.as_slice())?;
    Ok(finished)
}
