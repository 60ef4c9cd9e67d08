//! The one group of a query without GROUP BY: tallies of all rows, vector by vector.
ghost use Rattle.std.specs.Prelude.{◌≡◌, ◌<◌, ◌++◌, [], List, ℤ, length, sum_by, IfOk, OnOk};
ghost use Rattle.table_model.specs.State.{Cells};
ghost use Rattle.table_model.specs.Table.{Table};
ghost use Rattle.query_eval.specs.Read.{IsRead};
ghost use Rattle.query_eval.specs.Finished.{fields_of, finished_groups};
ghost use Rattle.query_eval.specs.Grouping.{IsHeld};
ghost use Rattle.query_eval.specs.Kept.{rows_at, AreFew};
ghost use Rattle.query_eval.specs.QueryMentions.{aggregate_mentions};
ghost use Rattle.query_eval.specs.Taken.{AreTallied, TallyMore};
ghost use Rattle.query_eval.specs.Tally.{IsTally, kind_of};
ghost use Rattle.query_eval.specs.Vector.{IsThere, looked_at, vector_of};

use crate::columns::{Columns, state_is_within_limits};
use crate::filter::KeptVector;
use crate::grouping::Key;
use crate::hash_key::HashKey;
use crate::tallies::aggregate::Aggregate;
use crate::tallies::finished_group::FinishedGroup;
use crate::tallies::grouped_table::value_of;
use crate::tallies::split_tallies::aggregate_kind;
use crate::tallies::tally::{Tally, TallyKind};
use std::alloc::{AllocError, Global};
use table_model::{Extreme, Field};

/// A tally of no rows for each aggregate.
pub fn no_tallies(
    alloc: Global,
    hash_key: HashKey,
    aggregates: &[Aggregate],
) -> Result<Vec<Tally>, AllocError>
    ensures { IfOk result (λ tallies. AreTallied aggregates.now [] tallies.items) }
{
    let mut tallies = Vec::new(alloc);
    for aggregate in aggregates {
        tallies.push(Tally::new(alloc, hash_key, aggregate_kind(*aggregate))?)?;
    }
    Ok(tallies)
}

/// Takes a column's values at the kept rows of a vector into a tally, in at most one pass: COUNT needs none. `values` is room
/// for the decoded column.
fn take_values<C: Columns>(
    columns: &mut C,
    kept: &KeptVector,
    column: usize,
    tally: &mut Tally,
    values: &mut [i64; 1024],
) -> Result<(), AllocError>
    requires there { IsThere (C.seen columns.old).state kept.now.id.batch kept.now.id.vector }
    requires column { column < length (C.seen columns.old).table.columns }
    ensures values { OnOk result ((before : List ℤ) → IsTally before tally.old → IsTally (before ++ looked_at (vector_of (C.seen columns.old).state kept.now.id) column kept.now.rows) tally.new) }
    ensures kind { OnOk result (kind_of tally.new ≡ kind_of tally.old) }
    ensures read { IsRead (C.seen columns.old) (C.seen columns.new) 1 }
{
    match tally.kind() {
        TallyKind::Count => tally.count_more(columns.count(kept.id, column, &kept.rows)),
        TallyKind::Sum => {
            let count = columns.count(kept.id, column, &kept.rows);
            let sum = columns.sum(kept.id, column, &kept.rows);
            tally.sum_more(count, sum);
        }
        TallyKind::Extreme(Extreme::Least) => {
            tally.extreme_more(columns.min(kept.id, column, &kept.rows));
        }
        TallyKind::Extreme(Extreme::Greatest) => {
            tally.extreme_more(columns.max(kept.id, column, &kept.rows));
        }
        TallyKind::Distinct => {
            let nulls = columns.nulls(kept.id, column);
            columns.decode_into(kept.id, column, values);
            let rows = kept.rows.and_not(&nulls);
            tally.add_rows(values, false, &rows)?;
        }
    }
    Ok(())
}

/// Takes the kept rows of a vector into the tally of an aggregate. Its mention of a column takes at most one pass; a place past
/// the last column has no value.
fn take_aggregate<C: Columns>(
    columns: &mut C,
    kept: &KeptVector,
    aggregate: Aggregate,
    tally: &mut Tally,
    values: &mut [i64; 1024],
) -> Result<(), AllocError>
    requires { IsThere (C.seen columns.old).state kept.now.id.batch kept.now.id.vector }
    ensures held { OnOk result ((rows : List Cells) → IsHeld rows aggregate tally.old → IsHeld (rows ++ rows_at (vector_of (C.seen columns.old).state kept.now.id) kept.now.rows) aggregate tally.new) }
    ensures read { IsRead (C.seen columns.old) (C.seen columns.new) (aggregate_mentions aggregate) }
{
    state_is_within_limits(columns);
    kept.rows.keeps_1024_rows();
    match aggregate {
        Aggregate::Rows => tally.count_more(kept.rows.count()),
        Aggregate::Folded { place, .. } => {
            if place < columns.schema().column_list().len() {
                take_values(columns, kept, place, tally, values)?;
            }
        }
    }
    Ok(())
}

/// Takes the kept rows of a vector into the tallies of some aggregates, one each. Each mention of a column takes at most one
/// pass. `values` is room for a decoded column.
pub fn tally_vector<C: Columns>(
    columns: &mut C,
    kept: &KeptVector,
    aggregates: &[Aggregate],
    tallies: &mut Vec<Tally>,
    values: &mut [i64; 1024],
) -> Result<(), AllocError>
    requires { IsThere (C.seen columns.old).state kept.now.id.batch kept.now.id.vector }
    ensures tallied { OnOk result (TallyMore aggregates.now (rows_at (vector_of (C.seen columns.old).state kept.now.id) kept.now.rows) tallies.old.items tallies.new.items) }
    ensures read { IsRead (C.seen columns.old) (C.seen columns.new) (sum_by aggregate_mentions aggregates.now) }
{
    let named = aggregates.len().min(tallies.len());
    for i in 0..named {
        take_aggregate(columns, kept, aggregates[i], &mut tallies[i], values)?;
    }
    Ok(())
}

/// The values of some aggregates by their tallies.
fn tallied_fields(
    alloc: Global,
    aggregates: &[Aggregate],
    tallies: &[Tally],
) -> Result<Vec<Field>, AllocError>
    ensures { IfOk result (λ fields. (table : Table) (rows : List Cells) → AreFew table rows → AreTallied aggregates.now rows tallies.now → fields.items ≡ fields_of aggregates.now rows) }
{
    let mut fields = Vec::new(alloc);
    let named = aggregates.len().min(tallies.len());
    for i in 0..named {
        let field = value_of(alloc, aggregates[i], &tallies[i])?;
        fields.push(field)?;
    }
    Ok(fields)
}

/// The one group of a query without GROUP BY: all rows that were taken in, even if there are none.
pub fn whole_group(
    alloc: Global,
    aggregates: &[Aggregate],
    tallies: &[Tally],
) -> Result<Vec<FinishedGroup>, AllocError>
    ensures { IfOk result (λ all. (table : Table) (rows : List Cells) → AreFew table rows → AreTallied aggregates.now rows tallies.now → all.items ≡ finished_groups aggregates.now [] rows) }
{
    let fields = tallied_fields(alloc, aggregates, tallies)?;
    let mut groups = Vec::new(alloc);
    groups.push(FinishedGroup::new(Key::empty(alloc), fields))?;
    Ok(groups)
}
