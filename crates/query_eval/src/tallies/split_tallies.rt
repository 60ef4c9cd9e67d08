//! The tallies of an aggregate, a group each, as the rows of a vector come.
ghost use Rattle.std.specs.Prelude.{◌≡◌, ◌<◌, ◌≤◌, [], ℕ, length, slice_index_or, sum_by, true, OnOk};
ghost use Rattle.query_eval.specs.Read.{IsRead};
ghost use Rattle.query_eval.specs.Grouping.{AreAllTaken, AreNulls, HaveTaken, IsHeld, IsTaken, TakeCells, TakeColumn};
ghost use Rattle.query_eval.specs.QueryMentions.{aggregate_mentions};
ghost use Rattle.query_eval.specs.Slices.{AreByCode, AreShort, rows_shared, rows_sliced};
ghost use Rattle.query_eval.specs.Packed.{ArePackable};
ghost use Rattle.query_eval.specs.TallyKinds.{aggregate_kind, fold_kind};
ghost use Rattle.query_eval.specs.Vector.{IsThere, Vector, vector_of};
ghost use Rattle.query_eval.specs.declared.tallies.aggregate.Aggregate.{Aggregate as AnAggregate};
ghost use Rattle.query_eval.specs.declared.tallies.tally.Tally.{Tally as ATally};
ghost use Rattle.query_eval.specs.declared.tallies.tally.TallyKind.TheVariants as kinds;

use crate::columns::{Columns, state_is_within_limits};
use crate::filter::KeptVector;
use crate::grouping::Split;
use crate::hash_key::HashKey;
use crate::tallies::aggregate::Aggregate;
use crate::tallies::code_tallies::sum_codes;
use crate::tallies::masked_folds::are_short;
use crate::tallies::packed::are_packable;
use crate::tallies::row_tallies::{add_rows, count_rows, sum_rows};
use crate::tallies::slice_tallies::{add_slices, count_slices};
use crate::tallies::span_tallies::{add_spans, count_spans};
use crate::tallies::tally::{Tally, TallyKind};
use std::alloc::{AllocError, Global};
use table_model::{Extreme, Fold};
use transpose_order::Mask;

/// What the tallies of a set function keep.
fn fold_kind(distinct: bool, fold: Fold) -> TallyKind
    ensures { result ≡ fold_kind distinct fold }
{
    if distinct {
        return TallyKind::Distinct;
    }
    match fold {
        Fold::Count => TallyKind::Count,
        Fold::Sum | Fold::Avg => TallyKind::Sum,
        Fold::Min => TallyKind::Extreme(Extreme::Least),
        Fold::Max => TallyKind::Extreme(Extreme::Greatest),
    }
}

/// What the tallies of an aggregate keep.
pub(crate) fn aggregate_kind(aggregate: Aggregate) -> TallyKind
    ensures { result ≡ aggregate_kind aggregate }
{
    match aggregate {
        Aggregate::Rows => TallyKind::Count,
        Aggregate::Folded { fold, distinct, .. } => fold_kind(distinct, fold),
    }
}

/// Adds the tallies of groups that came: of no rows yet.
fn add_groups(
    alloc: Global,
    hash_key: HashKey,
    tallies: &mut Vec<Tally>,
    aggregate: Aggregate,
    count: usize,
) -> Result<(), AllocError>
    ensures size { OnOk result (length tallies.old.items ≤ count → length tallies.new.items ≡ count) }
    ensures known { OnOk result ((g : ℕ) (t : ATally) → g < length tallies.old.items → slice_index_or tallies.new.items g t ≡ slice_index_or tallies.old.items g t) }
    ensures fresh { OnOk result ((g : ℕ) (t : ATally) → length tallies.old.items ≤ g → g < length tallies.new.items → IsHeld [] aggregate (slice_index_or tallies.new.items g t)) }
{
    let missing = count.saturating_sub(tallies.len());
    for _ in 0..missing {
        let tally = Tally::new(alloc, hash_key, aggregate_kind(aggregate))?;
        tallies.push(tally)?;
    }
    Ok(())
}

/// Whether values are short, which only sums need; otherwise false.
fn short_sums(kind: TallyKind, values: &[i64; 1024]) -> bool
    ensures { result ≡ true → AreShort values.now }
{
    match kind {
        TallyKind::Sum => are_short(values),
        TallyKind::Count | TallyKind::Extreme(_) | TallyKind::Distinct => false,
    }
}

/// Counts the rows of a split, except nulls, in the tallies at their places.
fn count_split(tallies: &mut Vec<Tally>, split: &Split, nulls: &Mask)
    ensures size { length tallies.new.items ≡ length tallies.old.items }
    ensures held { (a : AnAggregate) (v : Vector) → aggregate_kind a ≡ kinds.Count → AreNulls a v nulls.now → HaveTaken a (rows_shared v split.now) tallies.old.items tallies.new.items }
{
    count_spans(tallies, &split.kept, split.spans.as_slice(), nulls);
    count_slices(tallies, split.slices.as_slice(), nulls);
    if split.left.next_true(0) == 1024 {
        return;
    }
    let rows = split.left.and_not(nulls);
    count_rows(tallies, &split.places, &rows);
}

/// Whether a split's slices are by codes and values can be packed, which only sums need; otherwise false.
fn are_coded_sums(kind: TallyKind, values: &[i64; 1024], split: &Split) -> bool
    ensures kind { result ≡ true → kind ≡ kinds.Sum }
    ensures packable { result ≡ true → ArePackable values.now }
    ensures coded { result ≡ true → split.now.coded ≡ true }
{
    match kind {
        TallyKind::Sum => split.coded && are_packable(values),
        TallyKind::Count | TallyKind::Extreme(_) | TallyKind::Distinct => false,
    }
}

/// Takes the values at the rows of a split's slices, except nulls, into the tallies at their places, which keep what `kind` says.
fn add_sliced(
    tallies: &mut Vec<Tally>,
    kind: TallyKind,
    values: &[i64; 1024],
    split: &Split,
    nulls: &Mask,
    packed: &mut [i64; 1024],
) -> Result<(), AllocError>
    requires { AreByCode split.now }
    ensures size { OnOk result (length tallies.new.items ≡ length tallies.old.items) }
    ensures held { OnOk result (TakeCells kind nulls.now values.now (λ v. rows_sliced v split.now.slices.items) tallies.old.items tallies.new.items) }
{
    if are_coded_sums(kind, values, split) {
        sum_codes(tallies, values, split, nulls, packed);
        return Ok(());
    }
    let short = short_sums(kind, values);
    add_slices(tallies, values, short, split.slices.as_slice(), nulls)?;
    Ok(())
}

/// Takes the values at the rows of a split, except nulls, into the tallies at their places, which keep what `kind` says. `packed`
/// is room for packed values.
fn add_split(
    tallies: &mut Vec<Tally>,
    kind: TallyKind,
    values: &[i64; 1024],
    split: &Split,
    nulls: &Mask,
    packed: &mut [i64; 1024],
) -> Result<(), AllocError>
    requires { AreByCode split.now }
    ensures size { OnOk result (length tallies.new.items ≡ length tallies.old.items) }
    ensures held { OnOk result (TakeCells kind nulls.now values.now (λ v. rows_shared v split.now) tallies.old.items tallies.new.items) }
{
    let spans = split.spans.as_slice();
    add_spans(tallies, kind, values, &split.kept, spans, nulls, packed)?;
    add_sliced(tallies, kind, values, split, nulls, packed)?;
    if split.left.next_true(0) == 1024 {
        return Ok(());
    }
    let rows = split.left.and_not(nulls);
    match kind {
        TallyKind::Sum => sum_rows(tallies, values, &split.places, &rows),
        TallyKind::Count | TallyKind::Extreme(_) | TallyKind::Distinct => {
            add_rows(tallies, values, &split.places, &rows)?;
        }
    }
    Ok(())
}

/// Takes the values of a column at the rows of a split into the tallies at their places, in at most one pass: COUNT needs only the
/// nulls. A place past the last column has no value. `values` is room for the decoded column, and `packed` for its packed values.
fn add_values<C: Columns>(
    columns: &mut C,
    kept: &KeptVector,
    column: usize,
    kind: TallyKind,
    tallies: &mut Vec<Tally>,
    split: &Split,
    values: &mut [i64; 1024],
    packed: &mut [i64; 1024],
) -> Result<(), AllocError>
    requires there { IsThere (C.seen columns.old).state kept.now.id.batch kept.now.id.vector }
    requires codes { AreByCode split.now }
    ensures size { OnOk result (length tallies.new.items ≡ length tallies.old.items) }
    ensures held { OnOk result (TakeColumn kind column (vector_of (C.seen columns.old).state kept.now.id) split.now tallies.old.items tallies.new.items) }
    ensures read { IsRead (C.seen columns.old) (C.seen columns.new) 1 }
{
    state_is_within_limits(columns);
    if columns.schema().column_list().len() <= column {
        return Ok(());
    }
    let nulls = columns.nulls(kept.id, column);
    if let TallyKind::Count = kind {
        count_split(tallies, split, &nulls);
        return Ok(());
    }
    columns.decode_into(kept.id, column, values);
    add_split(tallies, kind, values, split, &nulls, packed)?;
    Ok(())
}

/// Takes the rows of a split into the tallies of an aggregate; afterwards there are `count` of them.
fn add_column<C: Columns>(
    alloc: Global,
    columns: &mut C,
    kept: &KeptVector,
    aggregate: Aggregate,
    tallies: &mut Vec<Tally>,
    count: usize,
    split: &Split,
    values: &mut [i64; 1024],
    packed: &mut [i64; 1024],
) -> Result<(), AllocError>
    requires there { IsThere (C.seen columns.old).state kept.now.id.batch kept.now.id.vector }
    requires codes { AreByCode split.now }
    ensures taken { OnOk result (IsTaken aggregate (vector_of (C.seen columns.old).state kept.now.id) split.now count tallies.old.items tallies.new.items) }
    ensures read { IsRead (C.seen columns.old) (C.seen columns.new) (aggregate_mentions aggregate) }
{
    add_groups(alloc, columns.hash_key(), tallies, aggregate, count)?;
    match aggregate {
        Aggregate::Rows => count_split(tallies, split, &Mask::none()),
        Aggregate::Folded {
            fold,
            distinct,
            place,
        } => {
            let kind = fold_kind(distinct, fold);
            add_values(columns, kept, place, kind, tallies, split, values, packed)?;
        }
    }
    Ok(())
}

/// Takes the rows of a split, which are the kept ones of a vector, into the tallies of some aggregates; afterwards each has `count`
/// of them. Each mention of a column takes at most one pass. `values` is room for a decoded column, and `packed` for its packed
/// values.
pub fn add_columns<C: Columns>(
    alloc: Global,
    columns: &mut C,
    kept: &KeptVector,
    aggregates: &[Aggregate],
    tallies: &mut Vec<Vec<Tally>>,
    count: usize,
    split: &Split,
    values: &mut [i64; 1024],
    packed: &mut [i64; 1024],
) -> Result<(), AllocError>
    requires there { IsThere (C.seen columns.old).state kept.now.id.batch kept.now.id.vector }
    requires codes { AreByCode split.now }
    ensures size { OnOk result (length tallies.new.items ≡ length tallies.old.items) }
    ensures taken { OnOk result (AreAllTaken aggregates.now (vector_of (C.seen columns.old).state kept.now.id) split.now count tallies.old.items tallies.new.items) }
    ensures read { IsRead (C.seen columns.old) (C.seen columns.new) (sum_by aggregate_mentions aggregates.now) }
{
    let named = aggregates.len().min(tallies.len());
    for i in 0..named {
        add_column(
            alloc,
            columns,
            kept,
            aggregates[i],
            &mut tallies[i],
            count,
            split,
            values,
            packed,
        )?;
    }
    Ok(())
}
