//! The walk over the vectors of a state's batches to the live rows at which a condition is true.
ghost use Rattle.std.specs.Prelude.{◌≡◌, ◌<◌, ◌≤◌, ◌+◌, ◌*◌, ◌^◌, ◌++◌, IfOk, OnOk, cond, sum_by, count_by};
ghost use Rattle.query_eval.specs.Kept.{has_live, live_vectors, live_vectors_in, where_mentions};
ghost use Rattle.query_eval.specs.Read.{IsSame};
ghost use Rattle.query_eval.specs.Vector.{IsThere, batch_count, vector_of};
ghost use Rattle.live_columns.specs.Between.{live_vectors_between, rows_between};
ghost use Rattle.live_columns.specs.Chosen.{AreThere, IsChosen, rows_in, rows_where};
ghost use Rattle.live_columns.specs.Walk.{kept_of, rows_of_batch};

use crate::chosen::ChosenRows;
use query_eval::{Columns, KeptVector, VectorId, kept_mask};
use std::alloc::{AllocError, Global};
use table_model::Condition;

/// Some of a table's batches, in ascending order of name: from a place on, which counts from 0, at most a number of them.
#[derive(Clone, Copy)]
pub struct BatchRange {
    pub first: usize,
    pub count: usize,
}

/// Adds a vector with its rows that aren't deleted and at which a condition is true, if there is such a row.
fn push_vector<C: Columns>(
    columns: &mut C,
    condition: &Option<Condition>,
    id: VectorId,
    vectors: &mut Vec<KeptVector>,
) -> Result<(), AllocError>
    requires { IsThere (C.seen columns.old).state id.batch id.vector }
    ensures rows { OnOk result (rows_in (C.seen columns.old).state vectors.new.items ≡ rows_in (C.seen columns.old).state vectors.old.items ++ kept_of (C.seen columns.old).table condition.now (C.seen columns.old).state id) }
    ensures there { OnOk result (AreThere (C.seen columns.old).state vectors.old.items → AreThere (C.seen columns.old).state vectors.new.items) }
    ensures same { IsSame (C.seen columns.old) (C.seen columns.new) }
    ensures passes { (C.seen columns.new).passes ≤ (C.seen columns.old).passes + cond (has_live (vector_of (C.seen columns.old).state id)) (where_mentions condition.now) 0 }
{
    let rows = kept_mask(columns, id, condition);
    if rows.next_true(0) < 1024 {
        vectors.push(KeptVector { id, rows })?;
    }
    Ok(())
}

/// Adds the vectors of a batch that have a row that isn't deleted and at which a condition is true.
fn push_batch<C: Columns>(
    columns: &mut C,
    condition: &Option<Condition>,
    batch: usize,
    vectors: &mut Vec<KeptVector>,
) -> Result<(), AllocError>
    requires { batch < batch_count (C.seen columns.old).state }
    ensures rows { OnOk result (rows_in (C.seen columns.old).state vectors.new.items ≡ rows_in (C.seen columns.old).state vectors.old.items ++ rows_of_batch (C.seen columns.old).table condition.now (C.seen columns.old).state batch) }
    ensures there { OnOk result (AreThere (C.seen columns.old).state vectors.old.items → AreThere (C.seen columns.old).state vectors.new.items) }
    ensures same { IsSame (C.seen columns.old) (C.seen columns.new) }
    ensures passes { OnOk result ((C.seen columns.new).passes ≤ (C.seen columns.old).passes + where_mentions condition.now * live_vectors_in (C.seen columns.old).state batch) }
{
    for vector in 0..columns.vectors(batch) {
        push_vector(columns, condition, VectorId { batch, vector }, vectors)?;
    }
    Ok(())
}

/// How many rows masks have together.
fn count_rows(vectors: &[KeptVector]) -> usize
    requires { sum_by (λ kept. count_by (λ row. row) kept.rows) vectors.now < 2 ^ 64 }
    ensures { result ≡ sum_by (λ kept. count_by (λ row. row) kept.rows) vectors.now }
{
    let mut count = 0;
    for kept in vectors {
        let rows = kept.rows.count();
        count += rows;
    }
    count
}

/// The live rows of some batches at which a condition is true, in order of row name; without a condition all their live rows.
///
/// Each mention of a column takes at most one pass over each of the column's vectors that is in these batches and has a live row.
pub fn rows_between<C: Columns>(
    alloc: Global,
    columns: &mut C,
    condition: &Option<Condition>,
    batches: BatchRange,
) -> Result<ChosenRows, AllocError>
    ensures chosen { IfOk result (λ chosen. IsChosen (C.seen columns.old).state (rows_between (C.seen columns.old).table condition.now (C.seen columns.old).state batches.first batches.count) chosen) }
    ensures same { IsSame (C.seen columns.old) (C.seen columns.new) }
    ensures passes { IfOk result (λ _. (C.seen columns.new).passes ≤ (C.seen columns.old).passes + where_mentions condition.now * live_vectors_between (C.seen columns.old).state batches.first batches.count) }
{
    let BatchRange { first, count } = batches;
    let left = columns.batches().saturating_sub(first);
    let mut vectors = Vec::new(alloc);
    for step in 0..count.min(left) {
        push_batch(columns, condition, first + step, &mut vectors)?;
    }
    let count = count_rows(vectors.as_slice());
    Ok(ChosenRows { vectors, count })
}

/// The live rows at which a condition is true, in order of row name; without a condition all live rows.
///
/// Each mention of a column takes at most one pass over each of the column's vectors that has a live row.
pub fn rows_where<C: Columns>(
    alloc: Global,
    columns: &mut C,
    condition: &Option<Condition>,
) -> Result<ChosenRows, AllocError>
    ensures chosen { IfOk result (λ chosen. IsChosen (C.seen columns.old).state (rows_where (C.seen columns.old).table condition.now (C.seen columns.old).state) chosen) }
    ensures same { IsSame (C.seen columns.old) (C.seen columns.new) }
    ensures passes { IfOk result (λ _. (C.seen columns.new).passes ≤ (C.seen columns.old).passes + where_mentions condition.now * live_vectors (C.seen columns.old).state) }
{
    let all = BatchRange {
        first: 0,
        count: columns.batches(),
    };
    rows_between(alloc, columns, condition, all)
}
