//! The rows at which a condition is true, by their names.
ghost use Rattle.std.specs.Prelude.{◌≡◌, ◌<◌, ◌≤◌, ◌+◌, ◌*◌, ◌++◌, Some, IfOk, OnOk};
ghost use Rattle.table_model.specs.Meaning.{names_where};
ghost use Rattle.query_eval.specs.Read.{IsSame};
ghost use Rattle.query_eval.specs.Kept.{live_vectors_in, live_vectors, batch_rows, names_kept, names_at};
ghost use Rattle.query_eval.specs.Mentions.{condition_mentions};
ghost use Rattle.query_eval.specs.Vector.{IsWithin, batch_at, batch_count};

use crate::columns::{Columns, VectorId};
use crate::filter::kept_rows::true_mask;
use std::alloc::{AllocError, Global};
use table_model::{BatchName, Condition, RowName};
use transpose_order::{Mask, VECTOR_ROWS};

/// Adds the names of the rows of a vector's mask; the vector's first row has the ordinal `first`.
fn push_names(
    names: &mut Vec<RowName>,
    batch: BatchName,
    first: usize,
    rows: &Mask,
) -> Result<(), AllocError>
    requires { first + 1024 ≤ 65536 }
    ensures { OnOk result (names.new.items ≡ names.old.items ++ names_at batch first rows.now) }
{
    for row in 0..VECTOR_ROWS {
        if rows.get(row) {
            names.push(RowName {
                batch,
                ordinal: (first + row) as u16,
            })?;
        }
    }
    Ok(())
}

/// Adds the names of a batch's rows at which the condition is true, vector by vector.
fn match_batch<C: Columns>(
    columns: &mut C,
    condition: &Condition,
    batch: usize,
    names: &mut Vec<RowName>,
) -> Result<(), AllocError>
    requires there { batch < batch_count (C.seen columns.old).state }
    requires limits { IsWithin (C.seen columns.old).table (C.seen columns.old).state }
    ensures names { OnOk result (names.new.items ≡ names.old.items ++ names_kept (C.seen columns.old).table (Some condition.now) (batch_rows (C.seen columns.old).state batch)) }
    ensures same { IsSame (C.seen columns.old) (C.seen columns.new) }
    ensures passes { OnOk result ((C.seen columns.new).passes ≤ (C.seen columns.old).passes + condition_mentions condition.now * live_vectors_in (C.seen columns.old).state batch) }
{
    let name = columns.name(batch);
    for vector in 0..columns.vectors(batch) {
        let rows = true_mask(columns, VectorId { batch, vector }, condition);
        push_names(names, name, VECTOR_ROWS * vector, &rows)?;
    }
    Ok(())
}

/// The names of the rows that aren't deleted and at which a condition is true, in ascending order. It changes only the number of
/// passes.
///
/// Each mention of a column takes at most one pass over each of the column's vectors that has a live row.
pub fn matching<C: Columns>(
    alloc: Global,
    columns: &mut C,
    condition: &Condition,
) -> Result<Vec<RowName>, AllocError>
    ensures value { IfOk result (λ names. names.items ≡ names_where (C.seen columns.old).table condition.now (C.seen columns.old).state) }
    ensures same { IsSame (C.seen columns.old) (C.seen columns.new) }
    ensures passes { IfOk result (λ _. (C.seen columns.new).passes ≤ (C.seen columns.old).passes + condition_mentions condition.now * live_vectors (C.seen columns.old).state) }
{
    let mut names = Vec::new(alloc);
    for batch in 0..columns.batches() {
        match_batch(columns, condition, batch, &mut names)?;
    }
    Ok(names)
}
