//! How many rows batches have, and how many of them are live.
ghost use Rattle.std.specs.Prelude.{◌≡◌, ◌<◌, ◌≤◌, Some, length, slice_get};
ghost use Rattle.std.specs.FinMap as map;
ghost use Rattle.table_model.specs.State.{live_rows};
ghost use Rattle.table_model.specs.Table.{row_limit};
ghost use Rattle.transpose_order.specs.Mask.{count_below};
ghost use Rattle.replica_reports.specs.Counts.{batch_counts, is_live_at};

use catalogue_join::Tombs;
use replica_store::Store;
use table_model::BatchName;
use transpose_order::VECTOR_ROWS;

/// A batch's name, how many rows it has, and how many of them are live.
#[derive(Clone, Copy, Debug, PartialEq, Eq)]
pub(crate) struct BatchCounts {
    /// The batch's name.
    pub name: BatchName,
    /// How many rows it has, deleted ones among them.
    pub rows: u64,
    /// How many of them are not deleted.
    pub live: u64,
}

/// How many rows of a batch with this many rows are live, counted vector by vector.
pub fn live_count(tombs: &Tombs, name: BatchName, rows: usize) -> usize
    requires { rows ≤ row_limit }
    ensures count { result ≡ count_below (is_live_at tombs.now name rows) rows }
    ensures few { result ≤ rows }
{
    let mut live = 0;
    for vector in 0..rows.div_ceil(VECTOR_ROWS) {
        let covered = (rows - VECTOR_ROWS * vector).min(VECTOR_ROWS);
        live += tombs.live_mask(name, vector, covered).count();
    }
    live
}

/// The counts of the batch at this place, in ascending order of name and from 0.
pub(crate) fn counts_at(store: &Store, index: usize) -> BatchCounts
    requires { index < map.len store.now.replica.state.batches }
    ensures counts { slice_get (batch_counts store.now.replica.state) index ≡ Some result }
    ensures few { result.live ≤ row_limit }
{
    let (name, segment) = store.batch(index);
    let rows = segment.rows();
    let live = live_count(store.tombs(), name, rows);
    BatchCounts {
        name,
        rows: rows as u64,
        live: live as u64,
    }
}

/// How many rows of a store are live.
pub(crate) fn live_in(store: &Store) -> u64
    ensures { result ≡ length (live_rows store.now.replica.state) }
{
    let mut live: u64 = 0;
    for index in 0..store.batches() {
        live += counts_at(store, index).live;
    }
    live
}
