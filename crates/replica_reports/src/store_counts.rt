//! How many batches, rows, live rows, ranges of deleted rows and bytes a store has.
ghost use Rattle.std.specs.Prelude.{◌≡◌, IfOk, IfErr};
ghost use Rattle.table_model.specs.declared.refusal.Refusal.TheVariants.{Memory};
ghost use Rattle.replica_reports.specs.Counts.{AreCountsOf};

use crate::batch_counts::live_in;
use crate::stored::file_bytes;
use replica_store::Store;
use std::alloc::Global;
use table_model::Refusal;

/// The counts of a store.
#[derive(Clone, Copy, Debug, PartialEq, Eq)]
pub(crate) struct StoreCounts {
    /// How many batches there are.
    pub batches: u64,
    /// How many rows they have, deleted ones among them.
    pub rows: u64,
    /// How many of them are not deleted.
    pub live: u64,
    /// How many maximal ranges of deleted rows there are.
    pub ranges: u64,
    /// How many bytes the canonical file has.
    pub bytes: u64,
}

/// The counts of a store. `Memory` is answered if there is no memory for the copies of segments that are not canonical.
pub(crate) fn store_counts(alloc: Global, store: &Store) -> Result<StoreCounts, Refusal>
    ensures counts { IfOk result (λ counts. AreCountsOf store.now.replica.state counts) }
    ensures refused { IfErr result (λ e. e ≡ Memory) }
{
    let bytes = file_bytes(alloc, store)?;
    let batches = store.batches() as u64;
    let rows = store.rows();
    let live = live_in(store);
    let ranges = store.tombs().ranges().len() as u64;
    Ok(StoreCounts {
        batches,
        rows,
        live,
        ranges,
        bytes,
    })
}
