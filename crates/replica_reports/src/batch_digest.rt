//! The digest of a batch: that of the table that has this batch alone.
ghost use Rattle.std.specs.Prelude.{◌≡◌, ◌<◌, Some, slice_get, string_bytes, IfOk, IfErr};
ghost use Rattle.std.specs.FinMap as map;
ghost use Rattle.table_model.specs.State.{Batch};
ghost use Rattle.table_model.specs.declared.names.BatchName.{BatchName};
ghost use Rattle.table_model.specs.declared.refusal.Refusal.TheVariants.{Memory};
ghost use Rattle.replica_store.specs.Replica.{entries_of};
ghost use Rattle.replica_reports.specs.Digests.{alone, batch_digest};

use crate::digest::held_digest;
use catalogue_join::Tombs;
use replica_store::{Offer, Store};
use std::alloc::Global;
use table_model::{Origin, Refusal};

/// The store that has the batch at this place alone, with all its rows and no deletions. The batch is copied as it is coded.
fn alone(alloc: Global, store: &Store, index: usize) -> Result<Store, Refusal>
    requires { index < map.len store.now.replica.state.batches }
    ensures value { IfOk result (λ one. (e : BatchName × Batch) → slice_get (entries_of store.now.replica) index ≡ Some e → one.replica ≡ alone store.now.replica.schema e) }
    ensures refused { IfErr result (λ e. e ≡ Memory) }
{
    let (name, segment) = store.batch(index);
    let schema = store.schema().copy(alloc)?;
    let entries = vec![in alloc; (name, segment.copy(alloc)?)]?;
    Offer::from_parts(schema, entries, Tombs::new(alloc)).into_store(alloc, Origin(1))
}

/// The digest of the batch at this place, in ascending order of name and from 0: the first 32 hexadecimal digits of the SHA-512 of the
/// canonical file of the table that has this batch alone, with all its rows and no deletions. It takes memory for a copy of the batch
/// and for that file, and gives both back.
pub(crate) fn batch_digest(alloc: Global, store: &Store, index: usize) -> Result<String, Refusal>
    requires { index < map.len store.now.replica.state.batches }
    ensures digest { IfOk result (λ digits. (e : BatchName × Batch) → slice_get (entries_of store.now.replica) index ≡ Some e → string_bytes digits ≡ batch_digest store.now.replica.schema e) }
    ensures refused { IfErr result (λ e. e ≡ Memory) }
{
    let one = alone(alloc, store, index)?;
    held_digest(alloc, &one)
}
