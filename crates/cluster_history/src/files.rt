//! Canonical files of replicas, in memory.
ghost use Rattle.std.specs.Prelude.{◌≡◌, ◌≤◌, ◌⊎◌, Ok, Err, IfOk, IfErr};
ghost use Rattle.table_model.specs.Outcome.{Gives};
ghost use Rattle.column_file.specs.Files.{AreCanonicalOf, canonical_file, opened_from};

use crate::file_bytes::FileBytes;
use column_file::{export_bytes, open};
use replica_store::Store;
use std::alloc::Global;
use table_model::{Counted, Origin, Refusal};

/// The canonical file of a replica.
pub fn exported(alloc: Global, store: &Store) -> Result<FileBytes, Refusal>
    ensures { Gives (λ file. file) result (Ok (canonical_file store.now.replica.schema store.now.replica.state)) }
{
    Ok(FileBytes::from_vec(export_bytes(alloc, store)?))
}

/// The replica of an own origin that has the content of a canonical file. Bytes in memory are read without a fault, so a failed
/// read means that memory ran out too.
pub fn opened(alloc: Global, file: &[u8], own: Origin) -> Result<Store, Refusal>
    ensures made { IfOk result (λ store. opened_from own file.now ≡ Ok store.replica) }
    ensures segments { IfOk result (λ store. AreCanonicalOf store.replica.schema store.replica.state.batches store.segments) }
    ensures refused { IfErr result (λ e. (opened_from own file.now ≡ Err e) ⊎ (e ≡ Refusal.Memory)) }
{
    let mut reader = Counted::new(file);
    match open(alloc, &mut reader, own) {
        Ok(store) => Ok(store),
        Err(Refusal::ReadFault) => Err(Refusal::Memory),
        Err(refusal) => Err(refusal),
    }
}
