//! The bytes of a file as a store, and a store as the bytes of its file.
ghost use Rattle.std.specs.Prelude.{◌≡◌, [], Some, Ok, MatchResult};
ghost use Rattle.table_model.specs.Reading.{Reads};
ghost use Rattle.table_model.specs.declared.refusal.Refusal.TheVariants.{Memory};
ghost use Rattle.replica_reports.specs.Held.{held_in};
ghost use Rattle.replica_changes.specs.Commands.{Puts};

use column_file::open_bytes;
use replica_changes::write_changed;
use replica_store::Store;
use std::alloc::Global;
use table_model::{Counted, Origin, Refusal};

/// The store of a file. Its bytes are let go, so that what follows has their room.
pub(crate) fn opened(alloc: Global, file: Vec<u8>) -> Result<Store, Refusal>
    ensures { Reads (λ store. store.replica) result (held_in file.items) }
{
    open_bytes(alloc, file.as_slice(), Origin(1))
}

/// The bytes of a store's canonical file if it has changed, and else none.
pub(crate) fn written(alloc: Global, store: &Store, is_changed: bool) -> Result<Vec<u8>, Refusal>
    ensures { MatchResult result
        (λ bytes. Puts is_changed (Ok tt) (Some []) (Some bytes.items) store.now.replica)
        (λ e. e ≡ Memory) }
{
    let mut writer = Counted::new(Vec::new(alloc));
    match write_changed(alloc, store, is_changed, &mut writer) {
        Ok(()) => Ok(writer.into_inner()),
        Err(_) => Err(Refusal::Memory),
    }
}
