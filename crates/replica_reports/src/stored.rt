//! How long a store's file is.
ghost use Rattle.std.specs.Prelude.{◌≡◌, IfErr};
ghost use Rattle.table_model.specs.declared.refusal.Refusal.TheVariants.{Memory};

use column_file::{Length, export};
use replica_store::Store;
use std::alloc::Global;
use table_model::{Counted, Refusal};

/// How many bytes a store's canonical file has. `Memory` is answered if there is no memory for the copies of segments that aren't
/// canonical.
pub(crate) fn file_bytes(alloc: Global, store: &Store) -> Result<u64, Refusal>
    ensures { IfErr result (λ e. e ≡ Memory) }
{
    let mut writer = Counted::new(Length::new());
    match export(alloc, store, &mut writer) {
        Ok(()) => Ok(writer.into_inner().bytes()),
        // Counting never fails, so memory ran out.
        Err(_) => Err(Refusal::Memory),
    }
}
