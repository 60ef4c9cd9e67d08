//! Writing the file of a store that a command changed, or that it brings.
ghost use Rattle.std.specs.Prelude.{◌≡◌, IfErr, OnOk};
ghost use Rattle.table_model.specs.Faults.{CountsWrites};
ghost use Rattle.replica_changes.specs.Commands.{Puts};

use column_file::export;
use replica_store::Store;
use std::alloc::Global;
use std::io::Write;
use table_model::{Counted, Refusal};

/// Writes the canonical file of a store that a command changed, or that it brings, if there is a change, and else nothing. Refused are
/// `Memory`, before anything is written, and `WriteFault`, after a front.
pub fn write_changed<W: Write>(
    alloc: Global,
    store: &Store,
    is_changed: bool,
    writer: &mut Counted<W>,
) -> Result<(), Refusal>
    ensures put { Puts is_changed result (W.contents writer.old.0) (W.contents writer.new.0) store.now.replica }
    ensures kept { OnOk result (writer.new.1 ≡ writer.old.1) }
    ensures fault { IfErr result (λ e. CountsWrites e writer.old.1 writer.new.1) }
{
    if is_changed {
        export(alloc, store, writer)
    } else {
        Ok(())
    }
}
