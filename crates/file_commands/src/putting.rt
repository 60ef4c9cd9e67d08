//! Putting bytes in the place of a file.
ghost use Rattle.std.specs.Prelude.{◌≡◌, IfOk, IfErr, OnOk, OnErr};
ghost use Rattle.std.specs.String.{string_bytes};
ghost use Rattle.table_model.specs.declared.refusal.Refusal.TheVariants.{WriteFault};
ghost use Rattle.file_protocol.specs.Failed.{HasFailed};
ghost use Rattle.file_protocol.specs.Owning.{GivesBack};
ghost use Rattle.file_protocol.specs.Safe.{OldOrNew, IsNew, IsInPlace, LeavesNoLock};
ghost use Rattle.file_protocol.specs.declared.outcome.Replaced.TheVariants.{Synced};

use file_protocol::{FileFolder, Place, Replaced, replace};
use table_model::Refusal;

/// Puts these bytes in the place of a file whose lock the caller has. If that fails, `WriteFault`.
pub fn put<F: FileFolder>(folder: &mut F, place: &Place, bytes: &[u8]) -> Result<Replaced, Refusal>
    ensures any_moment { OldOrNew (string_bytes place.now.lock) (string_bytes place.now.name) bytes.now (F.history folder.old) (F.history folder.new) }
    ensures synced { IfOk result (λ how. how ≡ Synced → IsNew (string_bytes place.now.lock) (string_bytes place.now.name) bytes.now (F.history folder.old) (F.history folder.new)) }
    ensures in_place { OnOk result (IsInPlace (string_bytes place.now.lock) (string_bytes place.now.name) bytes.now (F.history folder.old) (F.history folder.new)) }
    ensures no_lock { OnOk result (LeavesNoLock (string_bytes place.now.lock) (F.history folder.old) (F.history folder.new)) }
    ensures fault { IfErr result (λ e. e ≡ WriteFault) }
    ensures cause { OnErr result (HasFailed (F.history folder.old) (F.history folder.new)) }
    ensures own { GivesBack (string_bytes place.now.lock) (F.history folder.old) (F.history folder.new) }
{
    match replace(folder, place, bytes) {
        Ok(how) => Ok(how),
        Err(_) => Err(Refusal::WriteFault),
    }
}
