//! A file whose lock the caller has: it is read, and replaced or left.
ghost use Rattle.std.specs.Prelude.{◌≡◌, ◌∷◌, Some, true, IfOk, IfErr, OnErr};
ghost use Rattle.std.specs.String.{string_bytes};
ghost use Rattle.file_protocol.specs.Event.{Read};
ghost use Rattle.file_protocol.specs.Failed.{HasFailed};
ghost use Rattle.file_protocol.specs.Locking.{OnlyLocks};
ghost use Rattle.file_protocol.specs.Owning.{GivesBack};
ghost use Rattle.table_model.specs.declared.refusal.Refusal.TheVariants.{WriteFault};
ghost use Rattle.column_file.specs.Input.{IsUnread};
ghost use Rattle.file_commands.specs.Finished.{AtAnyMoment, Finishes, in_memory};
ghost use Rattle.file_commands.specs.Refused.{IsWhyUnread};

use crate::Left;
use crate::putting::put;
use file_protocol::{FileFolder, Place, keep};
use std::alloc::Global;
use std::io::{self, ErrorKind};
use table_model::Refusal;

/// The bytes of the file. If they can't be read, the lock is given back.
pub(crate) fn read_file<F: FileFolder>(
    alloc: Global,
    folder: &mut F,
    place: &Place,
) -> Result<Vec<u8>, Refusal>
    ensures read { IfOk result (λ bytes. F.history folder.new ≡ Read (string_bytes place.now.name) (Some (Some bytes.items)) ∷ F.history folder.old) }
    ensures left { OnErr result (OnlyLocks (string_bytes place.now.lock) (F.history folder.old) (F.history folder.new)) }
    ensures own { OnErr result (GivesBack (string_bytes place.now.lock) (F.history folder.old) (F.history folder.new)) }
    ensures why { IfErr result (λ e. IsWhyUnread (string_bytes place.now.name) (F.history folder.old) (F.history folder.new) e) }
{
    match folder.read(alloc, place.name()) {
        Ok(Some(bytes)) => Ok(bytes),
        Ok(None) => {
            leave(folder, place);
            Err(Refusal::ReadFault)
        }
        Err(error) => {
            leave(folder, place);
            Err(refusal_of_read(&error))
        }
    }
}

/// What a file that can't be read is refused as.
fn refusal_of_read(error: &io::Error) -> Refusal
    ensures { IsUnread result }
{
    if error.kind() == ErrorKind::OutOfMemory {
        Refusal::Memory
    } else {
        Refusal::ReadFault
    }
}

/// Gives the lock of a file back, which the caller has, with the file as it was.
pub fn leave<F: FileFolder>(folder: &mut F, place: &Place)
    ensures locks { OnlyLocks (string_bytes place.now.lock) (F.history folder.old) (F.history folder.new) }
    ensures own { GivesBack (string_bytes place.now.lock) (F.history folder.old) (F.history folder.new) }
{
    let _ = folder.remove(place.lock());
}

/// Puts the bytes in the file's place if it is changed, and else has it on the disk as it is. The lock is given back.
pub(crate) fn finish<F: FileFolder>(
    folder: &mut F,
    place: &Place,
    is_changed: bool,
    bytes: &[u8],
) -> Result<Left, Refusal>
    ensures any_moment { AtAnyMoment is_changed (string_bytes place.now.lock) (string_bytes place.now.name) bytes.now (F.history folder.old) (F.history folder.new) }
    ensures finished { IfOk result (λ how. Finishes how is_changed (string_bytes place.now.lock) (string_bytes place.now.name) bytes.now (F.history folder.old) (F.history folder.new)) }
    ensures fault { IfErr result (λ e. (e ≡ WriteFault) × (is_changed ≡ true) × HasFailed (F.history folder.old) (F.history folder.new)) }
    ensures own { GivesBack (string_bytes place.now.lock) (F.history folder.old) (F.history folder.new) }
{
    if is_changed {
        let how = put(folder, place, bytes)?;
        Ok(Left::Changed(how))
    } else {
        match keep(folder, place) {
            Ok(()) => Ok(Left::Kept),
            Err(_) => Ok(Left::KeptUnsynced),
        }
    }
}

/// What a command that wrote to memory is refused as: a write that failed ran out of memory.
pub(crate) fn refusal_in_memory(refusal: Refusal) -> Refusal
    ensures { result ≡ in_memory refusal }
{
    match refusal {
        Refusal::WriteFault => Refusal::Memory,
        other => other,
    }
}
