//! Making a file.
ghost use Rattle.std.specs.Prelude.{◌≡◌, ◌≢◌, ◌⊎◌, map, Err, IfOk, IfErr, MatchResult};
ghost use Rattle.std.specs.String.{string_bytes};
ghost use Rattle.table_model.specs.Table.{schema_of};
ghost use Rattle.table_model.specs.declared.refusal.Refusal.TheVariants.{Memory, WriteFault};
ghost use Rattle.file_protocol.specs.Owning.{GivesBack};
ghost use Rattle.file_protocol.specs.Safe.{StaysOld};
ghost use Rattle.file_commands.specs.CrashLaws.{Creating, HasCreated, IsEmptyFile};
ghost use Rattle.file_commands.specs.Refused.{IsWhyUnmade};

use crate::putting::put;
use crate::under_lock::{leave, refusal_in_memory};
use file_protocol::{FileFolder, Place, Replaced};
use std::alloc::Global;
use table_model::{ColType, Counted, Refusal};

/// The canonical file of the empty table of a name and columns.
fn created(alloc: Global, table: &str, columns: &[(&str, ColType)]) -> Result<Vec<u8>, Refusal>
    ensures { MatchResult result
        (λ bytes. IsEmptyFile (schema_of table.now (map (λ c. (c.0.now, c.1)) columns.now)) bytes.items)
        (λ e. (e ≡ Memory) ⊎ (schema_of table.now (map (λ c. (c.0.now, c.1)) columns.now) ≡ Err e)) }
{
    let mut writer = Counted::new(Vec::new(alloc));
    match replica_changes::create(alloc, table, columns, &mut writer) {
        Ok(()) => Ok(writer.into_inner()),
        Err(refusal) => Err(refusal_in_memory(refusal)),
    }
}

/// Makes the file of an empty table, whose lock the caller has, under the refusals of [`replica_changes::create`].
pub fn create<F: FileFolder>(
    alloc: Global,
    folder: &mut F,
    place: &Place,
    table: &str,
    columns: &[(&str, ColType)],
) -> Result<Replaced, Refusal>
    ensures any_moment { Creating (schema_of table.now (map (λ c. (c.0.now, c.1)) columns.now)) (string_bytes place.now.lock) (string_bytes place.now.name) (F.history folder.old) (F.history folder.new) }
    ensures answered { IfOk result (λ how. HasCreated (schema_of table.now (map (λ c. (c.0.now, c.1)) columns.now)) how (string_bytes place.now.lock) (string_bytes place.now.name) (F.history folder.old) (F.history folder.new)) }
    ensures refused { IfErr result (λ e. e ≢ WriteFault → StaysOld (string_bytes place.now.lock) (string_bytes place.now.name) (F.history folder.old) (F.history folder.new)) }
    ensures why { IfErr result (λ e. IsWhyUnmade (schema_of table.now (map (λ c. (c.0.now, c.1)) columns.now)) (F.history folder.old) (F.history folder.new) e) }
    ensures own { GivesBack (string_bytes place.now.lock) (F.history folder.old) (F.history folder.new) }
{
    match created(alloc, table, columns) {
        Ok(new) => put(folder, place, new.as_slice()),
        Err(refusal) => {
            leave(folder, place);
            Err(refusal)
        }
    }
}
