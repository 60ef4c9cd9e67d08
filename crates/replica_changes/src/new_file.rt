//! A new file, and the schema of a file that is there.
ghost use Rattle.std.specs.Prelude.{◌≡◌, map, IsTrue, IfErr, OnOk};
ghost use Rattle.table_model.specs.Faults.{CountsWrites};
ghost use Rattle.column_file.specs.Input.{Judges, ReadsWhole, is_refusal_of_reading};
ghost use Rattle.replica_changes.specs.Commands.{Creates, schema_in};
ghost use Rattle.replica_changes.specs.Refusals.{is_refusal_of_create};

use column_file::export;
use replica_reports::OpenFile;
use replica_store::Store;
use std::alloc::Global;
use std::io::{Read, Write};
use table_model::{ColType, Counted, Origin, Refusal, Schema};

/// Writes the canonical file of the empty table of a name and columns, whose names are folded to upper case.
///
/// Refused are, in this order, `BadSchema`, `Memory` and `WriteFault`. Only with the last of them anything is written: a front.
pub fn create<W: Write>(
    alloc: Global,
    table: &str,
    columns: &[(&str, ColType)],
    writer: &mut Counted<W>,
) -> Result<(), Refusal>
    ensures made { Creates result (W.contents writer.old.0) (W.contents writer.new.0) table.now (map (λ c. (c.0.now, c.1)) columns.now) }
    ensures refused { IfErr result (λ e. IsTrue (is_refusal_of_create e)) }
    ensures kept { OnOk result (writer.new.1 ≡ writer.old.1) }
    ensures fault { IfErr result (λ e. CountsWrites e writer.old.1 writer.new.1) }
{
    let schema = Schema::new(alloc, table, columns)?;
    let store = Store::new(alloc, &schema, Origin(1))?;
    export(alloc, &store, writer)
}

/// The schema of the table that a canonical file holds, under the refusals of [`OpenFile::read`].
pub fn file_schema<R: Read>(alloc: Global, reader: &mut Counted<R>) -> Result<Schema, Refusal>
    ensures read { Judges (λ schema. schema) result (R.remaining reader.old.0) schema_in }
    ensures reads { ReadsWhole R.remaining is_refusal_of_reading reader.old reader.new result }
{
    let file = OpenFile::read(alloc, reader)?;
    Ok(file.schema().copy(alloc)?)
}
