//! Writing a summary to bytes: its own four bytes, the version, a schema, and names in ascending order.
ghost use Rattle.std.specs.Prelude.{◌≡◌, ◌≤◌, IsTrue, List, length, OnOk, Ok};
ghost use Rattle.std.specs.FinSet as set;
ghost use Rattle.table_model.specs.Table.{IsTable};
ghost use Rattle.table_model.specs.declared.names.BatchName.{BatchName};
ghost use Rattle.catalogue_join.specs.Run.{names_of};
ghost use Rattle.segment_core.specs.Format.{Format, Writes, all, spell_all};
ghost use Rattle.table_model.specs.Name.{name_cmp};
ghost use Rattle.replica_store.specs.Replica.{batch_limit};
ghost use Rattle.column_file.specs.Ordered.{in_order};
ghost use Rattle.column_file.specs.SummaryBytes.{head, batch_name, names, summary_bytes, summary_read};
ghost use Rattle.column_file.specs.Files.{HasSummaryBytes, IsNumbered};

use crate::schema_writing::write_schema;
use crate::summary_reading::SUMMARY;
use crate::type_tags::version_of;
use catalogue_join::{Held, Run};
use replica_store::Summary;
use segment_core::{write_number, write_whole};
use std::io::Write;
use table_model::{BatchName, Counted, Number, Refusal, Schema};

/// Writes what a format begins with: its own four bytes, the schema's version, and the schema.
pub(crate) fn write_head<W: Write>(
    writer: &mut Counted<W>,
    magic: &[u8],
    schema: &Schema,
) -> Result<(), Refusal>
    ensures bytes { Writes result (W.contents writer.old.0) (W.contents writer.new.0) writer.old.1 writer.new.1 ((head magic.now).spell schema.now) }
    ensures proper { IsTable schema.now }
{
    let version = version_of(schema);
    write_whole(writer, magic)?;
    write_number(writer, version, 2)?;
    write_schema(writer, schema)
}

/// Writes a batch's name.
pub(crate) fn write_batch_name<W: Write>(
    writer: &mut Counted<W>,
    name: BatchName,
) -> Result<(), Refusal>
    ensures { (front : List BatchName) → Writes result (W.contents writer.old.0) (W.contents writer.new.0) writer.old.1 writer.new.1 ((batch_name front).spell name) }
{
    write_number(writer, name.origin.0 as u64, 4)?;
    write_number(writer, name.number.0 as u64, 4)
}

/// Writes the names of a run in ascending order.
fn write_run<W: Write>(writer: &mut Counted<W>, run: Run) -> Result<(), Refusal>
    ensures { (front : List BatchName) → Writes result (W.contents writer.old.0) (W.contents writer.new.0) writer.old.1 writer.new.1 (spell_all batch_name front (names_of run)) }
{
    for number in run.first.number.0..=run.last.0 {
        let name = BatchName {
            origin: run.first.origin,
            number: Number(number),
        };
        write_batch_name(writer, name)?;
    }
    Ok(())
}

/// Writes the names of a set in ascending order.
fn write_name_list<W: Write>(writer: &mut Counted<W>, held: &Held) -> Result<(), Refusal>
    ensures bytes { Writes result (W.contents writer.old.0) (W.contents writer.new.0) writer.old.1 writer.new.1
        ((all (length (in_order name_cmp held.now)) batch_name).spell (in_order name_cmp held.now)) }
    ensures numbered { (name : BatchName) → IsTrue (set.contains held.now name) → IsNumbered name }
{
    for run in held.runs() {
        write_run(writer, *run)?;
    }
    Ok(())
}

/// Writes how many names a set has, at most 1,048,576, and these in ascending order.
fn write_names<W: Write>(writer: &mut Counted<W>, held: &Held) -> Result<(), Refusal>
    requires { set.len held.now ≤ batch_limit }
    ensures bytes { Writes result (W.contents writer.old.0) (W.contents writer.new.0) writer.old.1 writer.new.1 (names.spell (in_order name_cmp held.now)) }
    ensures numbered { OnOk result ((name : BatchName) → IsTrue (set.contains held.now name) → IsNumbered name) }
{
    write_number(writer, held.len() as u64, 4)?;
    write_name_list(writer, held)
}

/// Writes a summary. Refused is only a write that fails (`WriteFault`); a front of the bytes was written then. It takes no memory.
pub fn write_summary<W: Write>(summary: &Summary, writer: &mut Counted<W>) -> Result<(), Refusal>
    ensures written { Writes result (W.contents writer.old.0) (W.contents writer.new.0) writer.old.1 writer.new.1 (summary_bytes summary.now) }
    ensures bytes { OnOk result (HasSummaryBytes summary.now) }

    // What was written is read as the same summary.
    ensures again { OnOk result (summary_read (summary_bytes summary.now) ≡ Ok summary.now) }
{
    write_head(writer, &SUMMARY, summary.schema())?;
    write_names(writer, summary.names())
}
