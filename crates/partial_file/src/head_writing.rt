//! Writing what a partial answer begins with: its own four bytes, the version, and a schema.
ghost use Rattle.std.specs.Prelude.{◌≡◌, cond, IsTrue, OnOk};
ghost use Rattle.table_model.specs.Table.{IsTable};
ghost use Rattle.segment_core.specs.Format.{Format, Writes};
ghost use Rattle.column_file.specs.SchemaBytes.{has_tiny, version_of};
ghost use Rattle.column_file.specs.SummaryBytes.{head};

use column_file::write_schema;
use segment_core::{write_number, write_whole};
use std::io::Write;
use table_model::{Counted, Refusal, Schema};

/// Whether a schema has a column of 8 bits.
fn has_tiny(schema: &Schema) -> bool
    ensures value { result ≡ has_tiny schema.now }
    ensures proper { IsTable schema.now }
{
    schema
        .column_list()
        .iter()
        .any(|column| column.column_type().bits() == 8)
}

/// The version of a schema: 2 exactly if it has a column of 8 bits, otherwise 1.
fn version_of(schema: &Schema) -> u64
    ensures value { result ≡ version_of schema.now }
    ensures proper { IsTable schema.now }
{
    if has_tiny(schema) { 2 } else { 1 }
}

/// Writes what a format begins with: its own four bytes, the schema's version, and the schema.
pub fn write_head<W: Write>(
    writer: &mut Counted<W>,
    magic: &[u8],
    schema: &Schema,
) -> Result<(), Refusal>
    ensures written { Writes result (W.contents writer.old.0) (W.contents writer.new.0) writer.old.1 writer.new.1 ((head magic.now).spell schema.now) }
    ensures valid { OnOk result (IsTrue ((head magic.now).valid schema.now)) }
{
    write_whole(writer, magic)?;
    write_number(writer, version_of(schema), 2)?;
    write_schema(writer, schema)
}
