//! Writing a schema to bytes: how many columns there are, the table's name, and each column's type and name.
ghost use Rattle.std.specs.Prelude.{◌≡◌, ◌≤◌, ℕ, List, length};
ghost use Rattle.std.specs.List.{All};
ghost use Rattle.table_model.specs.Identifier.{word_limit};
ghost use Rattle.table_model.specs.Table.{ColumnShape};
ghost use Rattle.segment_core.specs.Format.{Format, Writes, all};
ghost use Rattle.column_file.specs.SchemaBytes.{name, column_type, column, schema, version_of};

use crate::type_tags::tag;
use segment_core::{write_number, write_whole};
use std::io::Write;
use table_model::{Column, Counted, Refusal, Schema};

/// Writes the name of a table or a column, of at most 64 bytes.
fn write_name<W: Write>(writer: &mut Counted<W>, text: &str) -> Result<(), Refusal>
    requires { length text.now ≤ word_limit }
    ensures { Writes result (W.contents writer.old.0) (W.contents writer.new.0) writer.old.1 writer.new.1 (name.spell text.now) }
{
    write_number(writer, text.len() as u64, 1)?;
    write_whole(writer, text.as_bytes())
}

/// Writes a column's type and name, which are the same in each version.
fn write_column<W: Write>(writer: &mut Counted<W>, shape: &Column) -> Result<(), Refusal>
    requires { length shape.now.name ≤ word_limit }
    ensures { (version : ℕ) (front : List ColumnShape) → Writes result (W.contents writer.old.0) (W.contents writer.new.0) writer.old.1 writer.new.1 ((column version front).spell shape.now) }
{
    write_number(writer, tag(shape.column_type()), 1)?;
    write_name(writer, shape.name())
}

/// Writes columns, whose names have at most 64 bytes.
fn write_columns<W: Write>(writer: &mut Counted<W>, columns: &[Column]) -> Result<(), Refusal>
    requires { All (λ (c : ColumnShape). length c.name ≤ word_limit) columns.now }
    ensures { (version : ℕ) → Writes result (W.contents writer.old.0) (W.contents writer.new.0) writer.old.1 writer.new.1 ((all (length columns.now) (column version)).spell columns.now) }
{
    for shape in columns {
        write_column(writer, shape)?;
    }
    Ok(())
}

/// Writes a schema. Refused is only a write that fails (`WriteFault`); a front of the bytes was written then. It takes no memory.
pub fn write_schema<W: Write>(writer: &mut Counted<W>, table: &Schema) -> Result<(), Refusal>
    ensures { Writes result (W.contents writer.old.0) (W.contents writer.new.0) writer.old.1 writer.new.1 ((schema (version_of table.now)).spell table.now) }
{
    let columns = table.column_list();
    write_number(writer, columns.len() as u64, 2)?;
    write_name(writer, table.table())?;
    write_columns(writer, columns)
}
