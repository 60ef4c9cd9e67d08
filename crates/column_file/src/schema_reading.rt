//! Reading a schema from bytes: how many columns there are, the table's name, and each column's type and name.
ghost use Rattle.std.specs.Prelude.{◌≡◌, ◌≤◌, length, map, IsTrue, IfErr};
ghost use Rattle.std.specs.List.{list_all, list_any};
ghost use Rattle.table_model.specs.Table.{has_name, ColumnShape};
ghost use Rattle.table_model.specs.Reading.{Reads};
ghost use Rattle.segment_core.specs.Format.{Format, all};
ghost use Rattle.column_file.specs.Input.{is_fault_of_summary};
ghost use Rattle.column_file.specs.SchemaBytes.{text, is_upper, is_name, name, column_type, shape_of, column, column_count, schema};

use crate::type_tags::tagged;
use segment_core::{place_of, read_number};
use std::alloc::Global;
use table_model::{ColType, MAX_COLUMNS, MAX_WORD, Refusal, Schema, is_identifier, same_word};

/// The text of 1 to 64 bytes at the front, and what comes after it.
#[tactic(auto, unfolding(crate::specs::SchemaBytes::text))]
fn read_text(total: usize, bytes: &[u8]) -> Result<(&[u8], &[u8]), Refusal>
    ensures read { Reads (λ x. (x.0.now, x.1.now)) result (text.read total bytes.now) }
    ensures fault { IfErr result (λ e. IsTrue (is_fault_of_summary e)) }
{
    let (size, rest) = read_number(total, bytes, 1)?;
    if size < 1 || (MAX_WORD as u64) < size {
        return Err(Refusal::BadSchema);
    }
    let size = size as usize;
    if rest.len() < size {
        return Err(Refusal::Truncated(total as u64));
    }
    Ok(rest.split_at(size))
}

/// Whether no byte is a lower-case letter.
fn is_upper(text: &[u8]) -> bool
    ensures { result ≡ list_all is_upper text.now }
{
    text.iter().all(|b| b.to_ascii_uppercase() == *b)
}

/// Whether a text is an identifier in upper case.
fn is_name(text: &[u8]) -> bool
    ensures { result ≡ is_name text.now }
{
    is_identifier(text) && is_upper(text)
}

/// The name at the front, and what comes after it.
#[tactic(auto, unfolding(crate::specs::SchemaBytes::name))]
fn read_name(total: usize, bytes: &[u8]) -> Result<(&str, &[u8]), Refusal>
    ensures read { Reads (λ x. (x.0.now, x.1.now)) result (name.read total bytes.now) }
    ensures fault { IfErr result (λ e. IsTrue (is_fault_of_summary e)) }
{
    let (text, rest) = read_text(total, bytes)?;
    if !is_name(text) {
        return Err(Refusal::BadSchema);
    }
    let Ok(name) = str::from_utf8(text) else {
        return Err(Refusal::BadSchema);
    };
    Ok((name, rest))
}

/// The column type at the front, in a version, and what comes after it.
#[tactic(auto, unfolding(crate::specs::SchemaBytes::column_type))]
fn read_column_type(version: u64, total: usize, bytes: &[u8]) -> Result<(ColType, &[u8]), Refusal>
    ensures read { Reads (λ x. (x.0, x.1.now)) result ((column_type version).read total bytes.now) }
    ensures fault { IfErr result (λ e. IsTrue (is_fault_of_summary e)) }
{
    let (tag, rest) = read_number(total, bytes, 1)?;
    match tagged(version, tag) {
        Some(column_type) => Ok((column_type, rest)),
        None => Err(Refusal::BadSchema),
    }
}

/// Whether one of the columns has this name.
fn is_name_among(columns: &[(&str, ColType)], name: &str) -> bool
    ensures { result ≡ list_any (λ c. has_name c.0.now name.now) columns.now }
{
    columns
        .iter()
        .any(|column| same_word(column.0.as_bytes(), name.as_bytes()))
}

/// The column at the front, which must not have the name of one before it, and what comes after it.
#[tactic(auto, unfolding(crate::specs::SchemaBytes::column))]
fn read_column<'a>(
    version: u64,
    total: usize,
    bytes: &'a [u8],
    front: &[(&str, ColType)],
) -> Result<(&'a str, ColType, &'a [u8]), Refusal>
    ensures read { Reads (λ x. (shape_of (x.0.now, x.1), x.2.now)) result ((column version (map (λ c. shape_of (c.0.now, c.1)) front.now)).read total bytes.now) }
    ensures fault { IfErr result (λ e. IsTrue (is_fault_of_summary e)) }
{
    let (column_type, rest) = read_column_type(version, total, bytes)?;
    let (name, rest) = read_name(total, rest)?;
    if is_name_among(front, name) {
        return Err(Refusal::BadSchema);
    }
    Ok((name, column_type, rest))
}

/// This many columns at the front, and what comes after them.
fn read_columns<'a>(
    alloc: Global,
    version: u64,
    total: usize,
    bytes: &'a [u8],
    count: usize,
) -> Result<(Vec<(&'a str, ColType)>, &'a [u8]), Refusal>
    ensures { Reads (λ x. (map (λ c. shape_of (c.0.now, c.1)) x.0.items, x.1.now)) result ((all count (column version)).read total bytes.now) }
{
    let mut columns = Vec::new(alloc);
    let mut rest = bytes;
    for _ in 0..count {
        let (name, column_type, after) = read_column(version, total, rest, columns.as_slice())?;
        columns.push((name, column_type))?;
        rest = after;
    }
    Ok((columns, rest))
}

/// How many columns there are, 1 to 32, and what comes after that.
#[tactic(auto, unfolding(crate::specs::SchemaBytes::column_count))]
fn read_column_count(total: usize, bytes: &[u8]) -> Result<(usize, &[u8]), Refusal>
    ensures read { Reads (λ x. (x.0, x.1.now)) result (column_count.read total bytes.now) }
    ensures fault { IfErr result (λ e. IsTrue (is_fault_of_summary e)) }
{
    let (count, rest) = read_number(total, bytes, 2)?;
    if count < 1 || (MAX_COLUMNS as u64) < count {
        return Err(Refusal::BadCount(place_of(total, bytes)));
    }
    Ok((count as usize, rest))
}

/// The schema in a version at the front of what is left of an input of `total` bytes, and what comes after it. The refusal is the
/// first fault: `Truncated`, `BadCount` at the count, or `BadSchema`. It grows as it reads, so `Memory` can come in place of any of
/// them.
#[tactic(auto, unfolding(crate::specs::SchemaBytes::schema))]
pub fn read_schema(
    alloc: Global,
    version: u64,
    total: usize,
    bytes: &[u8],
) -> Result<(Schema, &[u8]), Refusal>
    ensures { Reads (λ x. (x.0, x.1.now)) result ((schema version).read total bytes.now) }
{
    let (count, after_count) = read_column_count(total, bytes)?;
    let (table, after_table) = read_name(total, after_count)?;
    let (columns, rest) = read_columns(alloc, version, total, after_table, count)?;
    let schema = Schema::new(alloc, table, columns.as_slice())?;
    Ok((schema, rest))
}
