//! Writing a container to bytes: its own four bytes, the version, a schema, batches in ascending order of name, and ranges of
//! deleted rows.
ghost use Rattle.std.specs.Prelude.{◌≡◌, ◌≤◌, List, length, map, OnOk};
ghost use Rattle.std.specs.List.{All};
ghost use Rattle.table_model.specs.Table.{Table, IsTable};
ghost use Rattle.segment_core.specs.Format.{Format, Writes, all};
ghost use Rattle.segment_core.specs.Segment.{batch_of, widths_in, widths_of};
ghost use Rattle.segment_core.specs.SegmentBytes.{HasBytesIn};
ghost use Rattle.replica_store.specs.Segments.{IsStored};
ghost use Rattle.replica_store.specs.Replica.{batch_limit};
ghost use Rattle.column_file.specs.ContainerBytes.{Entry, entry_of, batch, batches, Deleted, deleted_of, range, ranges, container};
ghost use Rattle.column_file.specs.Files.{HasBatchBytes, IsNumbered};

use crate::container_reading::CONTAINER;
use crate::summary_writing::{write_batch_name, write_head};
use segment_core::{Segment, write_number};
use std::io::Write;
use table_model::{BatchName, Counted, Refusal, RowName, Schema};

/// Writes a batch: its name, how many rows it has, and its columns, each vector in its present coding.
pub(crate) fn write_batch<W: Write>(
    writer: &mut Counted<W>,
    name: BatchName,
    segment: &Segment,
) -> Result<(), Refusal>
    ensures bytes { (table : Table) (front : List Entry) → widths_in segment.now.forms ≡ widths_of table
        → Writes result (W.contents writer.old.0) (W.contents writer.new.0) writer.old.1 writer.new.1 ((batch table front).spell (entry_of (name, segment.now))) }
    ensures numbered { IsNumbered name }
    ensures rows { segment.now.rows ≡ batch_of (length segment.now.rows) segment.now.forms }
    ensures columns { (table : Table) → widths_in segment.now.forms ≡ widths_of table → HasBytesIn table segment.now }
{
    let rows = segment.rows();
    write_batch_name(writer, name)?;
    write_number(writer, rows as u64 - 1, 2)?;
    segment.write_bytes(writer)
}

/// Writes batches, whichever table they are of.
fn write_batch_list<W: Write>(
    writer: &mut Counted<W>,
    entries: &[(BatchName, Segment)],
) -> Result<(), Refusal>
    ensures again { OnOk result ((table : Table) → All (IsStored table) entries.now → All (HasBatchBytes table) entries.now) }
    ensures bytes { (table : Table) → All (IsStored table) entries.now
        → Writes result (W.contents writer.old.0) (W.contents writer.new.0) writer.old.1 writer.new.1 ((all (length entries.now) (batch table)).spell (map entry_of entries.now)) }
{
    for index in 0..entries.len() {
        let (name, segment) = &entries[index];
        write_batch(writer, *name, segment)?;
    }
    Ok(())
}

/// Writes how many batches there are, at most 1,048,576, and these, whichever table they are of.
fn write_batches<W: Write>(
    writer: &mut Counted<W>,
    entries: &[(BatchName, Segment)],
) -> Result<(), Refusal>
    requires { length entries.now ≤ batch_limit }
    ensures again { OnOk result ((table : Table) → All (IsStored table) entries.now → All (HasBatchBytes table) entries.now) }
    ensures bytes { (table : Table) → All (IsStored table) entries.now
        → Writes result (W.contents writer.old.0) (W.contents writer.new.0) writer.old.1 writer.new.1 ((batches table).spell (map entry_of entries.now)) }
{
    write_number(writer, entries.len() as u64, 4)?;
    write_batch_list(writer, entries)
}

/// Writes a range of deleted rows.
fn write_range<W: Write>(writer: &mut Counted<W>, deleted: (RowName, u16)) -> Result<(), Refusal>
    ensures { (front : List Deleted) → Writes result (W.contents writer.old.0) (W.contents writer.new.0) writer.old.1 writer.new.1 ((range front).spell (deleted_of deleted)) }
{
    write_batch_name(writer, deleted.0.batch)?;
    write_number(writer, deleted.0.ordinal as u64, 2)?;
    write_number(writer, deleted.1 as u64, 2)
}

/// Writes ranges of deleted rows.
fn write_range_list<W: Write>(
    writer: &mut Counted<W>,
    deleted: &[(RowName, u16)],
) -> Result<(), Refusal>
    ensures { Writes result (W.contents writer.old.0) (W.contents writer.new.0) writer.old.1 writer.new.1
        ((all (length deleted.now) range).spell (map deleted_of deleted.now)) }
{
    for index in 0..deleted.len() {
        write_range(writer, deleted[index])?;
    }
    Ok(())
}

/// Writes how many ranges of deleted rows there are, and these.
pub(crate) fn write_ranges<W: Write>(
    writer: &mut Counted<W>,
    deleted: &[(RowName, u16)],
) -> Result<(), Refusal>
    ensures { Writes result (W.contents writer.old.0) (W.contents writer.new.0) writer.old.1 writer.new.1 (ranges.spell (map deleted_of deleted.now)) }
{
    write_number(writer, deleted.len() as u64, 8)?;
    write_range_list(writer, deleted)
}

/// Writes a container of a table's batches, at most 1,048,576, in their present codings, and ranges of deleted rows.
pub(crate) fn write_container<W: Write>(
    writer: &mut Counted<W>,
    schema: &Schema,
    entries: &[(BatchName, Segment)],
    deleted: &[(RowName, u16)],
) -> Result<(), Refusal>
    requires limit { length entries.now ≤ batch_limit }
    requires stored { All (IsStored schema.now) entries.now }
    ensures again { OnOk result (All (HasBatchBytes schema.now) entries.now) }
    ensures bytes { Writes result (W.contents writer.old.0) (W.contents writer.new.0) writer.old.1 writer.new.1
        (container.spell (schema.now, (map entry_of entries.now, map deleted_of deleted.now))) }
    ensures proper { IsTable schema.now }
{
    write_head(writer, &CONTAINER, schema)?;
    write_batches(writer, entries)?;
    write_ranges(writer, deleted)
}
