//! Writing the canonical file of a table's rows and deletions: each vector in its canonical form, and maximal ranges.
ghost use Rattle.std.specs.Prelude.{◌≡◌, ◌≤◌, ◌+◌, ◌++◌, List, length, map, IfOk, OnOk};
ghost use Rattle.std.specs.List.{All};
ghost use Rattle.table_model.specs.Table.{Table, IsTable};
ghost use Rattle.segment_core.specs.Format.{Format, Writes, all};
ghost use Rattle.segment_core.specs.Segment.{canonical_again};
ghost use Rattle.replica_store.specs.Segments.{IsStored};
ghost use Rattle.replica_store.specs.Replica.{batch_limit};
ghost use Rattle.column_file.specs.ContainerBytes.{batch, batches, deleted_of, container};
ghost use Rattle.column_file.specs.Files.{chosen, AreChosen, AreNumbered, canonical_as_read, canonical_file, Exports, HasFile, OpensTo};

use crate::container_reading::CONTAINER;
use crate::container_writing::{write_batch, write_ranges};
use crate::summary_writing::write_head;
use replica_store::Store;
use segment_core::{Segment, write_number};
use std::alloc::{AllocError, Global};
use std::io::Write;
use table_model::{BatchName, Counted, Refusal, RowName, Schema};

/// A canonical copy of a segment, or none if the segment is canonical itself.
fn canonical_copy(alloc: Global, segment: &Segment) -> Result<Option<Segment>, AllocError>
    ensures { IfOk result (λ made. chosen segment.now made ≡ canonical_again segment.now) }
{
    if segment.canonical() {
        return Ok(None);
    }
    let made = segment.canonical_copy(alloc)?;
    Ok(Some(made))
}

/// Canonical copies of the segments that aren't canonical.
fn canonical_copies(
    alloc: Global,
    entries: &[(BatchName, Segment)],
) -> Result<Vec<Option<Segment>>, AllocError>
    ensures { IfOk result (λ made. AreChosen entries.now made.items) }
{
    let mut made = Vec::with_capacity(alloc, entries.len())?;
    for index in 0..entries.len() {
        let (_, segment) = &entries[index];
        made.push(canonical_copy(alloc, segment)?)?;
    }
    Ok(made)
}

/// The copy that was made of a segment, or the segment itself if none was made.
fn chosen<'a>(held: &'a Segment, made: &'a Option<Segment>) -> &'a Segment
    ensures { result.now ≡ chosen held.now made.now }
{
    match made {
        Some(copy) => copy,
        None => held,
    }
}

/// Writes batches in their canonical forms, whichever table they are of.
fn write_canonical_list<W: Write>(
    writer: &mut Counted<W>,
    entries: &[(BatchName, Segment)],
    made: &[Option<Segment>],
) -> Result<(), Refusal>
    requires { AreChosen entries.now made.now }
    ensures bytes { (table : Table) → All (IsStored table) entries.now
        → Writes result (W.contents writer.old.0) (W.contents writer.new.0) writer.old.1 writer.new.1 ((all (length entries.now) (batch table)).spell (map (canonical_as_read table) entries.now)) }
    ensures numbered { OnOk result (AreNumbered entries.now) }
{
    for index in 0..entries.len() {
        let (name, held) = &entries[index];
        let segment = chosen(held, &made[index]);
        write_batch(writer, *name, segment)?;
    }
    Ok(())
}

/// Writes how many batches there are, at most 1,048,576, and these in their canonical forms, whichever table they are of. They come in two
/// parts, each with the copies that were made of its segments.
fn write_canonical_batches<W: Write>(
    writer: &mut Counted<W>,
    first: &[(BatchName, Segment)],
    first_made: &[Option<Segment>],
    second: &[(BatchName, Segment)],
    second_made: &[Option<Segment>],
) -> Result<(), Refusal>
    requires limit { length first.now + length second.now ≤ batch_limit }
    requires first_made { AreChosen first.now first_made.now }
    requires second_made { AreChosen second.now second_made.now }
    ensures bytes { (table : Table) → All (IsStored table) first.now → All (IsStored table) second.now
        → Writes result (W.contents writer.old.0) (W.contents writer.new.0) writer.old.1 writer.new.1 ((batches table).spell (map (canonical_as_read table) (first.now ++ second.now))) }
    ensures numbered { OnOk result (AreNumbered (first.now ++ second.now)) }
{
    write_number(writer, (first.len() + second.len()) as u64, 4)?;
    write_canonical_list(writer, first, first_made)?;
    write_canonical_list(writer, second, second_made)
}

/// Writes a container of a table's batches, at most 1,048,576 in two parts, in their canonical forms, and ranges of deleted rows.
fn write_canonical<W: Write>(
    writer: &mut Counted<W>,
    schema: &Schema,
    first: &[(BatchName, Segment)],
    first_made: &[Option<Segment>],
    second: &[(BatchName, Segment)],
    second_made: &[Option<Segment>],
    deleted: &[(RowName, u16)],
) -> Result<(), Refusal>
    requires limit { length first.now + length second.now ≤ batch_limit }
    requires first { All (IsStored schema.now) first.now }
    requires first_made { AreChosen first.now first_made.now }
    requires second { All (IsStored schema.now) second.now }
    requires second_made { AreChosen second.now second_made.now }
    ensures bytes { Writes result (W.contents writer.old.0) (W.contents writer.new.0) writer.old.1 writer.new.1
        (container.spell (schema.now, (map (canonical_as_read schema.now) (first.now ++ second.now), map deleted_of deleted.now))) }
    ensures numbered { OnOk result (AreNumbered (first.now ++ second.now)) }
    ensures proper { IsTable schema.now }
{
    write_head(writer, &CONTAINER, schema)?;
    write_canonical_batches(writer, first, first_made, second, second_made)?;
    write_ranges(writer, deleted)
}

/// Writes the canonical file of a store's schema and state: in the version of the schema, with all batches in ascending order of
/// name, each vector in its canonical form, a null mask exactly if a vector has a null, and the deletions as maximal ranges. It
/// does not show the own origin, the order of arrival or any coding of the store.
///
/// The refusals are `Memory`, if there is no memory for the canonical copies of segments that aren't canonical, before anything
/// is written; and then a write that fails (`WriteFault`), after which a beginning of the bytes was written.
pub fn export<W: Write>(
    alloc: Global,
    store: &Store,
    writer: &mut Counted<W>,
) -> Result<(), Refusal>
    ensures written { Exports result (W.contents writer.old.0) (W.contents writer.new.0) writer.old.1 writer.new.1 (canonical_file store.now.replica.schema store.now.replica.state) }
    ensures file { OnOk result (HasFile store.now.replica.schema store.now.replica.state) }

    // What was written opens to the store's schema and state.
    ensures opens { OnOk result (OpensTo (canonical_file store.now.replica.schema store.now.replica.state) store.now.replica.schema store.now.replica.state) }
{
    store.keeps_its_limits();
    let (first, second) = store.parts();
    let first_made = canonical_copies(alloc, first)?;
    let second_made = canonical_copies(alloc, second)?;
    write_canonical(
        writer,
        store.schema(),
        first,
        first_made.as_slice(),
        second,
        second_made.as_slice(),
        store.tombs().ranges(),
    )
}

/// The bytes of a store's canonical file, in memory. Only a want of memory is refused.
pub fn export_bytes(alloc: Global, store: &Store) -> Result<Vec<u8>, AllocError>
    ensures bytes { IfOk result (λ file. file.items ≡ canonical_file store.now.replica.schema store.now.replica.state) }
    ensures file { IfOk result (λ _. HasFile store.now.replica.schema store.now.replica.state) }

    // The bytes open to the store's schema and state.
    ensures opens { IfOk result (λ _. OpensTo (canonical_file store.now.replica.schema store.now.replica.state) store.now.replica.schema store.now.replica.state) }
{
    let mut writer = Counted::new(Vec::new(alloc));
    match export(alloc, store, &mut writer) {
        Ok(()) => Ok(writer.into_inner()),
        // A write to memory fails only if memory runs out.
        Err(_) => Err(AllocError),
    }
}
