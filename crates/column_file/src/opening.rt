//! Opening and checking canonical files.
ghost use Rattle.std.specs.Prelude.{◌≡◌, ◌≤◌, ◌==◌, ◌&&◌, length, map, Err, Ok, IsTrue, IfOk};
ghost use Rattle.std.specs.List.{All, list_all, zip};
ghost use Rattle.table_model.specs.Reading.{Reads};
ghost use Rattle.replica_store.specs.Segments.{IsStored};
ghost use Rattle.replica_store.specs.Replica.{batch_limit};
ghost use Rattle.column_file.specs.ContainerBytes.{entry_of, deleted_of, container};
ghost use Rattle.column_file.specs.Differing.{matched};
ghost use Rattle.column_file.specs.Files.{AreCanonicalOf, is_same_range, canonical_read, opened_from, checked_from};
ghost use Rattle.column_file.specs.FirstVersion.{KeepsFirst, opened_from_1};
ghost use Rattle.column_file.specs.Input.{Judges, ReadsWhole, is_refusal_of_reading};

use crate::comparing::Comparison;
use crate::container_reading::read_container;
use crate::container_writing::write_container;
use crate::differing::judge_batches;
use crate::input::read_input;
use crate::ranges::tombs_of;
use replica_store::{Offer, Store};
use segment_core::Segment;
use std::alloc::Global;
use std::io::Read;
use table_model::{BatchName, Counted, Origin, Refusal, RowName, Schema};

/// Whether two ranges are the same.
fn same_range(a: (RowName, u16), b: (RowName, u16)) -> bool
    ensures { result ≡ is_same_range a b }
{
    a.0.batch.origin.0 == b.0.batch.origin.0
        && a.0.batch.number.0 == b.0.batch.number.0
        && a.0.ordinal == b.0.ordinal
        && a.1 == b.1
}

/// Whether two lists of ranges are the same.
fn are_same_ranges(a: &[(RowName, u16)], b: &[(RowName, u16)]) -> bool
    ensures { IsTrue result → a.now ≡ b.now }
{
    a.len() == b.len() && are_same_pairs(a, b)
}

/// Whether the ranges at each place of two lists are the same, as far as both lists go.
fn are_same_pairs(a: &[(RowName, u16)], b: &[(RowName, u16)]) -> bool
    ensures { result ≡ list_all (λ pair. is_same_range pair.0 pair.1) (zip a.now b.now) }
{
    a.iter()
        .zip(b)
        .all(|(range, other)| same_range(*range, *other))
}

/// The batches and deletions of a canonical file. The refusal is the first fault of the bytes, then `NotCanonical`; or `Memory`,
/// which can come in place of any of them. The canonical file is compared while it is written, and is kept nowhere.
fn canonical_in(alloc: Global, bytes: &[u8]) -> Result<Offer, Refusal>
    ensures read { Reads (λ x. x) result (canonical_read bytes.now) }
    ensures segments { IfOk result (λ o. AreCanonicalOf o.schema o.state.batches o.segments) }
{
    let (schema, mut batches, ranges) = read_container(alloc, bytes, true)?;
    let tombs = tombs_of(alloc, ranges.as_slice())?;
    let maximal = are_same_ranges(ranges.as_slice(), tombs.ranges());
    let canonical = judge_batches(alloc, &mut batches)?;
    if maximal && canonical {
        return Ok(Offer::from_parts(schema, batches, tombs));
    }
    let mut writer = Counted::new(Comparison::new(bytes));
    let outcome = write_container(&mut writer, &schema, batches.as_slice(), tombs.ranges());
    writer.into_inner().verdict(outcome)?;
    Ok(Offer::from_parts(schema, batches, tombs))
}

/// The store of an own origin with the content of a canonical file. The reader is read to its end first.
///
/// The refusals are `BadName` if the own origin is 0, before anything is read; `ReadFault` if a read fails or more than 2^48 bytes
/// come; the first fault of the bytes; and last `NotCanonical` with the first byte that differs from the canonical file of the
/// input's content. It grows as it reads, so `Memory` can come in place of any of them but the first.
pub fn open<R: Read>(alloc: Global, reader: &mut Counted<R>, own: Origin) -> Result<Store, Refusal>
    ensures read { Judges (λ store. store.replica) result (R.remaining reader.old.0) (opened_from own) }

    // What version 1 opened is opened to the same replica.
    ensures first { KeepsFirst (λ store. store.replica) result (R.remaining reader.old.0) (opened_from_1 own) }
    ensures segments { IfOk result (λ store. AreCanonicalOf store.replica.schema store.replica.state.batches store.segments) }
    ensures own { own.0 ≡ 0 → (result ≡ Err Refusal.BadName) × (reader.new ≡ reader.old) }
    ensures reads { 1 ≤ own.0 → ReadsWhole R.remaining is_refusal_of_reading reader.old reader.new result }
{
    if own.0 == 0 {
        // Before anything is read.
        return Err(Refusal::BadName);
    }
    let input = read_input(alloc, reader)?;
    let offer = canonical_in(alloc, input.as_slice())?;
    offer.into_store(alloc, own)
}

/// The store of an own origin with the content of a canonical file whose bytes are in memory.
///
/// The refusals are `BadName` if the own origin is 0; the first fault of the bytes; and last `NotCanonical` with the first byte that
/// differs from the canonical file of their content. `Memory` can come in place of any of them but the first.
pub fn open_bytes(alloc: Global, bytes: &[u8], own: Origin) -> Result<Store, Refusal>
    ensures read { Reads (λ store. store.replica) result (opened_from own bytes.now) }
    ensures segments { IfOk result (λ store. AreCanonicalOf store.replica.schema store.replica.state.batches store.segments) }
{
    if own.0 == 0 {
        return Err(Refusal::BadName);
    }
    let offer = canonical_in(alloc, bytes)?;
    offer.into_store(alloc, own)
}
