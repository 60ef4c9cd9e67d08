//! Reading a summary from bytes: its own four bytes, the version, a schema, and names in strictly ascending order.
ghost use Rattle.std.specs.Prelude.{◌≡◌, ◌-◌, ◌^◌, ◌<◌, ◌≤◌, length, codes, IsTrue, IfOk, IfErr};
ghost use Rattle.std.specs.List.{All};
ghost use Rattle.std.specs.FinSet as set;
ghost use Rattle.table_model.specs.Name.{is_proper_name};
ghost use Rattle.table_model.specs.Reading.{Reads};
ghost use Rattle.segment_core.specs.Format.{Format, number, all, constant, read_whole};
ghost use Rattle.column_file.specs.SummaryBytes.{version, head, proper_name, precedes, is_after, batch_name, name_count, names, summary, summary_read};
ghost use Rattle.column_file.specs.Input.{Judges, ReadsWhole, is_fault_of_summary, is_refusal_of_summary};

use crate::input::read_input;
use crate::schema_reading::read_schema;
use crate::type_tags::version_of;
use catalogue_join::Held;
use replica_store::{MAX_BATCHES, Summary};
use segment_core::{place_of, read_number};
use std::alloc::{AllocError, Global};
use std::io::Read;
use table_model::{BatchName, Counted, Number, Origin, Refusal, Schema, same_text};

/// What a summary begins with.
pub(crate) const SUMMARY: [u8; 4] = *b"FLSM";

/// What comes after the bytes that a format begins with; `BadMagic` if these are others.
fn read_magic<'a>(total: usize, bytes: &'a [u8], magic: &[u8]) -> Result<&'a [u8], Refusal>
    ensures read { Reads (λ x. (magic.now, x.now)) result ((constant magic.now Refusal.BadMagic).read total bytes.now) }
    ensures fault { IfErr result (λ e. IsTrue (is_fault_of_summary e)) }
{
    if bytes.len() < magic.len() {
        return Err(Refusal::Truncated(total as u64));
    }
    let (front, rest) = bytes.split_at(magic.len());
    if !same_text(magic, front) {
        return Err(Refusal::BadMagic);
    }
    Ok(rest)
}

/// The version, 1 or 2, and what comes after it.
#[tactic(auto, unfolding(crate::specs::SummaryBytes::version))]
fn read_version(total: usize, bytes: &[u8]) -> Result<(u64, &[u8]), Refusal>
    ensures read { Reads (λ x. (x.0, x.1.now)) result (version.read total bytes.now) }
    ensures fault { IfErr result (λ e. IsTrue (is_fault_of_summary e)) }
{
    let (version, rest) = read_number(total, bytes, 2)?;
    if version != 1 && version != 2 {
        return Err(Refusal::BadVersion);
    }
    Ok((version, rest))
}

/// The schema that a format begins with, after its own bytes and the schema's version, and what comes after it.
#[tactic(auto, unfolding(crate::specs::SummaryBytes::head))]
pub fn read_head<'a>(
    alloc: Global,
    total: usize,
    bytes: &'a [u8],
    magic: &[u8],
) -> Result<(Schema, &'a [u8]), Refusal>
    ensures { Reads (λ x. (x.0, x.1.now)) result ((head magic.now).read total bytes.now) }
{
    let after_magic = read_magic(total, bytes, magic)?;
    let (version, after_version) = read_version(total, after_magic)?;
    let (schema, rest) = read_schema(alloc, version, total, after_version)?;
    if version != version_of(&schema) {
        return Err(Refusal::BadVersion);
    }
    Ok((schema, rest))
}

/// The proper name at the front, and what comes after it.
#[tactic(auto, unfolding(crate::specs::SummaryBytes::proper_name, crate::specs::SummaryBytes::any_name))]
pub(crate) fn read_proper_name(total: usize, bytes: &[u8]) -> Result<(BatchName, &[u8]), Refusal>
    ensures read { Reads (λ x. (x.0, x.1.now)) result (proper_name.read total bytes.now) }
    ensures fault { IfErr result (λ e. IsTrue (is_fault_of_summary e)) }
{
    let (origin, after_origin) = read_number(total, bytes, 4)?;
    let (number, rest) = read_number(total, after_origin, 4)?;
    let name = BatchName {
        origin: Origin(origin as u32),
        number: Number(number as u32),
    };
    if !name.is_proper() {
        return Err(Refusal::BadName);
    }
    Ok((name, rest))
}

/// Whether a name comes before another, by origin and then by number.
pub(crate) fn precedes(a: BatchName, b: BatchName) -> bool
    ensures { result ≡ precedes a b }
{
    a.origin.0 < b.origin.0 || a.origin.0 == b.origin.0 && a.number.0 < b.number.0
}

/// Whether a name comes after the last of those before it, if there is one.
fn is_after(front: &[BatchName], name: BatchName) -> bool
    ensures { result ≡ is_after front.now name }
{
    front.is_empty() || precedes(front[front.len() - 1], name)
}

/// The name at the front, after the names before it, and what comes after it.
#[tactic(auto, unfolding(crate::specs::SummaryBytes::batch_name))]
pub(crate) fn read_batch_name<'a>(
    total: usize,
    bytes: &'a [u8],
    front: &[BatchName],
) -> Result<(BatchName, &'a [u8]), Refusal>
    ensures read { Reads (λ x. (x.0, x.1.now)) result ((batch_name front.now).read total bytes.now) }
    ensures fault { IfErr result (λ e. IsTrue (is_fault_of_summary e)) }
{
    let (name, rest) = read_proper_name(total, bytes)?;
    if !is_after(front, name) {
        return Err(Refusal::BadOrder(place_of(total, bytes)));
    }
    Ok((name, rest))
}

/// This many names in strictly ascending order, and what comes after them.
fn read_batch_names(
    alloc: Global,
    total: usize,
    bytes: &[u8],
    count: usize,
) -> Result<(Vec<BatchName>, &[u8]), Refusal>
    ensures { Reads (λ x. (x.0.items, x.1.now)) result ((all count batch_name).read total bytes.now) }
{
    let mut names = Vec::new(alloc);
    let mut rest = bytes;
    for _ in 0..count {
        let (name, after) = read_batch_name(total, rest, names.as_slice())?;
        names.push(name)?;
        rest = after;
    }
    Ok((names, rest))
}

/// How many names there are, at most 1,048,576, and what comes after that.
#[tactic(auto, unfolding(crate::specs::SummaryBytes::name_count))]
pub fn read_name_count(total: usize, bytes: &[u8]) -> Result<(usize, &[u8]), Refusal>
    ensures read { Reads (λ x. (x.0, x.1.now)) result (name_count.read total bytes.now) }
    ensures fault { IfErr result (λ e. IsTrue (is_fault_of_summary e)) }
{
    let (count, rest) = read_number(total, bytes, 4)?;
    if count > MAX_BATCHES as u64 {
        return Err(Refusal::BadCount(place_of(total, bytes)));
    }
    Ok((count as usize, rest))
}

/// The names at the front, and what comes after them.
#[tactic(auto, unfolding(crate::specs::SummaryBytes::names))]
fn read_names(alloc: Global, total: usize, bytes: &[u8]) -> Result<(Vec<BatchName>, &[u8]), Refusal>
    ensures { Reads (λ x. (x.0.items, x.1.now)) result (names.read total bytes.now) }
{
    let (count, rest) = read_name_count(total, bytes)?;
    read_batch_names(alloc, total, rest, count)
}

/// The schema and the batch names, in strictly ascending order, of a summary. Refused is the first fault of the bytes: `Truncated`,
/// `BadMagic`, `BadVersion`, `BadSchema`, `BadName`, `BadCount`, `BadOrder` or `TrailingBytes`. It grows as it reads, so `Memory`
/// can come in place of any of them.
#[tactic(auto, unfolding(crate::specs::SummaryBytes::summary))]
fn read_summary_bytes(alloc: Global, bytes: &[u8]) -> Result<(Schema, Vec<BatchName>), Refusal>
    ensures { Reads (λ x. (x.0, x.1.items)) result (read_whole summary bytes.now) }
{
    let total = bytes.len();
    let (schema, after_head) = read_head(alloc, total, bytes, &SUMMARY)?;
    let (names, rest) = read_names(alloc, total, after_head)?;
    if !rest.is_empty() {
        return Err(Refusal::TrailingBytes(place_of(total, rest)));
    }
    Ok((schema, names))
}

/// The set of some names, all of them proper.
fn held_of(alloc: Global, names: &[BatchName]) -> Result<Held, AllocError>
    requires { All (λ name. IsTrue (is_proper_name name)) names.now }
    ensures { IfOk result (λ held. held ≡ set.from_list names.now) }
{
    let mut held = Held::new(alloc);
    for name in names {
        held.insert(*name)?;
    }
    Ok(held)
}

/// The summary that bytes are. The refusal is their first fault, or `Memory`, which can come in place of any of them.
fn summary_in(alloc: Global, bytes: &[u8]) -> Result<Summary, Refusal>
    ensures { Reads (λ x. x) result (summary_read bytes.now) }
{
    let (schema, names) = read_summary_bytes(alloc, bytes)?;
    let held = held_of(alloc, names.as_slice())?;
    Ok(Summary::from_parts(schema, held))
}

/// The summary that a reader has, which is read to its end first.
///
/// The refusals are `ReadFault` if a read fails or more than 2^48 bytes come, and then the first fault of the bytes: `Truncated`,
/// `BadMagic`, `BadVersion`, `BadSchema`, `BadName`, `BadCount`, `BadOrder` or `TrailingBytes`. It grows as it reads, so `Memory`
/// can come in place of any of them.
pub fn read_summary<R: Read>(alloc: Global, reader: &mut Counted<R>) -> Result<Summary, Refusal>
    ensures read { Judges (λ x. x) result (R.remaining reader.old.0) summary_read }
    ensures reads { ReadsWhole R.remaining is_refusal_of_summary reader.old reader.new result }
{
    let input = read_input(alloc, reader)?;
    summary_in(alloc, input.as_slice())
}
