//! Reading a container from bytes: its own four bytes, the version, a schema, batches in strictly ascending order of name, and
//! ranges of deleted rows.
ghost use Rattle.std.specs.Prelude.{◌≡◌, ◌-◌, ◌^◌, ◌<◌, ◌≤◌, length, map, codes, IsTrue, IfOk, IfErr};
ghost use Rattle.std.specs.List.{All};
ghost use Rattle.table_model.specs.Table.{IsBatch, row_limit};
ghost use Rattle.table_model.specs.Reading.{Reads};
ghost use Rattle.segment_core.specs.Format.{Format, number, before, all, read_whole};
ghost use Rattle.segment_core.specs.Segment.{batch_of, widths_in, widths_of};
ghost use Rattle.segment_core.specs.SegmentBytes.{batch_columns};
ghost use Rattle.column_file.specs.SummaryBytes.{head, is_after, batch_name, name_count};
ghost use Rattle.column_file.specs.Input.{is_fault_of_summary};
ghost use Rattle.column_file.specs.ContainerBytes.{IsRest, IsFound, row_count, entry_of, name_of, batch, batches, deleted_of, ranges, container};

use crate::ranges::read_ranges;
use crate::summary_reading::{precedes, read_head, read_name_count, read_proper_name};
use segment_core::{Segment, place_of, read_number};
use std::alloc::Global;
use table_model::{BatchName, Refusal, RowName, Schema};

/// What a container begins with.
pub const CONTAINER: [u8; 4] = *b"FLCF";

/// How many rows a batch has, 1 to 65,536, and what comes after that.
#[tactic(auto, unfolding(crate::specs::ContainerBytes::row_count))]
pub(crate) fn read_row_count(total: usize, bytes: &[u8]) -> Result<(usize, &[u8]), Refusal>
    ensures read { Reads (λ x. (x.0, x.1.now)) result (row_count.read total bytes.now) }
    ensures some { IfOk result (λ x. 1 ≤ x.0) }
    ensures limit { IfOk result (λ x. x.0 ≤ row_limit) }
    ensures fault { IfErr result (λ e. IsTrue (is_fault_of_summary e)) }
{
    let (less, rest) = read_number(total, bytes, 2)?;
    Ok((less as usize + 1, rest))
}

/// Whether a name comes after that of the last of the batches before it, if there is one.
fn is_after_batches(front: &[(BatchName, Segment)], name: BatchName) -> bool
    ensures { result ≡ is_after (map name_of (map entry_of front.now)) name }
{
    front.is_empty() || precedes(front[front.len() - 1].0, name)
}

/// The name of a batch, after the batches before it, and what comes after it.
#[tactic(auto, unfolding(crate::specs::SummaryBytes::batch_name))]
fn read_name_after<'a>(
    total: usize,
    bytes: &'a [u8],
    front: &[(BatchName, Segment)],
) -> Result<(BatchName, &'a [u8]), Refusal>
    ensures read { Reads (λ x. (x.0, x.1.now)) result ((batch_name (map name_of (map entry_of front.now))).read total bytes.now) }
    ensures fault { IfErr result (λ e. IsTrue (is_fault_of_summary e)) }
{
    let (name, rest) = read_proper_name(total, bytes)?;
    if !is_after_batches(front, name) {
        return Err(Refusal::BadOrder(place_of(total, bytes)));
    }
    Ok((name, rest))
}

/// The segment of this many rows, 1 to 65,536, of a table, at the front of `rest`, which is what is left of the bytes, and what
/// comes after it.
fn read_segment<'a>(
    alloc: Global,
    schema: &Schema,
    bytes: &'a [u8],
    rest: &[u8],
    rows: usize,
) -> Result<(Segment, &'a [u8]), Refusal>
    requires some { 1 ≤ rows }
    requires limit { rows ≤ row_limit }
    requires rest { IsRest bytes.now rest.now }
    ensures read { Reads (λ x. (x.0.forms, x.1.now)) result ((batch_columns schema.now rows).read (length bytes.now) rest.now) }
    ensures rest { IfOk result (λ x. IsRest bytes.now x.1.now) }
    ensures count { IfOk result (λ x. length x.0.rows ≡ rows) }
    ensures rows { IfOk result (λ x. x.0.rows ≡ batch_of rows x.0.forms) }
    ensures fits { IfOk result (λ x. IsBatch schema.now x.0.rows) }
    ensures widths { IfOk result (λ x. widths_in x.0.forms ≡ widths_of schema.now) }
{
    let at = bytes.len().saturating_sub(rest.len());
    let (segment, next) = Segment::read_bytes(alloc, schema, rows, bytes, at)?;
    segment.keeps_its_vectors();
    let (_, after) = bytes.split_at(next.min(bytes.len()));
    Ok((segment, after))
}

/// The batch at the front of what is left, after the batches before it, and what comes after it.
#[tactic(auto, unfolding(crate::specs::ContainerBytes::batch))]
fn read_batch<'a>(
    alloc: Global,
    schema: &Schema,
    bytes: &'a [u8],
    rest: &'a [u8],
    front: &[(BatchName, Segment)],
) -> Result<(BatchName, Segment, &'a [u8]), Refusal>
    requires { IsRest bytes.now rest.now }
    ensures read { Reads (λ x. (entry_of (x.0, x.1), x.2.now)) result ((batch schema.now (map entry_of front.now)).read (length bytes.now) rest.now) }
    ensures rest { IfOk result (λ x. IsRest bytes.now x.2.now) }
    ensures found { IfOk result (λ x. IsFound schema.now (x.0, x.1)) }
{
    let total = bytes.len();
    let (name, after_name) = read_name_after(total, rest, front)?;
    let (rows, after_count) = read_row_count(total, after_name)?;
    let (segment, after) = read_segment(alloc, schema, bytes, after_count, rows)?;
    Ok((name, segment, after))
}

/// This many batches at the front of what is left, and what comes after them. `judges` is whether each is judged as soon as it is
/// read, while its bytes are in the processor's caches: it then remembers if it is canonical.
fn read_batch_list<'a>(
    alloc: Global,
    schema: &Schema,
    bytes: &'a [u8],
    front: &'a [u8],
    count: usize,
    judges: bool,
) -> Result<(Vec<(BatchName, Segment)>, &'a [u8]), Refusal>
    requires { IsRest bytes.now front.now }
    ensures read { Reads (λ x. (map entry_of x.0.items, x.1.now)) result ((all count (batch schema.now)).read (length bytes.now) front.now) }
    ensures found { IfOk result (λ x. All (IsFound schema.now) x.0.items) }
{
    let mut found = Vec::new(alloc);
    let mut rest = front;
    for _ in 0..count {
        let (name, mut segment, after) = read_batch(alloc, schema, bytes, rest, found.as_slice())?;
        if judges {
            segment.judge();
        }
        found.push((name, segment))?;
        rest = after;
    }
    Ok((found, rest))
}

/// The batches at the front of what is left, and what comes after them.
#[tactic(auto, unfolding(crate::specs::ContainerBytes::batches))]
fn read_batches<'a>(
    alloc: Global,
    schema: &Schema,
    bytes: &'a [u8],
    rest: &'a [u8],
    judges: bool,
) -> Result<(Vec<(BatchName, Segment)>, &'a [u8]), Refusal>
    requires { IsRest bytes.now rest.now }
    ensures read { Reads (λ x. (map entry_of x.0.items, x.1.now)) result ((batches schema.now).read (length bytes.now) rest.now) }
    ensures found { IfOk result (λ x. All (IsFound schema.now) x.0.items) }
{
    let (count, after_count) = read_name_count(bytes.len(), rest)?;
    read_batch_list(alloc, schema, bytes, after_count, count, judges)
}

/// The schema, the batches and the ranges of a container. The refusal is the first fault of the bytes, or `Memory`, which can come
/// in place of any of them. The memory it takes is in proportion to the bytes that are there. `judges` is whether each batch is judged
/// as soon as it is read.
#[tactic(auto, unfolding(crate::specs::ContainerBytes::container))]
pub(crate) fn read_container(
    alloc: Global,
    bytes: &[u8],
    judges: bool,
) -> Result<(Schema, Vec<(BatchName, Segment)>, Vec<(RowName, u16)>), Refusal>
    ensures read { Reads (λ x. (x.0, (map entry_of x.1.items, map deleted_of x.2.items))) result (read_whole container bytes.now) }
    ensures found { IfOk result (λ x. All (IsFound x.0) x.1.items) }
{
    let total = bytes.len();
    let (schema, after_head) = read_head(alloc, total, bytes, &CONTAINER)?;
    let (batches, after_batches) = read_batches(alloc, &schema, bytes, after_head, judges)?;
    let (ranges, rest) = read_ranges(alloc, total, after_batches)?;
    if !rest.is_empty() {
        return Err(Refusal::TrailingBytes(place_of(total, rest)));
    }
    Ok((schema, batches, ranges))
}
