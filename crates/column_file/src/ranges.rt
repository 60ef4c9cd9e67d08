//! Reading ranges of deleted rows, and the set of their rows.
ghost use Rattle.std.specs.Prelude.{◌≡◌, map, IsTrue, IfOk, IfErr};
ghost use Rattle.std.specs.List.{All};
ghost use Rattle.table_model.specs.Reading.{Reads};
ghost use Rattle.catalogue_join.specs.RowRange.{rows_in};
ghost use Rattle.segment_core.specs.Format.{Format, all};
ghost use Rattle.column_file.specs.SummaryBytes.{any_name, precedes};
ghost use Rattle.column_file.specs.Input.{is_fault_of_summary, is_fault_of_container};
ghost use Rattle.column_file.specs.ContainerBytes.{deleted_of, is_named, is_range, ends_before, begins_after, range_parts, range, ranges};
ghost use Rattle.column_file.specs.Files.{IsRangeGiven};

use crate::summary_reading::precedes;
use catalogue_join::Tombs;
use segment_core::{place_of, read_number};
use std::alloc::{AllocError, Global};
use table_model::{BatchName, Number, Origin, Refusal, RowName};

/// A batch's name and two ordinals, whatever they are, at the front, and what comes after them.
#[tactic(auto, unfolding(crate::specs::ContainerBytes::range_parts, crate::specs::SummaryBytes::any_name))]
fn read_range_parts(total: usize, bytes: &[u8]) -> Result<((RowName, u16), &[u8]), Refusal>
    ensures read { Reads (λ x. (deleted_of x.0, x.1.now)) result (range_parts.read total bytes.now) }
    ensures fault { IfErr result (λ e. IsTrue (is_fault_of_summary e)) }
{
    let (origin, after_origin) = read_number(total, bytes, 4)?;
    let (number, after_name) = read_number(total, after_origin, 4)?;
    let (first, after_first) = read_number(total, after_name, 2)?;
    let (last, rest) = read_number(total, after_first, 2)?;
    let batch = BatchName {
        origin: Origin(origin as u32),
        number: Number(number as u32),
    };
    let row = RowName {
        batch,
        ordinal: first as u16,
    };
    Ok(((row, last as u16), rest))
}

/// Whether rows begin after the end of other ones, in order of origin, number and ordinal.
fn ends_before(a: (RowName, u16), b: (RowName, u16)) -> bool
    ensures { result ≡ ends_before (deleted_of a) (deleted_of b) }
{
    precedes(a.0.batch, b.0.batch)
        || a.0.batch.origin.0 == b.0.batch.origin.0
            && a.0.batch.number.0 == b.0.batch.number.0
            && a.1 < b.0.ordinal
}

/// Whether rows begin after the end of the last of those before them, if there are any.
fn begins_after(front: &[(RowName, u16)], range: (RowName, u16)) -> bool
    ensures { result ≡ begins_after (map deleted_of front.now) (deleted_of range) }
{
    front.is_empty() || ends_before(front[front.len() - 1], range)
}

/// The range of deleted rows at the front, after the ranges before it, and what comes after it.
#[tactic(auto, unfolding(crate::specs::ContainerBytes::range))]
fn read_range<'a>(
    total: usize,
    bytes: &'a [u8],
    front: &[(RowName, u16)],
) -> Result<((RowName, u16), &'a [u8]), Refusal>
    ensures read { Reads (λ x. (deleted_of x.0, x.1.now)) result ((range (map deleted_of front.now)).read total bytes.now) }
    ensures given { IfOk result (λ x. IsRangeGiven x.0) }
    ensures fault { IfErr result (λ e. IsTrue (is_fault_of_container e)) }
{
    let (found, rest) = read_range_parts(total, bytes)?;
    if !found.0.batch.is_proper() {
        return Err(Refusal::BadName);
    }
    if found.1 < found.0.ordinal {
        return Err(Refusal::BadRange(place_of(total, bytes)));
    }
    if !begins_after(front, found) {
        return Err(Refusal::BadOrder(place_of(total, bytes)));
    }
    Ok((found, rest))
}

/// This many ranges at the front, and what comes after them.
fn read_range_list(
    alloc: Global,
    total: usize,
    bytes: &[u8],
    count: u64,
) -> Result<(Vec<(RowName, u16)>, &[u8]), Refusal>
    ensures read { Reads (λ x. (map deleted_of x.0.items, x.1.now)) result ((all count range).read total bytes.now) }
    ensures given { IfOk result (λ x. All IsRangeGiven x.0.items) }
{
    let mut found = Vec::new(alloc);
    let mut rest = bytes;
    for _ in 0..count {
        let (range, after) = read_range(total, rest, found.as_slice())?;
        found.push(range)?;
        rest = after;
    }
    Ok((found, rest))
}

/// The ranges at the front, and what comes after them.
#[tactic(auto, unfolding(crate::specs::ContainerBytes::ranges))]
pub(crate) fn read_ranges(
    alloc: Global,
    total: usize,
    bytes: &[u8],
) -> Result<(Vec<(RowName, u16)>, &[u8]), Refusal>
    ensures read { Reads (λ x. (map deleted_of x.0.items, x.1.now)) result (ranges.read total bytes.now) }
    ensures given { IfOk result (λ x. All IsRangeGiven x.0.items) }
{
    let (count, rest) = read_number(total, bytes, 8)?;
    read_range_list(alloc, total, rest, count)
}

/// The set of the rows of some ranges.
pub(crate) fn tombs_of(alloc: Global, deleted: &[(RowName, u16)]) -> Result<Tombs, AllocError>
    requires { All IsRangeGiven deleted.now }
    ensures { IfOk result (λ tombs. tombs ≡ rows_in deleted.now) }
{
    let mut tombs = Tombs::new(alloc);
    for index in 0..deleted.len() {
        let (first, last) = deleted[index];
        tombs.insert(first, last)?;
    }
    Ok(tombs)
}
