//! Reading what a partial answer keeps of a group.
ghost use Rattle.std.specs.Prelude.{◌≡◌, ◌≤◌, length, IfOk};
ghost use Rattle.std.specs.List.Sorted.{IsStrictlySortedBy};
ghost use Rattle.std.specs.Ordering.{int_cmp};
ghost use Rattle.table_model.specs.Reading.{Reads};
ghost use Rattle.segment_core.specs.Format.{Format, all};
ghost use Rattle.partial_file.specs.PartialAnswerBytes.{cell, counted, is_greater, kept, kept_as, key, sum_parts, value, values};

use crate::number_reading::{
    read_cell, read_count, read_extreme, read_narrow, read_tag, read_wide,
};
use partial_answers::{Kept, Sums, Values};
use query_eval::Key;
use segment_core::place_of;
use std::alloc::Global;
use table_model::Refusal;

/// Whether a value is greater than the last of those before it, if there are any.
fn is_greater(front: &[i64], value: i64) -> bool
    ensures { result ≡ is_greater front.now value }
{
    front.is_empty() || front[front.len() - 1] < value
}

/// The value at the front, after the values before it, and what comes after it.
#[tactic(auto, unfolding(crate::specs::PartialAnswerBytes::value))]
fn read_value<'a>(total: usize, bytes: &'a [u8], front: &[i64]) -> Result<(i64, &'a [u8]), Refusal>
    ensures { Reads (λ x. (x.0, x.1.now)) result ((value front.now).read total bytes.now) }
{
    let (value, rest) = read_narrow(total, bytes)?;
    if !is_greater(front, value) {
        return Err(Refusal::BadOrder(place_of(total, bytes)));
    }
    Ok((value, rest))
}

/// This many values at the front, and what comes after them. It grows as it reads.
fn read_value_list(
    alloc: Global,
    total: usize,
    bytes: &[u8],
    count: u64,
) -> Result<(Vec<i64>, &[u8]), Refusal>
    ensures { Reads (λ x. (x.0.items, x.1.now)) result ((all count value).read total bytes.now) }
{
    let mut found = Vec::new(alloc);
    let mut rest = bytes;
    for _ in 0..count {
        let (value, after) = read_value(total, rest, found.as_slice())?;
        found.push(value)?;
        rest = after;
    }
    Ok((found, rest))
}

/// The values at the front, each once and in ascending order, and what comes after them.
#[tactic(auto, unfolding(crate::specs::PartialAnswerBytes::values, crate::specs::PartialAnswerBytes::counted))]
fn read_values(alloc: Global, total: usize, bytes: &[u8]) -> Result<(Vec<i64>, &[u8]), Refusal>
    ensures { Reads (λ x. (x.0.items, x.1.now)) result (values.read total bytes.now) }
{
    let (count, rest) = read_count(total, bytes)?;
    read_value_list(alloc, total, rest, count)
}

/// The count and the sum at the front, and what comes after them.
#[tactic(auto, unfolding(crate::specs::PartialAnswerBytes::sum_parts))]
fn read_sums(total: usize, bytes: &[u8]) -> Result<(Sums, &[u8]), Refusal>
    ensures { Reads (λ x. ((x.0.count, x.0.sum), x.1.now)) result (sum_parts.read total bytes.now) }
{
    let (count, after_count) = read_count(total, bytes)?;
    let (sum, rest) = read_wide(total, after_count)?;
    Ok((Sums { count, sum }, rest))
}

/// What is kept of no single value, a count or a count and a sum, at the front, and what comes after it.
fn read_total(total: usize, bytes: &[u8], kind: u64) -> Result<(Kept, &[u8]), Refusal>
    requires { kind ≤ 1 }
    ensures { Reads (λ x. (x.0, x.1.now)) result ((kept_as kind).read total bytes.now) }
{
    if kind == 0 {
        let (count, rest) = read_count(total, bytes)?;
        return Ok((Kept::Count(count), rest));
    }
    let (sums, rest) = read_sums(total, bytes)?;
    Ok((Kept::Sum(sums), rest))
}

/// The least value or the greatest at the front, and what comes after it.
fn read_end(total: usize, bytes: &[u8], kind: u64) -> Result<(Kept, &[u8]), Refusal>
    requires least { 2 ≤ kind }
    requires most { kind ≤ 3 }
    ensures { Reads (λ x. (x.0, x.1.now)) result ((kept_as kind).read total bytes.now) }
{
    let (most, rest) = read_extreme(total, bytes)?;
    if kind == 2 {
        return Ok((Kept::Least(most), rest));
    }
    Ok((Kept::Greatest(most), rest))
}

/// The distinct values at the front, and what comes after them.
fn read_distinct(alloc: Global, total: usize, bytes: &[u8]) -> Result<(Kept, &[u8]), Refusal>
    ensures { Reads (λ x. (x.0, x.1.now)) result ((kept_as 4).read total bytes.now) }
{
    let (found, rest) = read_values(alloc, total, bytes)?;
    Ok((Kept::Distinct(Values::from_rising(found)), rest))
}

/// What is kept of a kind, 0 to 4, at the front, and what comes after it.
fn read_content(
    alloc: Global,
    total: usize,
    bytes: &[u8],
    kind: u64,
) -> Result<(Kept, &[u8]), Refusal>
    requires { kind ≤ 4 }
    ensures { Reads (λ x. (x.0, x.1.now)) result ((kept_as kind).read total bytes.now) }
{
    if kind == 4 {
        return read_distinct(alloc, total, bytes);
    }
    if kind < 2 {
        return read_total(total, bytes, kind);
    }
    read_end(total, bytes, kind)
}

/// What is kept for a measure, its kind first, at the front, and what comes after it.
#[tactic(auto, unfolding(crate::specs::PartialAnswerBytes::kept))]
fn read_kept(alloc: Global, total: usize, bytes: &[u8]) -> Result<(Kept, &[u8]), Refusal>
    ensures { Reads (λ x. (x.0, x.1.now)) result (kept.read total bytes.now) }
{
    let (kind, rest) = read_tag(total, bytes, 4)?;
    read_content(alloc, total, rest, kind)
}

/// What is kept for this many measures at the front, and what comes after it. It grows as it reads.
fn read_measure_list(
    alloc: Global,
    total: usize,
    bytes: &[u8],
    count: u64,
) -> Result<(Vec<Kept>, &[u8]), Refusal>
    ensures { Reads (λ x. (x.0.items, x.1.now)) result ((all count (λ _. kept)).read total bytes.now) }
{
    let mut found = Vec::new(alloc);
    let mut rest = bytes;
    for _ in 0..count {
        let (measure, after) = read_kept(alloc, total, rest)?;
        found.push(measure)?;
        rest = after;
    }
    Ok((found, rest))
}

/// What is kept for each measure at the front, and what comes after it.
#[tactic(auto, unfolding(crate::specs::PartialAnswerBytes::counted))]
pub fn read_measures(
    alloc: Global,
    total: usize,
    bytes: &[u8],
) -> Result<(Vec<Kept>, &[u8]), Refusal>
    ensures { Reads (λ x. (x.0.items, x.1.now)) result ((counted (λ _. kept)).read total bytes.now) }
{
    let (count, rest) = read_count(total, bytes)?;
    read_measure_list(alloc, total, rest, count)
}

/// This many cells at the front, and what comes after them. It grows as it reads.
fn read_cell_list(
    alloc: Global,
    total: usize,
    bytes: &[u8],
    count: u64,
) -> Result<(Key, &[u8]), Refusal>
    ensures { Reads (λ x. (x.0, x.1.now)) result ((all count (λ _. cell)).read total bytes.now) }
{
    let mut key = Key::empty(alloc);
    let mut rest = bytes;
    for _ in 0..count {
        let (cell, after) = read_cell(total, rest)?;
        key.push(cell)?;
        rest = after;
    }
    Ok((key, rest))
}

/// A group's keys at the front, and what comes after them.
#[tactic(auto, unfolding(crate::specs::PartialAnswerBytes::key, crate::specs::PartialAnswerBytes::counted))]
pub fn read_key(alloc: Global, total: usize, bytes: &[u8]) -> Result<(Key, &[u8]), Refusal>
    ensures { Reads (λ x. (x.0, x.1.now)) result (key.read total bytes.now) }
{
    let (count, rest) = read_count(total, bytes)?;
    read_cell_list(alloc, total, rest, count)
}
