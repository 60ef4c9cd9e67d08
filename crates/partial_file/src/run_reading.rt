//! Reading sets of batches' names, as runs of numbers in ascending order.
ghost use Rattle.std.specs.Prelude.{◌≡◌, [], length, IfOk};
ghost use Rattle.table_model.specs.Reading.{Reads};
ghost use Rattle.catalogue_join.specs.Run.{run_shape};
ghost use Rattle.catalogue_join.specs.Span.{Rises};
ghost use Rattle.segment_core.specs.Format.{Format, all};
ghost use Rattle.partial_file.specs.PartialAnswerBytes.{begins_after, ends_before, run, run_parts, runs, runs_of};

use crate::number_reading::read_count;
use catalogue_join::{Held, Run};
use segment_core::{place_of, read_number};
use std::alloc::Global;
use table_model::{BatchName, Number, Origin, Refusal};

/// An origin and two numbers, whatever they are, at the front, and what comes after them.
#[tactic(auto, unfolding(crate::specs::PartialAnswerBytes::run_parts))]
fn read_run_parts(total: usize, bytes: &[u8]) -> Result<(Run, &[u8]), Refusal>
    ensures { Reads (λ x. (x.0, x.1.now)) result (run_parts.read total bytes.now) }
{
    let (origin, after_origin) = read_number(total, bytes, 4)?;
    let (first, after_first) = read_number(total, after_origin, 4)?;
    let (last, rest) = read_number(total, after_first, 4)?;
    let run = Run {
        first: BatchName {
            origin: Origin(origin as u32),
            number: Number(first as u32),
        },
        last: Number(last as u32),
    };
    Ok((run, rest))
}

/// Whether a run ends before another one begins, and leaves a number free between them if they are of one origin.
fn ends_before(a: Run, b: Run) -> bool
    ensures { result ≡ ends_before a b }
{
    a.first.origin.0 < b.first.origin.0
        || a.first.origin.0 == b.first.origin.0
            && u64::from(a.last.0) + 1 < u64::from(b.first.number.0)
}

/// Whether a run begins after the end of the last of those before it, if there are any.
fn begins_after(front: &[Run], run: Run) -> bool
    ensures { result ≡ begins_after front.now run }
{
    front.is_empty() || ends_before(front[front.len() - 1], run)
}

/// The run at the front, after the runs before it, and what comes after it.
#[tactic(auto, unfolding(crate::specs::PartialAnswerBytes::run))]
fn read_run<'a>(total: usize, bytes: &'a [u8], front: &[Run]) -> Result<(Run, &'a [u8]), Refusal>
    ensures { Reads (λ x. (x.0, x.1.now)) result ((run front.now).read total bytes.now) }
{
    let (found, rest) = read_run_parts(total, bytes)?;
    if !found.first.is_proper() {
        return Err(Refusal::BadName);
    }
    if found.last.0 < found.first.number.0 {
        return Err(Refusal::BadRange(place_of(total, bytes)));
    }
    if !begins_after(front, found) {
        return Err(Refusal::BadOrder(place_of(total, bytes)));
    }
    Ok((found, rest))
}

/// This many runs at the front, and what comes after them. It grows as it reads.
fn read_run_list(
    alloc: Global,
    total: usize,
    bytes: &[u8],
    count: u64,
) -> Result<(Vec<Run>, &[u8]), Refusal>
    ensures { Reads (λ x. (x.0.items, x.1.now)) result ((all count run).read total bytes.now) }
{
    let mut found = Vec::new(alloc);
    let mut rest = bytes;
    for _ in 0..count {
        let (one, after) = read_run(total, rest, found.as_slice())?;
        found.push(one)?;
        rest = after;
    }
    Ok((found, rest))
}

/// The runs at the front, and what comes after them.
#[tactic(auto, unfolding(crate::specs::PartialAnswerBytes::runs, crate::specs::PartialAnswerBytes::counted))]
fn read_runs(alloc: Global, total: usize, bytes: &[u8]) -> Result<(Vec<Run>, &[u8]), Refusal>
    ensures { Reads (λ x. (x.0.items, x.1.now)) result (runs.read total bytes.now) }
{
    let (count, rest) = read_count(total, bytes)?;
    read_run_list(alloc, total, rest, count)
}

/// The set of names at the front, and what comes after it. It takes memory by runs, however many names they have.
pub fn read_names(alloc: Global, total: usize, bytes: &[u8]) -> Result<(Held, &[u8]), Refusal>
    ensures { Reads (λ x. (runs_of x.0, x.1.now)) result (runs.read total bytes.now) }
{
    let (found, rest) = read_runs(alloc, total, bytes)?;
    Ok((Held::from_runs(found), rest))
}
