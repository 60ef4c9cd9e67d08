//! The names of a part's batches, whose values are passed over.
ghost use Rattle.std.specs.Prelude.{◌≡◌, ◌≤◌, IfOk};
ghost use Rattle.table_model.specs.Reading.{Reads};
ghost use Rattle.table_model.specs.Table.{row_limit};
ghost use Rattle.segment_core.specs.Format.{Format, all};
ghost use Rattle.column_file.specs.SummaryBytes.{any_name, proper_name, batch_name, precedes, is_after};
ghost use Rattle.column_file.specs.ContainerBytes.{row_count};
ghost use Rattle.column_file.specs.Skimming.{name_over, as_name, names_over};

use crate::container_reading::read_row_count;
use crate::passing::over_columns;
use crate::summary_reading::{read_batch_name, read_name_count};
use std::alloc::Global;
use table_model::{BatchName, Refusal, Schema};

/// The name of the batch at the front, after the names before it, and what comes after the batch.
#[tactic(auto, unfolding(crate::specs::Skimming::name_over))]
fn read_name_over<'a>(
    schema: &Schema,
    total: usize,
    bytes: &'a [u8],
    front: &[BatchName],
) -> Result<(BatchName, &'a [u8]), Refusal>
    ensures { Reads (λ x. (x.0, x.1.now)) result (name_over schema.now front.now total bytes.now) }
{
    let (name, after_name) = read_batch_name(total, bytes, front)?;
    let (rows, after_count) = read_row_count(total, after_name)?;
    let rest = over_columns(total, after_count, schema.column_list(), rows)?;
    Ok((name, rest))
}

/// The names of this many batches at the front, and what comes after these.
fn read_name_list<'a>(
    alloc: Global,
    schema: &Schema,
    total: usize,
    bytes: &'a [u8],
    count: usize,
) -> Result<(Vec<BatchName>, &'a [u8]), Refusal>
    ensures { Reads (λ x. (x.0.items, x.1.now)) result ((all count (as_name schema.now)).read total bytes.now) }
{
    let mut names = Vec::new(alloc);
    let mut rest = bytes;
    for _ in 0..count {
        let (name, after) = read_name_over(schema, total, rest, names.as_slice())?;
        names.push(name)?;
        rest = after;
    }
    Ok((names, rest))
}

/// The names of the batches at the front, and what comes after these.
#[tactic(auto, unfolding(crate::specs::Skimming::names_over))]
pub(crate) fn read_names<'a>(
    alloc: Global,
    schema: &Schema,
    total: usize,
    bytes: &'a [u8],
) -> Result<(Vec<BatchName>, &'a [u8]), Refusal>
    ensures { Reads (λ x. (x.0.items, x.1.now)) result ((names_over schema.now).read total bytes.now) }
{
    let (count, after_count) = read_name_count(total, bytes)?;
    read_name_list(alloc, schema, total, after_count, count)
}
