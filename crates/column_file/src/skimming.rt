//! Skimming a part.
ghost use Rattle.std.specs.Prelude.{◌≡◌, map, codes, IfOk};
ghost use Rattle.std.specs.List.{All};
ghost use Rattle.table_model.specs.Reading.{Reads};
ghost use Rattle.segment_core.specs.Format.{Format, read_whole};
ghost use Rattle.column_file.specs.ContainerBytes.{deleted_of};
ghost use Rattle.column_file.specs.Files.{IsRangeGiven};
ghost use Rattle.column_file.specs.Skimming.{skimmed, skim_in};

use crate::container_reading::CONTAINER;
use crate::ranges::{read_ranges, tombs_of};
use crate::skimmed_names::read_names;
use crate::summary_reading::read_head;
use catalogue_join::Tombs;
use segment_core::place_of;
use std::alloc::Global;
use table_model::{BatchName, Refusal, RowName, Schema};

/// A part without its values.
#[derive(Drop)]
pub struct Skimmed {
    /// The table's schema.
    pub schema: Schema,
    /// The names of the batches, in ascending order.
    pub names: Vec<BatchName>,
    /// The deleted rows.
    pub deleted: Tombs,
}

/// A schema, names and ranges of deleted rows, as they are read.
#[derive(Drop)]
struct Lists {
    schema: Schema,
    names: Vec<BatchName>,
    ranges: Vec<(RowName, u16)>,
}

/// The schema, the names and the ranges of a part with these bytes.
#[tactic(auto, unfolding(crate::specs::Skimming::skimmed))]
fn read_lists(alloc: Global, bytes: &[u8]) -> Result<Lists, Refusal>
    ensures read { Reads (λ l. (l.schema, (l.names.items, map deleted_of l.ranges.items))) result (read_whole skimmed bytes.now) }
    ensures given { IfOk result (λ l. All IsRangeGiven l.ranges.items) }
{
    let total = bytes.len();
    let (schema, after_head) = read_head(alloc, total, bytes, &CONTAINER)?;
    let (names, after_names) = read_names(alloc, &schema, total, after_head)?;
    let (ranges, rest) = read_ranges(alloc, total, after_names)?;
    if !rest.is_empty() {
        return Err(Refusal::TrailingBytes(place_of(total, rest)));
    }
    Ok(Lists {
        schema,
        names,
        ranges,
    })
}

/// The schema, the names of the batches and the deleted rows of a part with these bytes. Its values are passed over: they may be at
/// fault.
///
/// Refused is the first fault of what is read: `Truncated`, `BadMagic`, `BadVersion`, `BadCount`, `BadSchema`, `BadName`, `BadOrder`,
/// `BadRange`, `TrailingBytes`; and of each vector the null flag, the tag, the width and the count (`BadMask`, `BadTag`, `BadWidth`,
/// `BadCount`), from which the place of the next one follows. The memory it takes is in proportion to the names and ranges that are there;
/// `Memory` can come in the place of any refusal.
pub fn skim(alloc: Global, bytes: &[u8]) -> Result<Skimmed, Refusal>
    ensures { Reads (λ s. (s.schema, (s.names.items, s.deleted))) result (skim_in bytes.now) }
{
    let Lists {
        schema,
        names,
        ranges,
    } = read_lists(alloc, bytes)?;
    let deleted = tombs_of(alloc, ranges.as_slice())?;
    Ok(Skimmed {
        schema,
        names,
        deleted,
    })
}
