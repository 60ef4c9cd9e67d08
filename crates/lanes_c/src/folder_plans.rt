//! The calls that a program asks before it works on a folder: which parts are packed next, and what the head of a part says.
ghost use Rattle.folder_parts.specs.Packing.{IsPackedPrefix};
ghost use Rattle.lanes_c.specs.Calls.{Yields};
ghost use Rattle.lanes_c.specs.FolderPlans.{ReadsHead, empty_head, head_by};

use crate::fault::{Fault, Place};
use crate::handle::Table;
use crate::opening::put;
use crate::shared::Shared;
use crate::table_changes::tell;
use folder_parts::{packed_prefix, part_head};
use query_eval::HashKey;
use replica_store::Store;
use std::alloc::Global;
use std::boxed::Box;
use std::mem::replace;
use table_model::Origin;

/// The empty table of a part's columns, and how many batches the part has.
struct EmptyHead {
    shared: Box<Shared>,
    batches: usize,
}

/// Answers how many of a folder's parts are packed next, by their sizes in ascending order: the first ones, up to the greatest that has at
/// most a seventh of the bytes of those before it together. If it is fewer than two, nothing is to be packed.
#[unsafe(no_mangle)]
pub extern "C" fn lanes_packed_prefix(sizes: &[u64]) -> usize
    ensures { IsPackedPrefix sizes.now result }
{
    packed_prefix(sizes)
}

/// What the head of a part says that begins with these bytes.
fn head_of(alloc: Global, bytes: &[u8]) -> Result<EmptyHead, Fault>
    ensures { Yields (head_by result) (empty_head bytes.now) }
{
    let head = part_head(alloc, bytes)?;
    let store = Store::new(alloc, &head.schema, Origin(1))?;
    Ok(EmptyHead {
        shared: Shared::new(alloc, HashKey::fixed(), store)?,
        batches: head.batches as usize,
    })
}

/// Opens the empty table of the columns of a part that begins with these bytes, of which the first 4,096 do, and tells how many batches the
/// part has.
///
/// Refused are `Truncated`, `BadMagic`, `BadVersion`, `BadCount` and `BadSchema`. The table's handle then has what it had.
#[unsafe(no_mangle)]
pub extern "C" fn lanes_head(
    alloc: Global,
    bytes: &[u8],
    table: &mut Table,
    batches: &mut usize,
    place: &mut Place,
) -> u8
    ensures { ReadsHead bytes.now result table.old table.new batches.new place.new }
{
    match head_of(alloc, bytes) {
        Ok(
            EmptyHead {
                shared,
                batches: count,
            },
        ) => {
            put(alloc, table, shared);
            *batches = count;
            *place = Place::nowhere();
            0
        }
        Err(fault) => {
            *batches = 0;
            tell(fault, place)
        }
    }
}
