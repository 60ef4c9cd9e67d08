//! The calls that read of a folder's parts, which the program has read, what a load under given names is answered from: of a part that has a
//! batch of such a name all that it holds, and of any other its deletions alone.
ghost use Rattle.std.specs.Prelude.{◌≡◌, None};
ghost use Rattle.lanes_c.specs.Skimming.{AnswersAs, OpensSkim, SkimsMore, SkimsNamed, TakesSkim, first_name, known_by, skim_by, skim_of};

use crate::fault::{Fault, Place};
use crate::handle::Table;
use crate::opening::put;
use crate::shared::Shared;
use crate::skim_handle::FolderSkim;
use crate::table_changes::tell;
use crate::taking::text_of;
use folder_commands::skim_more;
use folder_parts::{LoadNames, PartFault, Skim, SkimmedParts};
use query_eval::HashKey;
use std::alloc::Global;
use std::boxed::Box;
use std::mem::replace;
use table_model::{BatchName, Number, Origin};

/// What loads are answered from, and how many batches the parts have.
struct Known {
    shared: Box<Shared>,
    batches: u64,
}

/// The name of a batch.
fn first_name(origin: u32, number: u32) -> BatchName
    ensures { result ≡ first_name origin number }
{
    BatchName {
        origin: Origin(origin),
        number: Number(number),
    }
}

/// What was read of parts, out of its box, with what is read of one more.
fn with_part(
    alloc: Global,
    held: Option<Box<Skim>>,
    name: &str,
    bytes: &[u8],
    names: LoadNames,
) -> Result<Skim, PartFault>
    ensures { SkimsMore result (skim_of held) names.first names.count (record { name = name.now; bytes = bytes.now }) }
{
    match held {
        None => skim_more(alloc, None, name, bytes, names),
        Some(skim) => skim_more(alloc, Some(Box::into_inner(skim)), name, bytes, names),
    }
}

/// What was read of parts, out of its box, with what is read of one more, whose name is in bytes.
fn skimmed(
    alloc: Global,
    held: Option<Box<Skim>>,
    name: &[u8],
    bytes: &[u8],
    names: LoadNames,
) -> Result<Box<Skim>, Fault>
    ensures { SkimsNamed (skim_by result) (skim_of held) names.first names.count name.now bytes.now }
{
    let name = text_of(name)?;
    let skim = with_part(alloc, held, name, bytes, names)?;
    Ok(Box::new(alloc, skim)?)
}

/// Reads of a part of a folder what a load needs that has this many batches under consecutive names from `origin.number` on: by the part's
/// name, and by the bytes that were read under it. A closed handle is opened; each call for the same handle is given the same names.
///
/// A part that has no batch of such a name isn't compared with its name, and a fault of its values is not seen. Refused are, in this order,
/// `Syntax` if the name is no text; of a part that has one, `Damaged` if its name is that of other bytes, and the bytes' first fault;
/// `SchemaDiffers`, `Conflict` with the least name that has two lists of rows, and `Full`. The handle is closed then.
#[unsafe(no_mangle)]
pub extern "C" fn lanes_skim_take(
    alloc: Global,
    skim: &mut FolderSkim,
    origin: u32,
    number: u32,
    count: u32,
    name: &[u8],
    bytes: &[u8],
    place: &mut Place,
) -> u8
    ensures { TakesSkim (first_name origin number) count name.now bytes.now result skim.old skim.new place.new }
{
    let names = LoadNames {
        first: first_name(origin, number),
        count,
    };
    let held = replace(skim, FolderSkim::closed()).into_box(alloc);
    match skimmed(alloc, held, name, bytes, names) {
        Ok(taken) => {
            drop(replace(skim, FolderSkim::of_box(taken)).into_box(alloc));
            *place = Place::nowhere();
            0
        }
        Err(fault) => tell(fault, place),
    }
}

/// The first share of what loads are answered from.
fn known_of(alloc: Global, skim: Box<Skim>) -> Result<Known, Fault>
    ensures { AnswersAs (known_by result) skim.value }
{
    let SkimmedParts { held, batches } = Box::into_inner(skim).into_parts(alloc)?;
    Ok(Known {
        shared: Shared::new(alloc, HashKey::fixed(), held)?,
        batches,
    })
}

/// Opens what was read of parts as a table, and closes its handle. It tells how many batches the parts have; one that is in two parts counts
/// twice. With those of the load they are to be at most 1,048,576; otherwise the load is to be answered from all that the parts hold. A table
/// that the other handle has is closed first if 0 is answered.
///
/// Refused is `NotOpen` if no part was taken.
#[unsafe(no_mangle)]
pub extern "C" fn lanes_skim_open(
    alloc: Global,
    skim: &mut FolderSkim,
    table: &mut Table,
    batches: &mut u64,
    place: &mut Place,
) -> u8
    ensures opens { OpensSkim skim.old.skim result table.old table.new batches.new place.new }
    ensures closed { skim.new.skim ≡ None }
{
    *batches = 0;
    let Some(held) = replace(skim, FolderSkim::closed()).into_box(alloc) else {
        return tell(Fault::NotOpen, place);
    };
    match known_of(alloc, held) {
        Ok(
            Known {
                shared,
                batches: count,
            },
        ) => {
            put(alloc, table, shared);
            *batches = count;
            *place = Place::nowhere();
            0
        }
        Err(fault) => tell(fault, place),
    }
}

/// Closes a handle of what was read of parts. A closed one may be closed again.
#[unsafe(no_mangle)]
pub extern "C" fn lanes_skim_close(alloc: Global, skim: &mut FolderSkim)
    ensures { skim.new.skim ≡ None }
{
    drop(replace(skim, FolderSkim::closed()).into_box(alloc));
}
