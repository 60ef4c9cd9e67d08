//! The calls that take parts of a folder, which the program has read: one part after another, and the table of what they hold.
ghost use Rattle.std.specs.Prelude.{◌≡◌, Ok, None};
ghost use Rattle.lanes_c.specs.PartsRead.{IsRead, OpensRead, Takes, TakesPart, read_by, read_of};
ghost use Rattle.lanes_c.specs.TableChanges.{IsShared, TellsChange, shared_by};

use crate::fault::{Fault, Place};
use crate::handle::Table;
use crate::opening::put;
use crate::parts_handle::FolderParts;
use crate::read_parts::ReadParts;
use crate::shared::Shared;
use crate::table_changes::tell;
use crate::taking::text_of;
use folder_parts::PartFault;
use query_eval::HashKey;
use std::alloc::Global;
use std::boxed::Box;
use std::mem::replace;

/// The parts of a box with one more, or this one alone.
fn with_part(
    alloc: Global,
    held: Option<Box<ReadParts>>,
    name: &str,
    bytes: &[u8],
) -> Result<ReadParts, PartFault>
    ensures { IsRead result (read_of held) (record { name = name.now; bytes = bytes.now }) }
{
    match held {
        None => ReadParts::new(alloc, name, bytes),
        Some(parts) => Box::into_inner(parts).with_part(alloc, name, bytes),
    }
}

/// The parts of a box with one more, whose name is in bytes, or this one alone.
fn taken(
    alloc: Global,
    held: Option<Box<ReadParts>>,
    name: &[u8],
    bytes: &[u8],
) -> Result<Box<ReadParts>, Fault>
    ensures { TakesPart (read_by result) (read_of held) name.now bytes.now }
{
    let name = text_of(name)?;
    let parts = with_part(alloc, held, name, bytes)?;
    Ok(Box::new(alloc, parts)?)
}

/// Takes a part of a folder, by its name and the bytes that were read under it. It is joined to those that the handle has; a closed handle is
/// opened.
///
/// Refused are, in this order, `Syntax` if the name is no text, `Damaged` if it is that of other bytes, the bytes' first fault,
/// `SchemaDiffers`, `Conflict` with the least name that has two lists of rows, and `Full`. The handle is closed then.
#[unsafe(no_mangle)]
pub extern "C" fn lanes_parts_take(
    alloc: Global,
    parts: &mut FolderParts,
    name: &[u8],
    bytes: &[u8],
    place: &mut Place,
) -> u8
    ensures { Takes name.now bytes.now result parts.old parts.new place.new }
{
    let held = replace(parts, FolderParts::closed()).into_box(alloc);
    match taken(alloc, held, name, bytes) {
        Ok(taken) => {
            drop(replace(parts, FolderParts::of_box(taken)).into_box(alloc));
            *place = Place::nowhere();
            0
        }
        Err(fault) => tell(fault, place),
    }
}

/// The first share of what parts hold together.
fn shared_of(alloc: Global, parts: Box<ReadParts>) -> Result<Box<Shared>, Fault>
    ensures { IsShared (Ok parts.value.0) (shared_by result) }
{
    let store = Box::into_inner(parts).into_store(alloc)?;
    Ok(Shared::new(alloc, HashKey::fixed(), store)?)
}

/// Puts a share into a handle, or leaves what it had, if a call was refused. It tells a caller which.
fn put_share(
    alloc: Global,
    table: &mut Table,
    opened: Result<Box<Shared>, Fault>,
    place: &mut Place,
) -> u8
    ensures { TellsChange (λ given. given ≡ shared_by opened) result table.old.replica table.new.replica place.new }
{
    match opened {
        Ok(shared) => {
            put(alloc, table, shared);
            *place = Place::nowhere();
            0
        }
        Err(fault) => tell(fault, place),
    }
}

/// Opens what the parts of a handle hold together as a table, and closes the parts' handle. A table that the other handle has is closed
/// first if 0 is answered; its key stays.
///
/// Refused is `NotOpen` if no part was taken.
#[unsafe(no_mangle)]
pub extern "C" fn lanes_parts_open(
    alloc: Global,
    parts: &mut FolderParts,
    table: &mut Table,
    place: &mut Place,
) -> u8
    ensures opens { OpensRead result parts.old.read table.old table.new place.new }
    ensures closed { parts.new.read ≡ None }
{
    let Some(held) = replace(parts, FolderParts::closed()).into_box(alloc) else {
        return put_share(alloc, table, Err(Fault::NotOpen), place);
    };
    let opened = shared_of(alloc, held);
    put_share(alloc, table, opened, place)
}

/// Closes a handle of parts. A closed one may be closed again.
#[unsafe(no_mangle)]
pub extern "C" fn lanes_parts_close(alloc: Global, parts: &mut FolderParts)
    ensures { parts.new.read ≡ None }
{
    drop(replace(parts, FolderParts::closed()).into_box(alloc));
}
