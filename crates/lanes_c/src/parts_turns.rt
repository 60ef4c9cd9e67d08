//! The calls that begin a turn in which something is put in the place of the parts that it was made of: a pack and a forget.
ghost use Rattle.std.specs.Prelude.{◌≡◌, IfErr, IfOk, MatchOption, None};
ghost use Rattle.table_model.specs.declared.refusal.Refusal.TheVariants.{Memory};
ghost use Rattle.folder_turns.specs.Turns.{state_of};
ghost use Rattle.lanes_c.specs.PartsRead.{Forgets, ForgetsRead, GivesPart, NoParts, Packs, PacksRead, begun_by, forgot_by, turn_of};
ghost use Rattle.lanes_c.specs.Rooms.{Tells};
ghost use Rattle.lanes_c.specs.declared.fault.Fault.TheVariants.{Refused};

use crate::fault::{Fault, NOT_OPEN, Place};
use crate::parts_handle::FolderParts;
use crate::read_parts::ReadParts;
use crate::room::{hand_out, hand_over};
use crate::table_changes::tell;
use crate::turn_calls::text;
use crate::turn_handle::FolderTurn;
use folder_turns::{Order, Turn};
use std::alloc::Global;
use std::boxed::Box;
use std::mem::replace;

/// What a forget begins: how many batches it drops, and its turn, if it drops some.
struct BegunForget {
    batches: usize,
    turn: Option<Box<Turn>>,
}

/// The turn of an order.
fn begun(alloc: Global, order: Order) -> Result<Box<Turn>, Fault>
    ensures turn { IfOk result (λ turn. state_of turn.value ≡ turn_of order) }
    ensures lack { IfErr result (λ fault. fault ≡ Refused Memory) }
{
    Ok(Box::new(alloc, Turn::new(alloc, order))?)
}

/// The turn of a pack.
fn packing(alloc: Global, parts: Box<ReadParts>, temporary: &[u8]) -> Result<Box<Turn>, Fault>
    ensures { Packs (begun_by result) temporary.now parts.value }
{
    let temporary = text(alloc, temporary)?;
    let order = Box::into_inner(parts).pack(alloc, temporary)?;
    begun(alloc, order)
}

/// The turn of a forget.
fn forgetting(alloc: Global, parts: Box<ReadParts>, temporary: &[u8]) -> Result<BegunForget, Fault>
    ensures { Forgets (forgot_by result) temporary.now parts.value }
{
    let temporary = text(alloc, temporary)?;
    let forget = Box::into_inner(parts).forget(alloc, temporary)?;
    let batches = forget.dropped.batches as usize;
    match forget.order {
        None => Ok(BegunForget {
            batches,
            turn: None,
        }),
        Some(order) => Ok(BegunForget {
            batches,
            turn: Some(begun(alloc, order)?),
        }),
    }
}

/// Begins a turn that packs the parts of a handle: the file of what they hold together is put in their place, and those go that were
/// taken, but for the file itself. The parts' handle is closed.
///
/// Refused are `NotOpen` if no part was taken, `Syntax` if the temporary's name is no text, and `Memory`; then the turn's handle stays as it
/// was. A turn that the handle has is ended.
#[unsafe(no_mangle)]
pub extern "C" fn lanes_parts_pack(
    alloc: Global,
    parts: &mut FolderParts,
    temporary: &[u8],
    turn: &mut FolderTurn,
    place: &mut Place,
) -> u8
    ensures packs { MatchOption parts.old.read (NoParts result turn.old turn.new place.new) (λ was. PacksRead temporary.now was result turn.old turn.new place.new) }
    ensures closed { parts.new.read ≡ None }
{
    let Some(held) = replace(parts, FolderParts::closed()).into_box(alloc) else {
        *place = Place::nowhere();
        return NOT_OPEN;
    };
    match packing(alloc, held, temporary) {
        Ok(begun) => {
            drop(replace(turn, FolderTurn::of_box(begun)).into_box(alloc));
            *place = Place::nowhere();
            0
        }
        Err(fault) => tell(fault, place),
    }
}

/// Begins a turn that forgets in the parts of a handle: the file of what they hold together without the batches of which every row is
/// deleted is put in their place, as `lanes_parts_pack` puts its file. It tells how many batches are dropped; if there are none, no turn is
/// begun. The parts' handle is closed.
///
/// Refused are `NotOpen` if no part was taken, `Syntax` if the temporary's name is no text, and `Memory`; then the turn's handle stays as it
/// was. A turn that the handle has is ended when another one is begun.
#[unsafe(no_mangle)]
pub extern "C" fn lanes_parts_forget(
    alloc: Global,
    parts: &mut FolderParts,
    temporary: &[u8],
    turn: &mut FolderTurn,
    batches: &mut usize,
    place: &mut Place,
) -> u8
    ensures forgets { MatchOption parts.old.read (NoParts result turn.old turn.new place.new) (λ was. ForgetsRead temporary.now was result turn.old turn.new batches.new place.new) }
    ensures closed { parts.new.read ≡ None }
{
    *batches = 0;
    let Some(held) = replace(parts, FolderParts::closed()).into_box(alloc) else {
        *place = Place::nowhere();
        return NOT_OPEN;
    };
    match forgetting(alloc, held, temporary) {
        Ok(
            BegunForget {
                batches: dropped,
                turn: begun,
            },
        ) => {
            if let Some(begun) = begun {
                drop(replace(turn, FolderTurn::of_box(begun)).into_box(alloc));
            }
            *batches = dropped;
            *place = Place::nowhere();
            0
        }
        Err(fault) => tell(fault, place),
    }
}

/// Gives the bytes of the part that a turn is about, from which its writes are made.
///
/// Refused is `NotOpen` if the handle is closed.
#[unsafe(no_mangle)]
pub extern "C" fn lanes_folder_part(
    alloc: Global,
    turn: &mut FolderTurn,
    room: &mut [u8],
    length: &mut usize,
    place: &mut Place,
) -> u8
    ensures part { Tells (λ given. GivesPart given turn.old.state) result room.old room.new length.new place.new }
    ensures turn { turn.new.state ≡ turn.old.state }
{
    let Some(held) = replace(turn, FolderTurn::closed()).into_box(alloc) else {
        return hand_out(Err(Fault::NotOpen), room, length, place);
    };
    let number = hand_over(held.order.bytes.as_slice(), room, length, place);
    drop(replace(turn, FolderTurn::of_box(held)).into_box(alloc));
    number
}
