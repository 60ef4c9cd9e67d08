//! The calls that drive a folder of parts: something is begun, and then one call on the folder is asked for after another, and told.
ghost use Rattle.std.specs.Prelude.{◌≡◌, ◌⊎◌, ◌++◌, [], List, ℕ, Some, None, Ok, Err, IfOk, OnOk, OnErr, IfErr, MatchOption, MatchResult, length, is_ok};
ghost use Rattle.std.specs.String.{string_bytes};
ghost use Rattle.folder_parts.specs.PartName.{part_name};
ghost use Rattle.folder_model.specs.Call.{Call};
ghost use Rattle.folder_turns.specs.Calls.{call_asked, names_of, found_of};
ghost use Rattle.folder_turns.specs.Orders.{matter_of};
ghost use Rattle.folder_turns.specs.Turns.{state_of};
ghost use Rattle.folder_turns.specs.declared.request.Answer.TheVariants as answers;
ghost use Rattle.lanes_c.specs.Calls.{Yields};
ghost use Rattle.lanes_c.specs.FolderTurns.{Adds, Begins, DrivesOpen, Drives, EndsAs, EndsIn, Fits, GoesOn, HasEnded, HasTold, IsAbout, IsAsked, named, names_left, relying, state_begun, task_of};
ghost use Rattle.lanes_c.specs.Rooms.{IsFilled, Tells, given_by};
ghost use Rattle.lanes_c.specs.Taking.{NoText};
ghost use Rattle.lanes_c.specs.declared.fault.Fault.TheVariants.{Busy, Refused, System};
ghost use Rattle.table_model.specs.declared.refusal.Refusal.TheVariants.{Memory};

use crate::fault::{Fault, NOT_OPEN, Place};
use crate::room::hand_out;
use crate::taking::text_of;
use crate::turn_handle::FolderTurn;
use folder_parts::part_name;
use folder_protocol::Outcome;
use folder_turns::{Answer, End, Order, Request, Task, Turn};
use std::alloc::{AllocError, Global};
use std::boxed::Box;
use std::io;
use std::mem::replace;

/// A call on a folder that is asked for; or, if its kind is 0, what a turn has come to.
#[repr(C)]
#[derive(Clone, Copy, Debug, PartialEq, Eq)]
pub struct FolderCall {
    pub kind: u64,
    /// From which byte of the part on is to be written; how long the first of two names is; what a turn has come to.
    pub number: u64,
}

/// What is asked for, and its names one after the other.
struct Asked {
    call: FolderCall,
    names: Vec<u8>,
}

/// The system's number for what others have: the lock wasn't got.
const OTHERS_HAVE_IT: i32 = 11;

/// The task of a command's number.
fn task_of(command: u8) -> Task
    ensures { result ≡ task_of command }
{
    match command {
        1 => Task::Put,
        2 => Task::Keep,
        3 => Task::Replace,
        4 => Task::Remove,
        6 => Task::KeepAll,
        7 => Task::PutJudged,
        8 => Task::KeepAndPut,
        9 => Task::KeepAndPutJudged,
        _ => Task::List,
    }
}

/// A vector of these bytes.
fn copied(alloc: Global, bytes: &[u8]) -> Result<Vec<u8>, AllocError>
    ensures { IfOk result (λ copy. copy.items ≡ bytes.now) }
{
    let mut copy = Vec::new(alloc);
    copy.extend_from_slice(bytes)?;
    Ok(copy)
}

/// A text of these bytes.
pub(crate) fn text(alloc: Global, bytes: &[u8]) -> Result<String, Fault>
    ensures text { IfOk result (λ text. string_bytes text ≡ bytes.now) }
    ensures fault { IfErr result (λ fault. NoText bytes.now fault ⊎ (fault ≡ Refused Memory)) }
{
    let words = text_of(bytes)?;
    Ok(String::from_str(alloc, words)?)
}

/// A turn in which a part of these bytes is put, or what else the command says.
fn begun(alloc: Global, command: u8, temporary: &[u8], part: &[u8]) -> Result<Box<Turn>, Fault>
    ensures { IfOk result (λ turn. state_of turn.value ≡ state_begun command temporary.now part.now) }
{
    let order = Order {
        task: task_of(command),
        temporary: text(alloc, temporary)?,
        name: part_name(alloc, part)?,
        bytes: copied(alloc, part)?,
        names: Vec::new(alloc),
        relied: Vec::new(alloc),
    };
    Ok(Box::new(alloc, Turn::new(alloc, order))?)
}

/// Begins a turn: a command by its number, with the name of a new temporary and the bytes of a part, if it has to do with one.
///
/// Refused are `Syntax` if the name is no text, and `Memory`; then the handle stays as it was. A turn that the handle has is ended.
#[unsafe(no_mangle)]
pub extern "C" fn lanes_folder_begin(
    alloc: Global,
    command: u8,
    temporary: &[u8],
    part: &[u8],
    turn: &mut FolderTurn,
    place: &mut Place,
) -> u8
    ensures { Begins result command temporary.now part.now turn.old turn.new }
{
    match begun(alloc, command, temporary, part) {
        Ok(begun) => {
            drop(replace(turn, FolderTurn::of_box(begun)).into_box(alloc));
            *place = Place::nowhere();
            0
        }
        Err(fault) => {
            *place = fault.place();
            fault.number()
        }
    }
}

/// Adds a name to those that an order is about, or to those of a listing.
fn add_name(alloc: Global, turn: &mut Turn, name: &[u8]) -> Result<(), Fault>
    ensures added { OnOk result (state_of turn.new ≡ named name.now (state_of turn.old)) }
    ensures kept { OnErr result (state_of turn.new ≡ state_of turn.old) }
{
    let name = text(alloc, name)?;
    match turn.asked {
        None => turn.order.names.push(name)?,
        Some(_) => turn.listed.push(name)?,
    }
    Ok(())
}

/// Adds a name to a turn: before the first call is asked for that of a part which the command is about; while a listing is asked for one
/// of those that it gives.
///
/// Refused are `NotOpen` if the handle is closed, `Syntax` if the name is no text, and `Memory`.
#[unsafe(no_mangle)]
pub extern "C" fn lanes_folder_name(
    alloc: Global,
    name: &[u8],
    turn: &mut FolderTurn,
    place: &mut Place,
) -> u8
    ensures { Adds (named name.now) result turn.old.state turn.new.state }
{
    let Some(mut held) = replace(turn, FolderTurn::closed()).into_box(alloc) else {
        *place = Place::nowhere();
        return NOT_OPEN;
    };
    let added = add_name(alloc, &mut held, name);
    drop(replace(turn, FolderTurn::of_box(held)).into_box(alloc));
    match added {
        Ok(()) => {
            *place = Place::nowhere();
            0
        }
        Err(fault) => {
            *place = fault.place();
            fault.number()
        }
    }
}

/// Adds a name to those of the parts on which the order's part relies.
fn add_relied(alloc: Global, turn: &mut Turn, name: &[u8]) -> Result<(), Fault>
    ensures added { OnOk result (state_of turn.new ≡ relying name.now (state_of turn.old)) }
    ensures kept { OnErr result (state_of turn.new ≡ state_of turn.old) }
{
    let name = text(alloc, name)?;
    turn.order.relied.push(name)?;
    Ok(())
}

/// Adds to a turn the name of a part on which the part relies that is put, before the first call is asked for.
///
/// Refused are `NotOpen` if the handle is closed, `Syntax` if the name is no text, and `Memory`.
#[unsafe(no_mangle)]
pub extern "C" fn lanes_folder_relied(
    alloc: Global,
    name: &[u8],
    turn: &mut FolderTurn,
    place: &mut Place,
) -> u8
    ensures { Adds (relying name.now) result turn.old.state turn.new.state }
{
    let Some(mut held) = replace(turn, FolderTurn::closed()).into_box(alloc) else {
        *place = Place::nowhere();
        return NOT_OPEN;
    };
    let added = add_relied(alloc, &mut held, name);
    drop(replace(turn, FolderTurn::of_box(held)).into_box(alloc));
    match added {
        Ok(()) => {
            *place = Place::nowhere();
            0
        }
        Err(fault) => {
            *place = fault.place();
            fault.number()
        }
    }
}

/// The answer of a number, with what it has with it. Each other number says that the call failed.
fn answer_of(
    alloc: Global,
    turn: &mut Turn,
    kind: u8,
    number: u64,
    bytes: &[u8],
) -> Result<Answer, AllocError>
    ensures fits { IfOk result (λ answer. Fits kind number bytes.now (state_of turn.old).listed answer) }
    ensures left { (state_of turn.new).listed ≡ names_left kind (state_of turn.old).listed }
    ensures same { ((state_of turn.new).calls ≡ (state_of turn.old).calls) × ((state_of turn.new).asked ≡ (state_of turn.old).asked) × IsAbout (state_of turn.new) (state_of turn.old) }
{
    Ok(match kind {
        1 => Answer::Done,
        3 => Answer::Taken,
        4 => Answer::Wrote {
            count: number as usize,
        },
        5 => Answer::Listed {
            names: replace(&mut turn.listed, Vec::new(alloc)),
        },
        6 => Answer::Missing,
        7 => Answer::Found {
            bytes: copied(alloc, bytes)?,
        },
        _ => Answer::FailedBy {
            code: i32::try_from(number).unwrap_or(0),
        },
    })
}

/// Tells what came of the call that is asked for.
fn tell(alloc: Global, turn: &mut Turn, kind: u8, number: u64, bytes: &[u8]) -> Result<(), Fault>
    ensures about { IsAbout (state_of turn.new) (state_of turn.old) }
    ensures told { OnOk result (HasTold kind number bytes.now (state_of turn.old) (state_of turn.new).calls) }
    ensures lost { IfErr result (λ fault. ((state_of turn.new).calls ≡ (state_of turn.old).calls) × (fault ≡ Refused Memory)) }
    ensures left { (state_of turn.new).listed ≡ names_left kind (state_of turn.old).listed }
{
    let answer = answer_of(alloc, turn, kind, number, bytes)?;
    Ok(turn.tell(answer)?)
}

/// A call that has no names, by its number.
fn plain(alloc: Global, kind: u64, number: u64) -> Asked
    ensures { (result.call.kind ≡ kind) × (result.call.number ≡ number) × (result.names.items ≡ []) }
{
    Asked {
        call: FolderCall { kind, number },
        names: Vec::new(alloc),
    }
}

/// A call of one name.
fn of_name(alloc: Global, kind: u64, name: &str) -> Result<Asked, AllocError>
    ensures { IfOk result (λ asked. (asked.call.kind ≡ kind) × (asked.names.items ≡ name.now)) }
{
    Ok(Asked {
        call: FolderCall { kind, number: 0 },
        names: copied(alloc, name.as_bytes())?,
    })
}

/// A call of two names.
fn of_names(alloc: Global, kind: u64, from: &str, to: &str) -> Result<Asked, AllocError>
    ensures { IfOk result (λ asked. (asked.call.kind ≡ kind) × (asked.names.items ≡ from.now ++ to.now) × (asked.call.number ≡ length from.now)) }
{
    let mut names = copied(alloc, from.as_bytes())?;
    names.extend_from_slice(to.as_bytes())?;
    Ok(Asked {
        call: FolderCall {
            kind,
            number: from.len() as u64,
        },
        names,
    })
}

/// A call as C is asked for it.
fn asked_as(alloc: Global, request: &Request) -> Result<Asked, AllocError>
    ensures { IfOk result (λ asked. (part : List ℕ) → IsAsked (call_asked part request.now) part asked.call asked.names.items) }
{
    match request {
        Request::Make { name } => of_name(alloc, 1, name.as_str()),
        Request::Write { from } => Ok(plain(alloc, 2, *from as u64)),
        Request::Sync => Ok(plain(alloc, 3, 0)),
        Request::Link { from, to } => of_names(alloc, 4, from.as_str(), to.as_str()),
        Request::Remove { name } => of_name(alloc, 5, name.as_str()),
        Request::Settle => Ok(plain(alloc, 6, 0)),
        Request::Lock => Ok(plain(alloc, 7, 0)),
        Request::LockShared => Ok(plain(alloc, 8, 0)),
        Request::ListNames => Ok(plain(alloc, 9, 0)),
        Request::ReadFile { name } => of_name(alloc, 10, name.as_str()),
        Request::Unlock => Ok(plain(alloc, 11, 0)),
    }
}

/// A fault of the system, by its error: others have the folder, or a call failed.
fn fault_of(error: io::Error) -> Fault
    ensures { (result ≡ Busy) ⊎ ((code : ℕ) × (result ≡ System code)) }
{
    match error.raw_os_error() {
        Some(OTHERS_HAVE_IT) => Fault::Busy,
        Some(code) => Fault::System {
            code: u64::from(code.unsigned_abs()),
        },
        None => Fault::System { code: 0 },
    }
}

/// What a turn has come to, by its number: 1 is that the part is on the disk, 2 that it is there and could not be synced, 3 that something
/// is gone, and 4 that a part is there that was not seen, so that the command is to be begun anew.
fn number_of_end(end: io::Result<End>) -> Result<u64, Fault>
    ensures { MatchResult result (λ number. EndsAs end number) (λ fault. EndsIn end fault) }
{
    match end {
        Ok(End::Came(Outcome::OnDisk)) => Ok(1),
        Ok(End::Came(Outcome::Unsynced)) => Ok(2),
        Ok(End::Came(Outcome::Gone)) | Ok(End::Overtaken) => Ok(3),
        Ok(End::Unseen) => Ok(4),
        Ok(End::Came(Outcome::Damaged)) => Err(Fault::Damaged),
        Ok(End::Listed(_)) | Ok(End::Kept) => Ok(0),
        Err(error) => Err(fault_of(error)),
    }
}

/// What a turn asks for next, or what it has come to.
fn go_on(alloc: Global, turn: &mut Turn) -> Result<Asked, Fault>
    ghost before: { List Call }
    ensures about { IsAbout (state_of turn.new) (state_of turn.old) }
    ensures calls { (state_of turn.new).calls ≡ (state_of turn.old).calls }
    ensures left { (state_of turn.new).listed ≡ (state_of turn.old).listed }
    ensures goes { MatchResult result (λ asked. GoesOn before (state_of turn.new) asked.call (Ok asked.names.items))
        (λ fault. (call : FolderCall) → GoesOn before (state_of turn.new) call (Err fault)) }
{
    if let Some(end) = turn.go_on(alloc)? {
        let number = number_of_end(end)?;
        return Ok(plain(alloc, 0, number));
    }
    match &turn.asked {
        Some(request) => Ok(asked_as(alloc, request)?),
        None => Ok(plain(alloc, 0, 0)),
    }
}

/// Tells what came of the call that is asked for, unless the answer is 0; and what is asked for next.
fn drive(
    alloc: Global,
    turn: &mut Turn,
    kind: u8,
    number: u64,
    bytes: &[u8],
) -> Result<Asked, Fault>
    ghost before: { List Call }
    ensures { MatchResult result (λ asked. Drives before kind number bytes.now (state_of turn.old) (state_of turn.new) asked.call (Ok asked.names.items))
        (λ fault. (call : FolderCall) → Drives before kind number bytes.now (state_of turn.old) (state_of turn.new) call (Err fault)) }
{
    if kind != 0 {
        tell(alloc, turn, kind, number, bytes)?;
    }
    go_on(alloc, turn)
}

/// Tells what came of the call on the folder that was asked for, and asks for the next one: its kind, and its names in the room.
///
/// Refused are `NotOpen` if the handle is closed, `Memory`, and what the command has come to: `Busy`, `Damaged` or `System`.
#[unsafe(no_mangle)]
pub extern "C" fn lanes_folder_next(
    alloc: Global,
    turn: &mut FolderTurn,
    answer: u8,
    number: u64,
    bytes: &[u8],
    call: &mut FolderCall,
    room: &mut [u8],
    length: &mut usize,
    place: &mut Place,
) -> u8
    ghost before: { List Call }
    ensures { Tells (DrivesOpen before answer number bytes.now turn.old turn.new call.new) result room.old room.new length.new place.new }
{
    let Some(mut held) = replace(turn, FolderTurn::closed()).into_box(alloc) else {
        return hand_out(Err(Fault::NotOpen), room, length, place);
    };
    let driven = drive(alloc, &mut held, answer, number, bytes);
    drop(replace(turn, FolderTurn::of_box(held)).into_box(alloc));
    match driven {
        Ok(Asked { call: asked, names }) => {
            *call = asked;
            hand_out(Ok(names), room, length, place)
        }
        Err(fault) => hand_out(Err(fault), room, length, place),
    }
}

/// Ends a turn. What was asked for and not told may have been done, in part or not. A closed handle may be ended again.
#[unsafe(no_mangle)]
pub extern "C" fn lanes_folder_end(alloc: Global, turn: &mut FolderTurn)
    ensures { turn.new.state ≡ None }
{
    drop(replace(turn, FolderTurn::closed()).into_box(alloc));
}

/// The name of a part by its bytes.
fn name_of(alloc: Global, part: &[u8]) -> Result<Vec<u8>, Fault>
    ensures { Yields (given_by result) (Ok (part_name part.now)) }
{
    let name = part_name(alloc, part)?;
    Ok(copied(alloc, name.as_bytes())?)
}

/// Gives the name that a part with these bytes has.
#[unsafe(no_mangle)]
pub extern "C" fn lanes_part_name(
    alloc: Global,
    part: &[u8],
    room: &mut [u8],
    length: &mut usize,
    place: &mut Place,
) -> u8
    ensures { Tells (λ given. Yields given (Ok (part_name part.now))) result room.old room.new length.new place.new }
{
    hand_out(name_of(alloc, part), room, length, place)
}
