//! Turns that are followed, and reads.
ghost use Rattle.std.specs.Prelude.{◌≡◌, List, ℕ, IfOk, OnOk};
ghost use Rattle.folder_model.specs.Call.{Call};
ghost use Rattle.folder_turns.specs.Turns.{AsksInTurn, EndsSaying, state_of};
ghost use Rattle.folder_drive.specs.Asks.{IsRead, FollowsTo, KeepsCalls};

use folder_turns::{End, Fault, Order, Request, Task, Turn};
use std::alloc::{AllocError, Global};
use std::io;

/// What comes of following a turn: a call is asked for, or it has ended.
#[derive(Drop)]
pub enum Followed {
    Asks(Turn),
    Ends(Turn, io::Result<End>),
}

/// Follows a turn.
pub(crate) fn follow(alloc: Global, turn: Turn) -> Result<Followed, Fault>
    ghost before: { List Call }
    // What is asked for is in turn, and an end says of the calls told what the order says.
    ensures goes { IfOk result (FollowsTo before) }
    // No call is told or forgotten.
    ensures keeps { IfOk result (KeepsCalls turn) }
{
    let mut turn = turn;
    match turn.go_on(alloc)? {
        None => Ok(Followed::Asks(turn)),
        Some(end) => Ok(Followed::Ends(turn, end)),
    }
}

/// A turn in which a folder is listed.
pub(crate) fn listing(alloc: Global) -> Turn {
    let order = Order {
        task: Task::List,
        temporary: String::new(alloc),
        name: String::new(alloc),
        bytes: Vec::new(alloc),
        names: Vec::new(alloc),
        relied: Vec::new(alloc),
    };
    Turn::new(alloc, order)
}

/// The read of the file of a name.
pub(crate) fn reading(alloc: Global, name: &str) -> Result<Request, AllocError>
    ensures { IfOk result IsRead }
{
    let name = String::from_str(alloc, name)?;
    Ok(Request::ReadFile { name })
}
