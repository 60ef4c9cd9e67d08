//! A turn of a process: an order that has parts on the disk which were read, and maybe puts one that relies on them or goes with them.

use crate::claims::Marks;
use crate::work::Came;
use folder_protocol::{Naming, Outcome};
use folder_turns::{Answer, End, Fault, Request, Step, Turn};
use std::alloc::{AllocError, Global};
use std::io;

/// What an order has come to.
fn came_of(end: io::Result<End>) -> io::Result<Came> {
    Ok(match end? {
        End::Came(Outcome::OnDisk) | End::Kept => Came::Stored,
        _ => Came::Nothing,
    })
}

/// What a turn asks for next, or what it has come to.
pub fn step(alloc: Global, turn: &mut Turn) -> Result<Step<io::Result<Came>>, Fault> {
    match turn.go_on(alloc)? {
        Some(end) => Ok(Step::Ends(came_of(end))),
        None => match turn.asked.take() {
            Some(request) => Ok(Step::Asks(request)),
            None => Err(Fault::Strayed),
        },
    }
}

/// Tells a turn what came of the call that it asked for. Of a listing it is told the names of parts alone, as drivers do it.
pub fn tell(turn: &mut Turn, request: Request, answer: Answer) -> Result<(), AllocError> {
    turn.asked = Some(request);
    match answer {
        Answer::Listed { mut names } => {
            names.retain(|name| Marks.is_part_name(name.as_str()));
            turn.tell(Answer::Listed { names })
        }
        other => turn.tell(other),
    }
}
