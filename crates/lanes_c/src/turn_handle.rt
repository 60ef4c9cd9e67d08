//! C's handle of a turn at a folder.
ghost use Rattle.std.specs.Prelude.{◌≡◌, MatchOption};
ghost use Rattle.std.specs.Coded.{coded_option};
ghost use Rattle.std.specs.declared.option.Option.{Option as Maybe};
ghost use Rattle.std.specs.declared.option.Option.TheVariants.{None as Closed, Some as Open};
ghost use Rattle.folder_turns.specs.Turns.{State, coded_state, state_of};
ghost use Rattle.lanes_c.specs.TurnHandles.{turn_owns};

use crate::loose::Loose;
use folder_turns::Turn;
use std::alloc::Global;
use std::boxed::Box;
use std::marker::Model;

/// A handle: a null pointer if it is closed, and else the pointer of a box, which has a turn.
///
/// It is no `Drop`, so a call that loses an open handle is refused by the check.
#[repr(C)]
pub struct FolderTurn {
    at: *mut u8,
    pub ghost state: { Maybe State } by { coded_option coded_state },
}

impl Model for FolderTurn {
    ghost also_owns = { λ t. turn_owns t.at t.state };
}

impl FolderTurn {
    /// A closed handle.
    pub fn closed() -> FolderTurn
        ensures { result.state ≡ Closed }
    {
        FolderTurn {
            at: std::ptr::null_mut(),
        }
    }

    /// The handle of a box that was taken apart.
    fn of(turn: Loose<Turn, Global>) -> FolderTurn
        ensures { result.state ≡ Open (state_of turn.value) }
    {
        let Loose { at, alloc: _ } = turn;
        FolderTurn { at: at as *mut u8 }
    }

    /// The box of a handle, taken apart; none if the handle is closed.
    fn into_loose(self, alloc: Global) -> Option<Loose<Turn, Global>>
        ensures { MatchOption result (self.state ≡ Closed) (λ turn. self.state ≡ Open (state_of turn.value)) }
    {
        let FolderTurn { at } = self;
        if at == std::ptr::null_mut() {
            None
        } else {
            let at = at as *mut Turn;
            Some(Loose { at, alloc })
        }
    }

    /// The open handle of a box.
    pub fn of_box(turn: Box<Turn>) -> FolderTurn
        ensures { result.state ≡ Open (state_of turn.value) }
    {
        FolderTurn::of(Loose::of(turn))
    }

    /// The box of a handle; none if the handle is closed.
    pub fn into_box(self, alloc: Global) -> Option<Box<Turn>>
        ensures { MatchOption result (self.state ≡ Closed) (λ turn. self.state ≡ Open (state_of turn.value)) }
    {
        match self.into_loose(alloc) {
            None => None,
            Some(loose) => Some(loose.into_box()),
        }
    }
}
