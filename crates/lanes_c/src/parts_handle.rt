//! C's handle of parts of a folder that were read.
ghost use Rattle.std.specs.Prelude.{◌≡◌, MatchOption};
ghost use Rattle.std.specs.Coded.{coded_option};
ghost use Rattle.std.specs.declared.option.Option.{Option as Maybe};
ghost use Rattle.std.specs.declared.option.Option.TheVariants.{None as Closed, Some as Open};
ghost use Rattle.lanes_c.specs.PartsHandles.{Read, coded_read, parts_own};

use crate::loose::Loose;
use crate::read_parts::ReadParts;
use std::alloc::Global;
use std::boxed::Box;
use std::marker::Model;

/// A handle: a null pointer if it is closed, and else the pointer of a box, which has parts that were read.
///
/// It is no `Drop`, so a call that loses an open handle is refused by the check.
#[repr(C)]
pub struct FolderParts {
    at: *mut u8,
    pub ghost read: { Maybe Read } by { coded_option coded_read },
}

impl Model for FolderParts {
    ghost also_owns = { λ p. parts_own p.at p.read };
}

impl FolderParts {
    /// A closed handle.
    pub fn closed() -> FolderParts
        ensures { result.read ≡ Closed }
    {
        FolderParts {
            at: std::ptr::null_mut(),
        }
    }

    /// The handle of a box that was taken apart.
    fn of(parts: Loose<ReadParts, Global>) -> FolderParts
        ensures { result.read ≡ Open parts.value }
    {
        let Loose { at, alloc: _ } = parts;
        FolderParts { at: at as *mut u8 }
    }

    /// The box of a handle, taken apart; none if the handle is closed.
    fn into_loose(self, alloc: Global) -> Option<Loose<ReadParts, Global>>
        ensures { MatchOption result (self.read ≡ Closed) (λ parts. self.read ≡ Open parts.value) }
    {
        let FolderParts { at } = self;
        if at == std::ptr::null_mut() {
            None
        } else {
            let at = at as *mut ReadParts;
            Some(Loose { at, alloc })
        }
    }

    /// The open handle of a box.
    pub fn of_box(parts: Box<ReadParts>) -> FolderParts
        ensures { result.read ≡ Open parts.value }
    {
        FolderParts::of(Loose::of(parts))
    }

    /// The box of a handle; none if the handle is closed.
    pub fn into_box(self, alloc: Global) -> Option<Box<ReadParts>>
        ensures { MatchOption result (self.read ≡ Closed) (λ parts. self.read ≡ Open parts.value) }
    {
        match self.into_loose(alloc) {
            None => None,
            Some(loose) => Some(loose.into_box()),
        }
    }
}
