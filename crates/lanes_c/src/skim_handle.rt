//! C's handle of what was read of a folder's parts for a load under given names.
ghost use Rattle.std.specs.Prelude.{◌≡◌, MatchOption};
ghost use Rattle.std.specs.Coded.{coded_option};
ghost use Rattle.std.specs.declared.option.Option.{Option as Maybe};
ghost use Rattle.std.specs.declared.option.Option.TheVariants.{None as Closed, Some as Open};
ghost use Rattle.lanes_c.specs.SkimHandles.{Skimmed, coded_skim, skim_owns};

use crate::loose::Loose;
use folder_parts::Skim;
use std::alloc::Global;
use std::boxed::Box;
use std::marker::Model;

/// A handle: a null pointer if it is closed, and else the pointer of a box, which has what was read.
///
/// It is no `Drop`, so a call that loses an open handle is refused by the check.
#[repr(C)]
pub struct FolderSkim {
    at: *mut u8,
    pub ghost skim: { Maybe Skimmed } by { coded_option coded_skim },
}

impl Model for FolderSkim {
    ghost also_owns = { λ s. skim_owns s.at s.skim };
}

impl FolderSkim {
    /// A closed handle.
    pub fn closed() -> FolderSkim
        ensures { result.skim ≡ Closed }
    {
        FolderSkim {
            at: std::ptr::null_mut(),
        }
    }

    /// The handle of a box that was taken apart.
    fn of(skim: Loose<Skim, Global>) -> FolderSkim
        ensures { result.skim ≡ Open skim.value }
    {
        let Loose { at, alloc: _ } = skim;
        FolderSkim { at: at as *mut u8 }
    }

    /// The box of a handle, taken apart; none if the handle is closed.
    fn into_loose(self, alloc: Global) -> Option<Loose<Skim, Global>>
        ensures { MatchOption result (self.skim ≡ Closed) (λ skim. self.skim ≡ Open skim.value) }
    {
        let FolderSkim { at } = self;
        if at == std::ptr::null_mut() {
            None
        } else {
            let at = at as *mut Skim;
            Some(Loose { at, alloc })
        }
    }

    /// The open handle of a box.
    pub fn of_box(skim: Box<Skim>) -> FolderSkim
        ensures { result.skim ≡ Open skim.value }
    {
        FolderSkim::of(Loose::of(skim))
    }

    /// The box of a handle; none if the handle is closed.
    pub fn into_box(self, alloc: Global) -> Option<Box<Skim>>
        ensures { MatchOption result (self.skim ≡ Closed) (λ skim. self.skim ≡ Open skim.value) }
    {
        match self.into_loose(alloc) {
            None => None,
            Some(loose) => Some(loose.into_box()),
        }
    }
}
