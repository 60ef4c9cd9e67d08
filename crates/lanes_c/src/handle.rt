//! C's handle of a file that is open.
ghost use Rattle.std.specs.Prelude.{◌≡◌, MatchOption};
ghost use Rattle.std.specs.Coded.{coded_option};
ghost use Rattle.std.specs.declared.option.Option.{Option as Maybe};
ghost use Rattle.std.specs.declared.option.Option.TheVariants.{None as Closed, Some as Open};
ghost use Rattle.lanes_c.specs.Handles.{table_owns};
ghost use Rattle.replica_store.specs.Replica.{Replica, coded_replica};

use crate::loose::Loose;
use crate::shared::Shared;
use std::alloc::Global;
use std::boxed::Box;
use std::marker::Model;

/// A handle: a null pointer if it is closed, and else the pointer of a box, which has a share of a file's store.
///
/// It is no `Drop`, so a call that loses an open handle is refused by the check.
#[repr(C)]
pub struct Table {
    at: *mut u8,
    pub ghost replica: { Maybe Replica } by { coded_option coded_replica },
}

/// The value itself, if its type is `Send`: a call is refused by the check if no proof of that is found.
fn sent<T: Send>(value: T) -> T
    ensures { result ≡ value }
{
    value
}

impl Model for Table {
    ghost also_owns = { λ t. table_owns t.at t.replica };
}

impl Table {
    /// A closed handle.
    pub fn closed() -> Table
        ensures { result.replica ≡ Closed }
    {
        Table {
            at: std::ptr::null_mut(),
        }
    }

    /// The handle of a box that was taken apart.
    fn of(shared: Loose<Shared, Global>) -> Table
        ensures { result.replica ≡ Open shared.value.store.value.replica }
    {
        let Loose { at, alloc: _ } = shared;
        Table { at: at as *mut u8 }
    }

    /// The box of a handle, taken apart; none if the handle is closed.
    fn into_loose(self, alloc: Global) -> Option<Loose<Shared, Global>>
        ensures { MatchOption result (self.replica ≡ Closed) (λ shared. self.replica ≡ Open shared.value.store.value.replica) }
    {
        let Table { at } = self;
        if at == std::ptr::null_mut() {
            None
        } else {
            let at = at as *mut Shared;
            Some(Loose { at, alloc })
        }
    }

    /// The open handle of a box. Both may go to another thread: [`sent`] has that checked.
    pub fn of_box(shared: Box<Shared>) -> Table
        ensures { result.replica ≡ Open shared.value.store.value.replica }
    {
        sent(Table::of(Loose::of(sent(shared))))
    }

    /// The box of a handle; none if the handle is closed.
    pub fn into_box(self, alloc: Global) -> Option<Box<Shared>>
        ensures { MatchOption result (self.replica ≡ Closed) (λ shared. self.replica ≡ Open shared.value.store.value.replica) }
    {
        match self.into_loose(alloc) {
            None => None,
            Some(loose) => Some(loose.into_box()),
        }
    }
}

unsafe impl Send for Table {}
