//! How temporaries are removed from a folder of parts.
ghost use Rattle.std.specs.Prelude.{◌≡◌, None, OnOk, OnErr};
ghost use Rattle.folder_model.specs.Call.{lock_of};
ghost use Rattle.folder_protocol.specs.Causes.{Fails, HasCall};
ghost use Rattle.folder_protocol.specs.Goes.{GoesInTurn};
ghost use Rattle.folder_protocol.specs.Sweeping.{HasSwept, RemovesTemporaries};
ghost use Rattle.folder_parts.specs.Covers.{folder_parts};

use folder_protocol::{self, Sweeps};
use std::alloc::Global;
use std::io;

/// Removes the temporaries of a folder that no process holds. One that can't be removed is passed over.
pub fn sweep<F: Sweeps>(alloc: Global, folder: &mut F) -> io::Result<()>
    // Each call is in turn, since the name of a temporary is no part's.
    ensures in_turn { GoesInTurn folder_parts (F.history folder.old) (F.history folder.new) }
    // Each temporary that a listing under the lock gave was to be removed.
    ensures swept { OnOk result (HasSwept (F.history folder.old) (F.history folder.new)) }
    // No other name is removed, whatever the answer is; and it leaves no lock.
    ensures only { RemovesTemporaries (F.history folder.old) (F.history folder.new) }
    ensures unlocked { lock_of (F.history folder.new) ≡ None }
    // An error has its cause: a call that failed.
    ensures fails { OnErr result (HasCall Fails (F.history folder.old) (F.history folder.new)) }
{
    folder_protocol::sweep(alloc, folder)
}
