//! How the names in a folder are listed.
ghost use Rattle.std.specs.Prelude.{◌≡◌, None, map, IfOk, OnErr};
ghost use Rattle.std.specs.String.{string_bytes};
ghost use Rattle.folder_model.specs.Call.{lock_of};
ghost use Rattle.folder_model.specs.Parts.{Parts};
ghost use Rattle.folder_model.specs.Turn.{Gave, listing_of};
ghost use Rattle.folder_protocol.specs.Goes.{GoesInTurn};
ghost use Rattle.folder_protocol.specs.Causes.{Fails, HasCall};
ghost use Rattle.folder_protocol.specs.Linking.{LinksNone};
ghost use Rattle.folder_protocol.specs.Sweeping.{RemovesOnly};

use crate::Folder;
use std::alloc::Global;
use std::io;

/// The names in a folder, listed under its shared lock. Each that was there when the listing began is among them, unless it was removed
/// meanwhile.
pub fn list_names<F: Folder>(alloc: Global, folder: &mut F) -> io::Result<Vec<String>>
    // Each call is in turn.
    ensures in_turn { (parts : Parts) → GoesInTurn parts (F.history folder.old) (F.history folder.new) }
    // These are the names that the last listing gave.
    ensures listed { IfOk result (λ names. listing_of (F.history folder.new) ≡ Gave (map string_bytes names.items)) }
    // An error has its cause: a call that failed.
    ensures fails { OnErr result (HasCall Fails (F.history folder.old) (F.history folder.new)) }
    // It leaves no lock, whatever the answer is.
    ensures unlocked { lock_of (F.history folder.new) ≡ None }
    // It gives no name, and removes none.
    ensures unlinked { LinksNone (F.history folder.old) (F.history folder.new) }
    ensures unremoved { RemovesOnly (λ name. ⊥) (F.history folder.old) (F.history folder.new) }
{
    folder.lock_shared()?;
    let listed = folder.list(alloc);
    folder.unlock();
    listed
}
