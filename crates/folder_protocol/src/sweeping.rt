//! How temporaries that nobody holds any more are removed.
ghost use Rattle.std.specs.Prelude.{◌≡◌, ◌∷◌, ◌++◌, List, ℕ, Bool, true, false, None, map, OnOk, OnErr};
ghost use Rattle.std.specs.String.{string_bytes};
ghost use Rattle.folder_model.specs.Call.{Call, Removed, lock_of};
ghost use Rattle.folder_model.specs.Disk.{Among};
ghost use Rattle.folder_model.specs.Parts.{Parts, IsNoPart};
ghost use Rattle.folder_model.specs.Turn.{Gave, listing_of};
ghost use Rattle.folder_protocol.specs.Causes.{Fails, HasCall};
ghost use Rattle.folder_protocol.specs.Goes.{GoesInTurn};
ghost use Rattle.folder_protocol.specs.Linking.{GoesPlainly};
ghost use Rattle.folder_protocol.specs.Sweeping.{Tries, HasSwept, RemovesTemporaries};
ghost use Rattle.folder_protocol.specs.Temporary.{is_temporary};

use crate::Folder;
use crate::listing::list_names;
use crate::temporary::is_temporary;
use std::alloc::Global;
use std::io;

/// A folder of which names are removed that no process holds.
pub trait Sweeps: Folder {
    /// Removes the file of a name, unless a process holds it, or it is no plain file. One that is gone is no error. If it was not
    /// removed it is noted as a removal that failed, whether that is an error or not.
    fn sweep(&mut self, name: &str) -> io::Result<()>
        ensures noted { (ok : Bool) × (Self.history self.new ≡ Removed name.now ok ∷ Self.history self.old) }
        ensures fails { OnErr result (Self.history self.new ≡ Removed name.now false ∷ Self.history self.old) };
}

/// Removes the temporaries of a folder that no process holds. No age is looked at. One that can't be removed is passed over.
pub fn sweep<F: Sweeps>(alloc: Global, folder: &mut F) -> io::Result<()>
    // Each call is in turn, if no name of a temporary is a part's.
    ensures in_turn { (parts : Parts) → ((name : List ℕ) → is_temporary name ≡ true → IsNoPart parts name) → GoesInTurn parts (F.history folder.old) (F.history folder.new) }
    // Each temporary that a listing under the lock gave was to be removed.
    ensures swept { OnOk result (HasSwept (F.history folder.old) (F.history folder.new)) }
    // No other name is removed, whatever the answer is.
    ensures only { RemovesTemporaries (F.history folder.old) (F.history folder.new) }
    // An error has its cause: a call that failed.
    ensures fails { OnErr result (HasCall Fails (F.history folder.old) (F.history folder.new)) }
    // It leaves no lock, whatever the answer is.
    ensures unlocked { lock_of (F.history folder.new) ≡ None }
{
    let listed = list_names(alloc, folder)?;
    sweep_each(folder, listed.as_slice());
    Ok(())
}

/// Removes those of these names that are temporaries', and that no process holds.
fn sweep_each<F: Sweeps>(folder: &mut F, names: &[String])
    ensures in_turn { (parts : Parts) → ((name : List ℕ) → is_temporary name ≡ true → IsNoPart parts name) → GoesInTurn parts (F.history folder.old) (F.history folder.new) }
    ensures listing { (listed : List (List ℕ)) → listing_of (F.history folder.old) ≡ Gave listed → listing_of (F.history folder.new) ≡ Gave listed }
    ensures swept { (name : List ℕ) → Among name (map string_bytes names.now) → is_temporary name ≡ true → HasCall (Tries name) (F.history folder.old) (F.history folder.new) }
    ensures plain { GoesPlainly (F.history folder.old) (F.history folder.new) }
    ensures only { RemovesTemporaries (F.history folder.old) (F.history folder.new) }
{
    let mut at = 0;
    while at < names.len() {
        sweep_one(folder, names[at].as_str());
        at += 1;
    }
}

/// Removes a name if it is a temporary's, and no process holds that.
fn sweep_one<F: Sweeps>(folder: &mut F, name: &str)
    ensures in_turn { (parts : Parts) → ((other : List ℕ) → is_temporary other ≡ true → IsNoPart parts other) → GoesInTurn parts (F.history folder.old) (F.history folder.new) }
    ensures follows { (calls : List Call) × (F.history folder.new ≡ calls ++ F.history folder.old) }
    ensures listing { (listed : List (List ℕ)) → listing_of (F.history folder.old) ≡ Gave listed → listing_of (F.history folder.new) ≡ Gave listed }
    ensures swept { is_temporary name.now ≡ true → HasCall (Tries name.now) (F.history folder.old) (F.history folder.new) }
    ensures plain { GoesPlainly (F.history folder.old) (F.history folder.new) }
    ensures only { RemovesTemporaries (F.history folder.old) (F.history folder.new) }
{
    if is_temporary(name) {
        let _ = folder.sweep(name);
    }
}
