//! How parts that are there already come to be on the disk.
ghost use Rattle.std.specs.Prelude.{◌≡◌, List, ℕ, map, OnOk, OnErr};
ghost use Rattle.std.specs.String.{string_bytes};
ghost use Rattle.folder_model.specs.Parts.{Parts};
ghost use Rattle.folder_protocol.specs.Causes.{Fails, HasCall};
ghost use Rattle.folder_protocol.specs.Goes.{GoesInTurn};
ghost use Rattle.folder_protocol.specs.Linking.{GoesPlainly};
ghost use Rattle.folder_protocol.specs.Keeping.{IsSyncedOrGone, AreKept, IsSyncedOrMissed, AreReliedOn};

use crate::Folder;
use std::alloc::Global;
use std::io;

/// Has the parts of these names on the disk, on which a command relies that puts none: it reads and syncs each, and then syncs the
/// folder. A name that is gone is no matter: a pack removes a part only once what covers it is on the disk.
pub fn keep_all<F: Folder>(alloc: Global, folder: &mut F, names: &[String]) -> io::Result<()>
    // Each call is in turn.
    ensures in_turn { (parts : Parts) → GoesInTurn parts (F.history folder.old) (F.history folder.new) }
    // Each part is kept, or gone.
    ensures kept { (parts : Parts) → OnOk result (AreKept parts (map string_bytes names.now) (F.history folder.old) (F.history folder.new)) }
    // An error has its cause: a call that failed.
    ensures fails { OnErr result (HasCall Fails (F.history folder.old) (F.history folder.new)) }
    // It gives no name, changes no lock, and lists nothing.
    ensures plain { GoesPlainly (F.history folder.old) (F.history folder.new) }
    // Each part of them that was read before is kept, or is gone and covered by another: either way it is safe.
    ensures safe { (parts : Parts) → OnOk result (AreReliedOn parts (map string_bytes names.now) (F.history folder.old) (F.history folder.new)) }
{
    let mut at = 0;
    while at < names.len() {
        keep_one(alloc, folder, names[at].as_str())?;
        at += 1;
    }
    folder.settle()
}

/// Reads and syncs the file of a name, if there is one.
fn keep_one<F: Folder>(alloc: Global, folder: &mut F, name: &str) -> io::Result<()>
    ensures in_turn { (parts : Parts) → GoesInTurn parts (F.history folder.old) (F.history folder.new) }
    ensures synced { (parts : Parts) → OnOk result (IsSyncedOrGone parts name.now (F.history folder.old) (F.history folder.new)) }
    ensures fails { OnErr result (HasCall Fails (F.history folder.old) (F.history folder.new)) }
    ensures plain { GoesPlainly (F.history folder.old) (F.history folder.new) }
    ensures missed { (parts : Parts) → OnOk result (IsSyncedOrMissed parts name.now (F.history folder.old) (F.history folder.new)) }
{
    if folder.read_whole(alloc, name)? {
        folder.sync()
    } else {
        Ok(())
    }
}
