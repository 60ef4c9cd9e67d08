//! What is run over a folder.
ghost use Rattle.std.specs.Prelude.{List};
ghost use Rattle.folder_model.specs.Call.{Call};
ghost use Rattle.folder_model.specs.Parts.{Parts};
ghost use Rattle.folder_protocol.specs.Goes.{GoesInTurn};

use folder_protocol::Folder;
use std::alloc::Global;

/// What one process does with a folder. Run again over the same answers, it makes the same calls.
pub trait Program {
    /// What it comes to.
    type Outcome: Drop;

    /// When its calls are in turn, by the calls before.
    ghost may_run: { Self → Parts → List Call → Type 0 };

    /// What its outcome says of all calls, after those before.
    ghost says: { Self → Self.Outcome → Parts → List Call → List Call → Type 0 };

    /// Does it.
    fn run<F: Folder>(&self, alloc: Global, folder: &mut F) -> Self::Outcome
        ensures in_turn { (parts : Parts) → may_run self.now parts (F.history folder.old) → GoesInTurn parts (F.history folder.old) (F.history folder.new) }
        ensures said { (parts : Parts) → may_run self.now parts (F.history folder.old) → says self.now result parts (F.history folder.old) (F.history folder.new) };
}
