//! Laws of disks, each the contract of a function that does nothing.
ghost use Rattle.std.specs.Prelude.{List, ℕ, Option};
ghost use Rattle.file_protocol.specs.Disk.{Disk, MayLeave, Reads};
ghost use Rattle.file_protocol.specs.Processes.{OwnerLaws};
ghost use Rattle.file_protocol.specs.Safe.{Restarts};
ghost use Rattle.file_protocol.specs.Whole.{HoldingThenReplacing};

/// After a loss of power the file reads as one of those that a crash may leave.
pub fn restarts()
    ensures { (name : List ℕ) (d e : Disk) → Restarts d e → (c : Option (List ℕ)) → Reads e name c → MayLeave d name c }
{}

/// A command that takes the lock and then replaces the file, on whatever disk, leaves the old bytes or the new ones, at whatever moment a crash comes.
pub fn holding_then_replacing()
    ensures { HoldingThenReplacing }
{}

/// Of processes that own what they touch, as the clauses `own` say: whatever any number of them do at once, none touches what another has
/// locked.
pub fn owners_leave_alone()
    ensures { OwnerLaws }
{}
