//! Laws of commands on files, each the contract of a function that does nothing.
ghost use Rattle.file_commands.specs.HomeLaws.{FileHomeLaws};
ghost use Rattle.file_commands.specs.Throughout.{HoldingThenCommanding};

/// A command that takes the lock and then changes the file, on whatever disk: at whatever moment a crash comes, it leaves what could be left
/// before, or the file of the state after.
pub fn holding_then_commanding()
    ensures { HoldingThenCommanding }
{}

/// A file is a home: what was safe stays safe, what was answered is safe, and who reads has it.
pub fn files_keep()
    ensures { FileHomeLaws }
{}
