//! The laws of covering of files, as the contract of a function that does nothing.
ghost use Rattle.covering_laws.specs.CoveringLaws.{CoveringLaws};

/// By the rule by which a part of a folder covers another, the file that a command makes covers the one that it read, whichever command it
/// is. So does what others put in the file's place, if each made it of what was there, by a command or a merge. So the laws of a file as a
/// home hold of each command by this rule, with no premise on what covers what.
pub fn covering_laws()
    ensures { CoveringLaws }
{}
