//! Laws of scripts, each the contract of a function that does nothing.
ghost use Rattle.lanes_main.specs.FileHistory.{FilesAreExports};
ghost use Rattle.lanes_main.specs.FileReport.{FirstAnswersStay};
ghost use Rattle.lanes_main.specs.ScriptRun.{ScriptLaws};

/// A script is a history. Once one of its lines has made the table, the steps that its later lines ask for are a run from the
/// new cluster; what is written is that run's replies and the refusals of other lines; and the cluster is the run's. So two
/// replicas that took the same in any two scripts of one table are alike, and export the same bytes, the canonical file of that
/// table and the state of what they took.
pub fn script_laws()
    ensures { ScriptLaws }
{}

/// Queries over a file that version 1 accepted are answered as version 1 answered them.
pub fn first_answers_stay()
    ensures { FirstAnswersStay }
{}

/// Files hold what histories take. If a file of commands holds the same operations as a replica took in a history of one table, in
/// whatever order and however often, then the replica exports that file, byte for byte.
pub fn file_history_laws()
    ensures { FilesAreExports }
{}
