//! Laws of files, of forgetting and of imports, each the contract of a function that does nothing.
ghost use Rattle.replica_changes.specs.DumpLaws.{DumpLaws};
ghost use Rattle.replica_changes.specs.FileLaws.{FileLaws};
ghost use Rattle.replica_changes.specs.ForgetFileLaws.{ForgetFileLaws};
ghost use Rattle.replica_changes.specs.Loads.{DrawnNamesAreFree};

/// What a file holds is a set of operations, and its bytes are the canonical file of the state that these make. A new file holds
/// nothing; import, delete, delete-rows, apply and merge add to what a file holds what their steps add in a history, and an offer of
/// a file's state brings what the file holds. So files that took the same have the same bytes, in whatever order, however often and
/// by whatever messages it came.
pub fn file_laws()
    ensures { FileLaws }
{}

/// What a file represents is a set of operations, and it is the canonical file of the state that these make without some batches of
/// which every row is deleted. Import, delete, delete-rows, apply, merge and pulls add to what a file represents what they add to what a
/// file holds, if names agree over all of it; a forget adds nothing. So files that took the same inserts and deletes, in any order,
/// with any repeats, merges, exchanges and forgets, answer each query alike, by its meaning over the rows not deleted; and once each
/// has forgotten they have the same bytes.
pub fn forget_file_laws()
    ensures { ForgetFileLaws }
{}

/// The names that an import draws from random words are proper and consecutive, and none of them is held or has a deleted row.
pub fn drawn_names_are_free()
    ensures { DrawnNamesAreFree }
{}

/// What a dump without names writes is read as the live rows, in their order. If these are imported to a new file, it has the same live
/// rows in the same order.
pub fn dump_laws()
    ensures { DumpLaws }
{}
