//! What was put into a folder is in what is answered of it later.
ghost use Rattle.folder_commands.specs.Answered.{AnsweredLaws};

/// What any process had put before a listing of the folder is in what is read under the names that the listing gave, and so is what it had
/// read, and found gone later, and had synced the folder after that: the join of all that is read has all of it. So what was put is in the
/// text of each query over that join, and a delete by a condition finds its rows.
pub fn answered_laws()
    ensures { AnsweredLaws }
{}
