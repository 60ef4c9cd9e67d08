//! The laws of folders, each the contract of a function that does nothing.
ghost use Rattle.folder_parts.specs.CoverLaws.{CoverLaws};
ghost use Rattle.folder_parts.specs.FolderLaws.{FolderLaws};
ghost use Rattle.folder_parts.specs.ForgetFolderLaws.{ForgetFolderLaws};
ghost use Rattle.folder_parts.specs.BroughtParts.{PartsAreBrought};
ghost use Rattle.folder_parts.specs.Heads.{HeadsAreAhead};

use crate::heads::HEAD_BYTES;

/// Folders whose parts hold the same operations have the same joined file, byte for byte, and the same replica, so the same answers: in
/// whatever order, however often and in however many parts it lies. A part that comes adds what it holds. A pack keeps what a folder
/// holds: next to what it joined, and after that is removed. Whatever parts come and go, by whomever and in whatever order: if each
/// that goes holds less than one that came before, all that ever came is held at every moment; and a part that a pack removes holds
/// less than the pack. Each command's part holds what the same command adds to a file, so that a folder and a file that took the same
/// have the same file.
pub fn folder_laws()
    ensures { FolderLaws }
{}

/// What a command brings to what all parts hold is the part that the laws of folders speak of; and so is what an import under a drawn name
/// and a delete by names bring to an empty table. Such a delete always has something to put.
pub fn parts_are_brought()
    ensures { PartsAreBrought }
{}

/// What the parts of a folder represent are operations, some of whose batches may have been forgotten. A pack and a forget represent all
/// that the parts represent that they were made of, and may take their place: next to these and after these are removed the folder's
/// rows and answers are as they were. Folders that represent the same, and a folder and a file, have the same bytes once each has
/// forgotten. Whatever parts come, and whatever packs and forgets remove, each while what it made is there: the parts that are there
/// represent all that ever came, at every moment.
pub fn forget_folder_laws()
    ensures { ForgetFolderLaws }
{}

/// Which parts cover which, by their bytes: a part covers itself, and each of its table of which it has every deletion, and every batch but
/// for those of which it has all rows deleted. Covering is an order. A pack and a forget cover each part that they were made of. What covers
/// a part represents all that it represents, and has the same rows and answers as the two joined. So the part may go.
pub fn cover_laws()
    ensures { CoverLaws }
{}

/// The first [`HEAD_BYTES`] bytes of a part have its head: what [`part_head`](crate::part_head) reads of the whole part it reads of them alone,
/// whatever the schema. The longest head has 2,189 bytes: that of 32 columns, all with names of 64 letters.
pub fn heads_are_ahead()
    ensures { HeadsAreAhead HEAD_BYTES }
{}
