//! The laws, as the contract of a function that does nothing.
ghost use Rattle.folder_model.specs.Folders.{FoldersKeep};
ghost use Rattle.folder_model.specs.Laws.{FolderHistoryLaws};

/// What was put is never lost, and who reads has it.
pub fn folder_model_laws()
    ensures { FolderHistoryLaws }
{}

/// A folder is a home: what was safe stays safe, what was answered is safe, and who reads has it.
pub fn folders_keep()
    ensures { FoldersKeep }
{}
