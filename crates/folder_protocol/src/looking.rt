//! A folder of which names are looked at.
ghost use Rattle.std.specs.Prelude.{◌≡◌, ◌∷◌, is_ok};
ghost use Rattle.folder_model.specs.Call.{Looked};

use crate::Folder;
use std::io::{self, Read};

/// What has a name in a folder. A link is followed.
#[derive(Clone, Copy, Debug, PartialEq, Eq, Drop)]
pub enum Found {
    Nothing,
    File {
        /// How many bytes it has.
        size: u64,
    },
    Folder,
    /// Neither a file nor a folder, such as a pipe.
    Other,
}

/// A file that is open to be looked into.
#[derive(Drop)]
pub struct Opened<D> {
    pub file: D,
    /// How many bytes it has.
    pub size: u64,
}

/// A folder of which names are looked at. What is seen of them is not noted. So nothing follows from it but what is read.
pub trait Looks: Folder {
    /// A file that is looked into.
    type File: Read + Drop;

    /// What has a name.
    fn find(&mut self, name: &str) -> io::Result<Found>
        ensures { Self.history self.new ≡ Looked name.now (is_ok result) ∷ Self.history self.old };

    /// Opens the file of a name to look into it. None if nothing has the name. The error is `IsADirectory` for a folder, and
    /// `InvalidInput` for what is neither a file nor a folder, such as a pipe.
    fn open(&mut self, name: &str) -> io::Result<Option<Opened<Self::File>>>
        ensures { Self.history self.new ≡ Looked name.now (is_ok result) ∷ Self.history self.old };
}
