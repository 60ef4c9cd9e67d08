//! The names of a file and of its lock.
ghost use Rattle.std.specs.Prelude.{◌≡◌, ◌<◌, length};
ghost use Rattle.std.specs.String.{string_bytes};

use crate::names::lock_of;
use std::alloc::{AllocError, Global};
use std::fs::{self, Files};
use std::io;

/// The name of a file and the name of its lock, which is a longer one in the same folder.
#[derive(Drop)]
pub struct Place {
    name: String,
    lock: String,
    pub ghost longer: { length (string_bytes name) < length (string_bytes lock) },
}

impl Place {
    /// The place of the file of this name, whose lock is `.NAME.lanes-lock` next to it.
    pub fn new(alloc: Global, name: String) -> Result<Place, AllocError> {
        let lock = lock_of(alloc, name.as_str())?;
        Ok(Place { name, lock })
    }

    /// The place of the file to which a name leads once its symbolic links are followed; of the name itself if there is no such file.
    pub fn followed<R: Files + AllocGlobal>(rt: &R, name: &str) -> Result<Place, AllocError> {
        match fs::canonicalize(rt, name) {
            Ok(path) => Place::new(rt.alloc(), path.into_string()),
            Err(error) if error.kind() == io::ErrorKind::OutOfMemory => Err(AllocError),
            Err(_) => Place::new(rt.alloc(), String::from_str(rt.alloc(), name)?),
        }
    }

    /// The file's name.
    pub fn name(&self) -> &str
        ensures { result.now ≡ string_bytes self.now.name }
    {
        self.name.as_str()
    }

    /// The lock's name.
    pub fn lock(&self) -> &str
        ensures { result.now ≡ string_bytes self.now.lock }
    {
        self.lock.as_str()
    }
}
