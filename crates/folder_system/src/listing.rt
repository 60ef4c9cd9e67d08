//! The names in a folder.

use crate::fault::FolderFault;
use std::fs::{self, File, Files};
use std::io::{self, ErrorKind};

/// The names that a folder has, in ascending order, each once.
#[derive(Drop)]
pub struct Listing {
    names: Vec<String>,
    unreadable: usize,
}

impl Listing {
    /// The names, in ascending order.
    pub fn into_names(self) -> Vec<String> {
        self.names
    }

    /// How many more names there are, which are not UTF-8.
    pub fn unreadable(&self) -> usize {
        self.unreadable
    }
}

/// The names in a folder, listed twice: those of both listings. Under a lock of the folder no file is removed meanwhile by who takes the
/// exclusive lock for it, so each file that was there before is among them.
pub fn list_locked<R: Files<File = File> + AllocGlobal + Clone + Drop>(
    rt: &R,
    folder: &str,
) -> Result<Listing, FolderFault> {
    let mut names = Vec::new(rt.alloc());
    let first = add_names(rt, folder, &mut names)?;
    let second = add_names(rt, folder, &mut names)?;
    names.sort()?;
    names.dedup();
    Ok(Listing {
        names,
        unreadable: first.max(second),
    })
}

/// Adds the names in a folder, and answers how many more there are that are not UTF-8.
fn add_names<R: Files<File = File> + AllocGlobal + Clone + Drop>(
    rt: &R,
    folder: &str,
    names: &mut Vec<String>,
) -> io::Result<usize> {
    let mut unreadable = 0usize;
    for entry in fs::read_dir(rt, folder)? {
        match entry {
            Ok(entry) => names.push(String::from_str(rt.alloc(), entry.file_name())?)?,
            Err(error) if error.kind() == ErrorKind::InvalidFilename => {
                unreadable = unreadable.saturating_add(1);
            }
            Err(error) => return Err(error),
        }
    }
    Ok(unreadable)
}
