//! A folder on a disk, as `folder_model` has it: what each name leads to, what it led to before since the folder was last synced, and of
//! each file its bytes and whether these are on the disk.

use crate::chance::Chance;
use std::alloc::{AllocError, Global};

/// A file.
#[derive(Drop)]
pub struct File {
    pub bytes: Vec<u8>,
    pub is_synced: bool,
}

/// A name.
#[derive(Drop)]
pub struct Name {
    pub text: String,
    /// The file that it leads to, by its number.
    pub file: Option<usize>,
    /// What it led to before, since the folder was last synced.
    pub earlier: Vec<Option<usize>>,
}

/// A folder on a disk.
#[derive(Drop)]
pub struct Disk {
    alloc: Global,
    pub files: Vec<File>,
    pub names: Vec<Name>,
}

impl Disk {
    /// One without files.
    pub fn new(alloc: Global) -> Disk {
        Disk {
            alloc,
            files: Vec::new(alloc),
            names: Vec::new(alloc),
        }
    }

    /// What a name leads to.
    pub fn find(&self, text: &str) -> Option<usize> {
        match self.names.iter().find(|name| name.text.as_str() == text) {
            Some(name) => name.file,
            None => None,
        }
    }

    /// Has a name lead to a file, or to none.
    pub fn lead(&mut self, text: &str, file: Option<usize>) -> Result<(), AllocError> {
        for name in self.names.iter_mut() {
            if name.text.as_str() == text {
                name.earlier.push(name.file)?;
                name.file = file;
                return Ok(());
            }
        }
        let mut earlier = Vec::new(self.alloc);
        earlier.push(None)?;
        self.names.push(Name {
            text: String::from_str(self.alloc, text)?,
            file,
            earlier,
        })?;
        Ok(())
    }

    /// A new file with these bytes: its number.
    pub fn add(&mut self, bytes: Vec<u8>, is_synced: bool) -> Result<usize, AllocError> {
        let number = self.files.len();
        self.files.push(File { bytes, is_synced })?;
        Ok(number)
    }

    /// Syncs the folder.
    pub fn settle(&mut self) {
        for name in self.names.iter_mut() {
            name.earlier.clear();
        }
        self.names.retain(|name| name.file.is_some());
    }

    /// The names that lead to a file, in ascending order.
    pub fn list(&self) -> Result<Vec<String>, AllocError> {
        let mut listed = Vec::new(self.alloc);
        for name in self.names.iter().filter(|name| name.file.is_some()) {
            listed.push(String::from_str(self.alloc, name.text.as_str())?)?;
        }
        listed.sort()?;
        Ok(listed)
    }

    /// Power is lost: each name leads to what it led to at some time since the folder was last synced, and a file that was not synced has
    /// any bytes.
    pub fn lose_power(&mut self, chance: &mut Chance) -> Result<(), AllocError> {
        for name in self.names.iter_mut() {
            let left = chance.below(name.earlier.len().saturating_add(1));
            if let Some(file) = name.earlier.get(left) {
                name.file = *file;
            }
            name.earlier.clear();
        }
        self.names.retain(|name| name.file.is_some());
        for file in self.files.iter_mut() {
            if !file.is_synced {
                let kept = chance.below(file.bytes.len().saturating_add(1));
                file.bytes.truncate(kept);
                if chance.once_in(2) {
                    file.bytes.push(200)?;
                }
                file.is_synced = true;
            }
        }
        Ok(())
    }
}
