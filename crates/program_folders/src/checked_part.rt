//! A part that is compared with its name before anything is read from it.

use folder_parts::is_part;
use folder_system::read_part;
use program_inputs::Host;
use std::io::{self, ErrorKind, Read};

/// Why nothing is read from a part.
#[derive(Clone, Copy, Debug, PartialEq, Eq)]
pub enum PartReason {
    /// It is gone.
    Gone,
    /// The system does not read it, for this reason.
    Unread(ErrorKind),
    /// Its bytes are not those of its name.
    Damaged,
}

/// A part of a folder, which is read whole and compared with its name at the first read. If it has other bytes the read fails.
#[derive(Drop)]
pub struct CheckedPart<'r, 'n, R> {
    rt: &'r R,
    folder: &'n str,
    name: &'n str,
    bytes: Option<Vec<u8>>,
    at: usize,
    is_begun: bool,
    reason: Option<PartReason>,
}

impl<'r, 'n, R> CheckedPart<'r, 'n, R> {
    /// The part of this path, which ends in its name.
    pub fn new(rt: &'r R, path: &'n str) -> CheckedPart<'r, 'n, R> {
        let (folder, name) = match path.rsplit_once('/') {
            None => (".", path),
            Some(("", name)) => ("/", name),
            Some(both) => both,
        };
        CheckedPart {
            rt,
            folder,
            name,
            bytes: None,
            at: 0,
            is_begun: false,
            reason: None,
        }
    }

    /// Why nothing is read from it, if that is so.
    pub fn reason(&self) -> Option<PartReason> {
        self.reason
    }
}

impl<'r, 'n, R: Host> CheckedPart<'r, 'n, R> {
    /// Reads the file whole, and compares it with its name.
    fn begin(&mut self) -> io::Result<()> {
        self.is_begun = true;
        match self.read_whole() {
            Ok(Some(bytes)) => {
                if is_part(self.rt.alloc(), self.name, bytes.as_slice())? {
                    self.bytes = Some(bytes);
                } else {
                    self.reason = Some(PartReason::Damaged);
                }
            }
            Ok(None) => self.reason = Some(PartReason::Gone),
            Err(error) => self.reason = Some(PartReason::Unread(error.kind())),
        }
        Ok(())
    }

    /// The bytes of the file, if it is there.
    fn read_whole(&self) -> io::Result<Option<Vec<u8>>> {
        read_part(self.rt, self.folder, self.name)
    }
}

impl<'r, 'n, R: Host> Read for CheckedPart<'r, 'n, R> {
    fn read(&mut self, buffer: &mut [u8]) -> io::Result<usize> {
        if !self.is_begun {
            self.begin()?;
        }
        if self.reason.is_some() {
            return Err(io::Error::from(ErrorKind::InvalidData));
        }
        let Some(bytes) = &self.bytes else {
            return Ok(0);
        };
        let rest = bytes.as_slice().get(self.at..).unwrap_or(&[]);
        let count = rest.len().min(buffer.len());
        let (out, _) = buffer.split_at_mut(count);
        let (given, _) = rest.split_at(count);
        out.copy_from_slice(given);
        self.at = self.at.saturating_add(count);
        if count == 0 && !buffer.is_empty() {
            self.bytes = None;
        }
        Ok(count)
    }
}
