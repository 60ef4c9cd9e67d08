//! What a process does with the folder, by the code of `folder_protocol`.
use crate::claims::Marks;
use folder_protocol::{Folder, Outcome, put, read_all, remove_joined, replace};
use folder_turns::Program;
use std::alloc::Global;
use std::io;

/// What a reading is for.
#[derive(Clone, Copy, Debug, PartialEq, Eq, Drop)]
pub enum Purpose {
    /// To have what is there.
    Have,
    /// To join all parts.
    Pack,
    /// To join them and drop what is dead.
    Forget,
    /// To rely on them.
    Rely,
}

/// What a process does.
#[derive(Debug, Drop)]
pub enum Work {
    /// Reads all parts.
    Read(Purpose),
    /// Puts a part, by a temporary. These parts are to go once it is there.
    Put {
        temporary: String,
        name: String,
        bytes: Vec<u8>,
        joined: Vec<String>,
    },
    /// Puts a part in the place of others.
    Replace {
        temporary: String,
        name: String,
        bytes: Vec<u8>,
        joined: Vec<String>,
    },
    /// Removes parts that one covers that was put.
    Remove {
        name: String,
        bytes: Vec<u8>,
        joined: Vec<String>,
    },
}

/// What it has come to.
#[derive(Drop)]
pub enum Came {
    /// The part that is put is on the disk.
    Stored,
    /// These parts were read.
    Found(Vec<Vec<u8>>),
    /// Nothing is known.
    Nothing,
}

impl Work {
    /// The bytes that it puts.
    pub fn bytes(&self) -> &[u8] {
        match self {
            Work::Read(_) => &[],
            Work::Put { bytes, .. } | Work::Replace { bytes, .. } | Work::Remove { bytes, .. } => {
                bytes.as_slice()
            }
        }
    }
}

/// What an outcome says.
fn made_of(outcome: Outcome) -> Came {
    match outcome {
        Outcome::OnDisk => Came::Stored,
        _ => Came::Nothing,
    }
}

impl Program for Work {
    type Outcome = io::Result<Came>;

    ghost may_run = { λ work parts before. ⊥ };

    ghost says = { λ work outcome parts before calls. Unit {0} };

    fn run<F: Folder>(&self, alloc: Global, folder: &mut F) -> io::Result<Came> {
        match self {
            Work::Read(_) => match read_all(alloc, folder, &Marks)? {
                Some(found) => Ok(Came::Found(found)),
                None => Ok(Came::Nothing),
            },
            Work::Put {
                temporary,
                name,
                bytes,
                ..
            } => Ok(made_of(put(
                alloc,
                folder,
                temporary.as_str(),
                name.as_str(),
                bytes.as_slice(),
            )?)),
            Work::Replace {
                temporary,
                name,
                bytes,
                joined,
            } => {
                let outcome = replace(
                    alloc,
                    folder,
                    temporary.as_str(),
                    name.as_str(),
                    bytes.as_slice(),
                    joined.as_slice(),
                )?;
                Ok(outcome.map(made_of).unwrap_or(Came::Nothing))
            }
            Work::Remove {
                name,
                bytes,
                joined,
            } => Ok(made_of(remove_joined(
                alloc,
                folder,
                name.as_str(),
                bytes.as_slice(),
                joined.as_slice(),
            )?)),
        }
    }
}
