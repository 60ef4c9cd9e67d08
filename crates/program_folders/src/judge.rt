//! What judges the parts that came to a folder: whether a new part goes with them.
ghost use Rattle.std.specs.Prelude.{◌≡◌, ◌⊎◌, ℕ, List, map, true, false};
ghost use Rattle.std.specs.String.{string_bytes};
ghost use Rattle.folder_model.specs.Disk.{Among};
ghost use Rattle.folder_protocol.specs.Note.{calls_of};
ghost use Rattle.folder_protocol.specs.Taking.{bytes_read};
ghost use Rattle.folder_parts.specs.PartName.{part_name, is_part_name};

use crate::part_failures::{of_other_table, refused};
use folder_parts::{Join, PartFault, is_part, is_part_name, part_name};
use folder_protocol::{Record, Taker, has_name};
use folder_system::path_in;
use program_changes::Heads;
use program_failures::Failure;
use refusal_sentences::CommandRefusal;
use std::alloc::{AllocError, Global};
use std::fs::Files;
use table_model::Refusal;

/// A new part of a folder, with the names of the folder that were seen before.
#[derive(Drop)]
pub struct Judge<'a, R: Files> {
    rt: &'a R,
    folder: &'a str,
    bytes: &'a [u8],
    seen: Vec<String>,
    calls: Record,
}

impl<'a, R: Files + AllocGlobal> Judge<'a, R> {
    /// What judges whether a part with these bytes goes with those that come to a folder, of which these names were seen.
    pub fn new(
        rt: &'a R,
        folder: &'a str,
        bytes: &'a [u8],
        names: &[String],
    ) -> Result<Judge<'a, R>, AllocError> {
        let mut seen = Vec::with_capacity(rt.alloc(), names.len())?;
        for name in names {
            seen.push(String::from_str(rt.alloc(), name.as_str())?)?;
        }
        Ok(Judge {
            rt,
            folder,
            bytes,
            seen,
            calls: Record::new(),
        })
    }

    /// These names, in ascending order, are those that the folder has, and the part goes with all of them.
    pub fn saw(&mut self, names: Vec<String>) {
        self.seen = names;
    }

    /// This name is that of a folder, and so no part.
    pub fn saw_folder(&mut self, name: &str) -> Result<(), Failure> {
        self.seen.push(String::from_str(self.rt.alloc(), name)?)?;
        self.seen.sort()?;
        Ok(())
    }
}

/// Why a part with these bytes does not go with another one, if it does not.
fn fault_between(
    alloc: Global,
    heads: &Heads,
    own: &[u8],
    name: &str,
    bytes: &[u8],
) -> Result<Option<PartFault>, AllocError> {
    let own_name = part_name(alloc, own)?;
    heads.begin();
    heads.take(own);
    let join = match Join::new(alloc, own_name.as_str(), own) {
        Ok(join) => join,
        Err(fault) => return Ok(Some(fault)),
    };
    heads.begin();
    heads.take(bytes);
    match join.with_part(alloc, name, bytes) {
        Ok(_joined) => Ok(None),
        Err(fault) => Ok(Some(fault)),
    }
}

/// Whether the part with these bytes goes with one that came to its folder.
fn go_together<R: Files + AllocGlobal>(
    rt: &R,
    folder: &str,
    own: &[u8],
    name: &str,
    bytes: &[u8],
) -> Result<(), Failure> {
    let alloc = rt.alloc();
    let heads = Heads::new(alloc);
    let Some(fault) = fault_between(alloc, &heads, own, name, bytes)? else {
        return Ok(());
    };
    let path = path_in(alloc, folder, name)?;
    Err(match fault {
        PartFault::Refused(Refusal::Conflict(batch)) => {
            let refusal = CommandRefusal::from(Refusal::Conflict(batch));
            Failure::of_held(alloc, refusal, folder)
        }
        PartFault::Refused(Refusal::SchemaDiffers) => {
            of_other_table(rt, &heads, path.as_str(), folder)
        }
        fault => {
            let paths = vec![in alloc; path]?;
            refused(rt, paths.as_slice(), 0, fault, &heads)
        }
    })
}

/// The refusal of a file of a folder that has the name of other bytes.
fn damaged<R: Files + AllocGlobal>(rt: &R, folder: &str, name: &str) -> Failure {
    match path_in(rt.alloc(), folder, name) {
        Ok(path) => Failure::of_file(rt, CommandRefusal::Damaged, path.as_str()),
        Err(lacking) => Failure::from(lacking),
    }
}

impl<'a, R: Files + AllocGlobal> Taker for Judge<'a, R> {
    type Fault = Failure;

    ghost name_of = { λ judge. part_name };

    ghost passes = { λ judge name. (is_part_name name ≡ false) ⊎ Among name (map string_bytes judge.seen.items) };

    ghost wanted = { λ judge name. (is_part_name name ≡ true) × (Among name (map string_bytes judge.seen.items) → ⊥) };

    ghost taken = { λ judge. bytes_read (calls_of judge.calls.noted) };

    fn begin(&mut self, _names: &[String]) -> Result<(), Failure> {
        Ok(())
    }

    fn wants(&self, name: &str) -> bool {
        is_part_name(name) && !has_name(self.seen.as_slice(), name)
    }

    fn take(&mut self, alloc: Global, name: &str, bytes: &[u8]) -> Result<(), Failure> {
        if !is_part(alloc, name, bytes)? {
            return Err(damaged(self.rt, self.folder, name));
        }
        go_together(self.rt, self.folder, self.bytes, name, bytes)?;
        self.calls.read(name, bytes);
        Ok(())
    }
}
