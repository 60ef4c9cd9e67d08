//! What judges by their names alone whether parts are there that were not seen.
ghost use Rattle.std.specs.Prelude.{[], map};
ghost use Rattle.std.specs.String.{string_bytes};
ghost use Rattle.folder_model.specs.Disk.{Among};

use folder_protocol::{Taker, has_name};
use std::alloc::Global;

/// Names that were seen, best in ascending order. Every other one is wanted, and none is taken.
#[derive(Drop)]
pub struct Seen<'b> {
    pub names: &'b [String],
}

/// None is taken.
#[derive(Debug, Drop)]
pub struct NotTaken;

impl<'b> Taker for Seen<'b> {
    type Fault = NotTaken;

    ghost name_of = { λ seen bytes. bytes };

    ghost passes = { λ seen name. Among name (map string_bytes seen.names.now) };

    ghost wanted = { λ seen name. Among name (map string_bytes seen.names.now) → ⊥ };

    ghost taken = { λ seen. [] };

    fn begin(&mut self, _names: &[String]) -> Result<(), NotTaken> {
        Ok(())
    }

    fn wants(&self, name: &str) -> bool {
        !has_name(self.names, name)
    }

    fn take(&mut self, _alloc: Global, _name: &str, _bytes: &[u8]) -> Result<(), NotTaken> {
        Err(NotTaken)
    }
}
