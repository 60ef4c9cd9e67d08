//! On which parts of a folder a command relies.
ghost use Rattle.std.specs.Prelude.{◌≡◌, false, Ok, map, string_bytes, IfOk, IfErr};
ghost use Rattle.std.specs.FinSet as set;
ghost use Rattle.std.specs.List.{list_any};
ghost use Rattle.table_model.specs.declared.refusal.Refusal.TheVariants.{Memory};
ghost use Rattle.replica_store.specs.Replica.{Replica};
ghost use Rattle.folder_commands.specs.ReadParts.{More};
ghost use Rattle.folder_commands.specs.Relying.{AreRelied, IsIn, IsNoneMet, Item, ReliesOn};

use catalogue_join::Held;
use column_file::{Skimmed, skim};
use folder_parts::LoadNames;
use std::alloc::Global;
use table_model::{BatchName, Refusal};

/// On which parts of a folder a command relies: on those that have what it brings and does not put itself.
#[derive(Drop)]
pub enum Reliance {
    /// On none. It only reads, or puts all that it brings.
    Nothing,
    /// On those that have a batch of one of these names, as of the batches that offers bring.
    Batches(Held),
    /// On those that have a batch of one of a load's names.
    Load(LoadNames),
    /// On those that have deletions: a row for which a condition is true may be deleted there already.
    Deletions,
}

/// Whether one of some names is in a set.
fn holds_any(names: &Held, found: &[BatchName]) -> bool
    ensures { result ≡ list_any (set.contains names.now) found.now }
{
    found.iter().any(|name| names.holds(*name))
}

impl Reliance {
    /// Whether it is on a part of which this was skimmed.
    fn meets(&self, found: &Skimmed) -> bool
        ensures { result ≡ false → IsNoneMet self.now found.now.names.items found.now.deleted }
    {
        match self {
            Reliance::Nothing => false,
            Reliance::Batches(names) => holds_any(names, found.names.as_slice()),
            Reliance::Load(names) => names.holds_any(found.names.as_slice()),
            Reliance::Deletions => !found.deleted.ranges().is_empty(),
        }
    }

    /// Whether it is on a part with these bytes. If they are no file it may be, too.
    pub fn is_on(&self, alloc: Global, bytes: &[u8]) -> Result<bool, Refusal>
        ensures none { IfOk result (λ is. is ≡ false → (item : Item) → IsIn item bytes.now → ReliesOn self.now item → ⊥) }
        ensures refused { IfErr result (λ e. e ≡ Memory) }
    {
        if matches!(self, Reliance::Nothing) {
            return Ok(false);
        }
        match skim(alloc, bytes) {
            Ok(found) => Ok(self.meets(&found)),
            Err(Refusal::Memory) => Err(Refusal::Memory),
            Err(_) => Ok(true),
        }
    }

    /// The names of those parts of which these are some, with that of one part more if it is on this part, too.
    pub(crate) fn with(
        &self,
        alloc: Global,
        relied: Vec<String>,
        name: &str,
        bytes: &[u8],
    ) -> Result<Vec<String>, Refusal>
        ensures relied { IfOk result (λ names. More (AreRelied self.now (map string_bytes relied.items)) (AreRelied self.now (map string_bytes names.items)) (record { name = name.now; bytes = bytes.now })) }
        ensures refused { IfErr result (λ e. e ≡ Memory) }
    {
        if !self.is_on(alloc, bytes)? {
            return Ok(relied);
        }
        let mut names = relied;
        names.push(String::from_str(alloc, name)?)?;
        Ok(names)
    }
}
