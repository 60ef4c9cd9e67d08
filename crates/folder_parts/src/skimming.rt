//! What of a folder's parts is read for a load under given names: of the parts that have a batch of such a name all that they hold, and
//! of the others their deletions alone.
ghost use Rattle.std.specs.Prelude.{◌≡◌, ◌⊎◌, ℕ, ◌+◌, ◌≤◌, Decides, IfOk, IfErr, IsTrue, Ok};
ghost use Rattle.table_model.specs.Reading.{Reads};
ghost use Rattle.table_model.specs.declared.names.BatchName.{BatchName};
ghost use Rattle.table_model.specs.declared.refusal.Refusal.TheVariants.{Memory};
ghost use Rattle.replica_reports.specs.Held.{held_in};
ghost use Rattle.replica_store.specs.Replica.{Replica, batch_limit, merged};
ghost use Rattle.folder_parts.specs.PartReads.{IsListed, is_refusal_of_part};
ghost use Rattle.folder_parts.specs.PartName.{part_name};
ghost use Rattle.folder_parts.specs.Parts.{IsWhole};
ghost use Rattle.folder_parts.specs.Skims.{AnswersLoads, HasNoneOf, IsEnough, IsUnreadPart, SkimsTo};

use crate::fault::PartFault;
use crate::part_naming::is_part;
use crate::skimmed_part::{LoadNames, SkimmedPart, skim_part};
use replica_store::{Joined, MAX_BATCHES, Store};
use std::alloc::Global;
use std::marker::Model;
use table_model::Refusal;

/// What was read of all parts of a folder for a load under given names.
#[derive(Drop)]
pub struct SkimmedParts {
    /// All deletions, and the batches of those parts that have one of such a name.
    pub held: Store,
    /// How many batches the parts have. One that is in two parts counts twice.
    pub batches: u64,
}

impl SkimmedParts {
    /// Whether the batches of all parts and this many others are few enough to answer loads of so many: at most 1,048,576 together.
    pub fn has_room(&self, count: u32) -> bool
        ensures { Decides result (self.now.batches + count ≤ batch_limit) }
    {
        u128::from(self.batches) + u128::from(count) <= MAX_BATCHES as u128
    }
}

/// What is read of parts that come one after another, for a load under given names: of a part that has a batch of such a name all that it
/// holds, and of any other its deletions alone. Contracts see the replica that has what was read, and how many batches the parts have.
#[derive(Drop)]
pub struct Skim {
    joined: Joined,
    batches: u64,
}

impl Model for Skim {
    ghost use Rattle.std.specs.Prelude.{ℕ};
    ghost use Rattle.std.specs.Coded.{coded×, coded_ℕ};
    ghost use Rattle.replica_store.specs.Replica.{Replica, coded_replica};

    ghost Value = { Replica × ℕ };

    ghost coded = { coded× coded_replica coded_ℕ };

    ghost view = { λ s. (s.joined.replica, s.batches) };
}

/// The fault of a part that can't be joined: `Damaged`, if its name is that of other bytes.
fn fault_of(alloc: Global, name: &str, bytes: &[u8], refusal: Refusal) -> PartFault
    requires { IsTrue (is_refusal_of_part refusal) }
    ensures unread { refusal ≡ Memory → IsWhole (record { name = name.now; bytes = bytes.now }) → IsUnreadPart result }
    ensures listed { IsListed is_refusal_of_part result }
{
    match is_part(alloc, name, bytes) {
        Ok(false) => PartFault::Damaged,
        _ => PartFault::Refused(refusal),
    }
}

impl Skim {
    /// What was read of one part.
    fn of(alloc: Global, part: SkimmedPart) -> Result<Skim, Refusal>
        ensures value { IfOk result (λ skim. skim.0 ≡ part.store.replica) }
        ensures count { IfOk result (λ skim. skim.1 ≡ part.batches) }
        ensures refused { IfErr result (λ e. e ≡ Memory) }
    {
        let SkimmedPart { store, batches } = part;
        let joined = Joined::new(alloc, store)?;
        Ok(Skim {
            joined,
            batches: batches as u64,
        })
    }

    /// Takes what was read of a further part.
    fn with(self, alloc: Global, part: SkimmedPart) -> Result<Skim, Refusal>
        ensures value { Reads (λ skim. (tt, skim.0)) result (merged self.0 part.store.replica) }
        ensures count { IfOk result (λ skim. (n : ℕ) → n ≤ self.1 + part.batches → n ≤ batch_limit → n ≤ skim.1) }
    {
        let Skim { joined, batches } = self;
        let joined = joined.with(alloc, part.store)?;
        Ok(Skim {
            joined,
            batches: batches.saturating_add(part.batches as u64),
        })
    }

    /// What is read of one part of this name. If it has no batch of the load's names it is skimmed: it isn't compared with its name, and
    /// a fault of its values is not seen.
    ///
    /// Refused is, of a part that has one or that can't be skimmed, what [`Join::new`](crate::Join::new) refuses.
    pub fn new(alloc: Global, name: &str, bytes: &[u8], names: LoadNames) -> Result<Skim, PartFault>
        // What is read of a part that is whole is enough of it.
        ensures skimmed { (r : Replica) → name.now ≡ part_name bytes.now → held_in bytes.now ≡ Ok r → SkimsTo result names.first names.count r }
        // It has none of the names, or its bytes were compared with its name.
        ensures compared { IfOk result (λ skim. HasNoneOf names.first names.count bytes.now ⊎ IsWhole (record { name = name.now; bytes = bytes.now })) }
        // Which refusals there are.
        ensures listed { IfErr result (λ fault. IsListed is_refusal_of_part fault) }
    {
        let part = skim_part(alloc, name, bytes, names)?;
        let skim = Skim::of(alloc, part)?;
        Ok(skim)
    }

    /// Reads a further part of this name, and takes what was read of it.
    ///
    /// Refused are, of a part that has one of the load's names or that can't be skimmed, what [`Join::new`](crate::Join::new) refuses;
    /// and given the parts before it `Damaged` and `SchemaDiffers`, and of what was opened `Conflict` and `Full`. `Memory` may come in
    /// the place of any of them.
    pub fn with_part(
        self,
        alloc: Global,
        name: &str,
        bytes: &[u8],
        names: LoadNames,
    ) -> Result<Skim, PartFault>
        // If what was read of the parts before is enough of them, it is enough of all with this one, if that is whole.
        ensures skimmed { (held r new : Replica) → name.now ≡ part_name bytes.now → held_in bytes.now ≡ Ok r → merged held r ≡ Ok (tt, new) → IsEnough names.first names.count self.0 self.1 held → SkimsTo result names.first names.count new }
        // It has none of the names, or its bytes were compared with its name.
        ensures compared { IfOk result (λ skim. HasNoneOf names.first names.count bytes.now ⊎ IsWhole (record { name = name.now; bytes = bytes.now })) }
        // Which refusals there are.
        ensures listed { IfErr result (λ fault. IsListed is_refusal_of_part fault) }
    {
        let part = skim_part(alloc, name, bytes, names)?;
        match self.with(alloc, part) {
            Ok(next) => Ok(next),
            Err(refusal) => Err(fault_of(alloc, name, bytes, refusal)),
        }
    }

    /// A store that answers each load of so many batches from the first name on as the store of all parts does, and brings the same to
    /// it. It may not, if the batches that were counted and those of the load are more than 1,048,576 together: then all parts are to be
    /// joined. `Memory` is answered if there is no memory for it.
    pub fn into_parts(self, alloc: Global) -> Result<SkimmedParts, Refusal>
        // If what was read is enough of the parts, loads are answered from it as from all of them.
        ensures answers { IfOk result (λ parts. (first : BatchName) (count : ℕ) (whole : Replica) → IsEnough first count self.0 self.1 whole → parts.batches + count ≤ batch_limit → AnswersLoads first count parts.held.replica whole) }
        ensures refused { IfErr result (λ e. e ≡ Memory) }
    {
        let Skim { joined, batches } = self;
        match joined.into_store(alloc) {
            Ok(held) => Ok(SkimmedParts { held, batches }),
            Err(refusal) => Err(refusal),
        }
    }
}
