//! The join of a folder's parts, taken one after another.
ghost use Rattle.std.specs.Prelude.{◌≡◌, IfOk, IfErr, Ok};
ghost use Rattle.table_model.specs.Outcome.{Gives};
ghost use Rattle.column_file.specs.Files.{AreCanonicalOf};
ghost use Rattle.folder_parts.specs.PartReads.{IsListed, is_refusal_of_part};
ghost use Rattle.folder_parts.specs.Parts.{OpensPart, JoinsPart};

use crate::fault::PartFault;
use crate::part_naming::is_part;
use column_file::open_bytes;
use replica_store::{Joined, Store};
use std::alloc::Global;
use std::marker::Model;
use table_model::{Origin, Refusal};

/// The join of parts that came one after another. Contracts see the replica that has what all of them hold.
#[derive(Drop)]
pub struct Join {
    joined: Joined,
}

impl Model for Join {
    ghost use Rattle.column_file.specs.Files.{AreCanonicalOf};
    ghost use Rattle.replica_store.specs.Replica.{Replica, coded_replica};

    ghost Value = { Replica };

    ghost coded = { coded_replica };

    ghost view = { λ j. j.joined.replica };

    ghost invariant = { λ j. AreCanonicalOf j.joined.replica.schema j.joined.replica.state.batches j.joined.segments };
}

/// What a part of this name holds. Refused are a name of other bytes (`Damaged`), and then what [`open`](column_file::open) refuses.
pub(crate) fn open_part(alloc: Global, name: &str, bytes: &[u8]) -> Result<Store, PartFault>
    ensures held { OpensPart (λ store. store.replica) result (record { name = name.now; bytes = bytes.now }) }
    ensures listed { IfErr result (λ fault. IsListed is_refusal_of_part fault) }
    ensures segments { IfOk result (λ store. AreCanonicalOf store.replica.schema store.replica.state.batches store.segments) }
{
    if !is_part(alloc, name, bytes)? {
        return Err(PartFault::Damaged);
    }
    let store = open_bytes(alloc, bytes, Origin(1))?;
    Ok(store)
}

impl Join {
    /// The join of one part.
    ///
    /// Refused are, in this order, a name of other bytes (`Damaged`), and what [`open`](column_file::open) refuses of the bytes;
    /// `Memory` may come in the place of any of them.
    pub fn new(alloc: Global, name: &str, bytes: &[u8]) -> Result<Join, PartFault>
        ensures opened { OpensPart (λ join. join) result (record { name = name.now; bytes = bytes.now }) }
        ensures listed { IfErr result (λ fault. IsListed is_refusal_of_part fault) }
    {
        let store = open_part(alloc, name, bytes)?;
        let joined = Joined::new(alloc, store)?;
        Ok(Join { joined })
    }

    /// The join with a further part.
    ///
    /// Refused are, in this order, a name of other bytes (`Damaged`); what [`open`](column_file::open) refuses of the bytes;
    /// `SchemaDiffers`; `Conflict` with the least name that has two lists of rows; `Full`; `Memory` may come in the place of any of
    /// them.
    pub fn with_part(self, alloc: Global, name: &str, bytes: &[u8]) -> Result<Join, PartFault>
        ensures joined { JoinsPart (λ join. join) result self (record { name = name.now; bytes = bytes.now }) }
        ensures listed { IfErr result (λ fault. IsListed is_refusal_of_part fault) }
    {
        let other = open_part(alloc, name, bytes)?;
        let Join { joined } = self;
        let next = joined.with(alloc, other)?;
        Ok(Join { joined: next })
    }

    /// The store that has what all parts hold. `Memory` is answered if there is no memory for it.
    pub fn into_store(self, alloc: Global) -> Result<Store, Refusal>
        ensures store { Gives (λ store. store.replica) result (Ok self) }
        ensures segments { IfOk result (λ store. AreCanonicalOf store.replica.schema store.replica.state.batches store.segments) }
    {
        let Join { joined } = self;
        joined.into_store(alloc)
    }
}
