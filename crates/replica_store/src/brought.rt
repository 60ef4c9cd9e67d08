//! What offers bring to a store that is only read.
ghost use Rattle.std.specs.Prelude.{◌≡◌, ◌≤◌, IfOk, OnOk, OnErr};
ghost use Rattle.std.specs.FinMap as map;
ghost use Rattle.table_model.specs.Outcome.{Acts};
ghost use Rattle.table_model.specs.Reading.{Reads};
ghost use Rattle.table_model.specs.State.{union_of};
ghost use Rattle.replica_store.specs.Brought.{IsBrought, both_of, unheld_state};
ghost use Rattle.replica_store.specs.Exchange.{applied, unlisted};
ghost use Rattle.replica_store.specs.Replica.{SaysChange, batch_limit, joined_with, names_of, new_replica, with_join};

use crate::offer::Offer;
use crate::store::Store;
use std::alloc::Global;
use std::marker::Model;
use table_model::{Origin, Refusal};

/// What offers bring to a store that is only read: a store of its own, with the batches whose names aren't held, and with all
/// deletions. So nothing that is held is copied. Contracts see both stores.
#[derive(Drop)]
pub struct Brought<'a> {
    held: &'a Store,
    own: Store,
}

impl<'a> Model for Brought<'a> {
    ghost use Rattle.replica_store.specs.Brought.{BroughtForm, IsBrought, coded_brought};

    ghost Value = { BroughtForm };

    ghost coded = { coded_brought };

    ghost view = { λ b. record { held = b.held.now; own = b.own } };

    ghost invariant = { λ b. IsBrought b.held.now b.own };
}

impl<'a> Brought<'a> {
    /// Nothing is brought to the store yet. If there is no memory for that, `Memory`.
    pub fn nothing(alloc: Global, held: &'a Store) -> Result<Brought<'a>, Refusal>
        ensures held { IfOk result (λ brought. brought.held ≡ held.now) }
        ensures own { Reads (λ brought. brought.own.replica) result (new_replica held.now.replica.schema (record { 0 = 1 })) }
        ensures segments { IfOk result (λ brought. brought.own.segments ≡ map.empty) }
    {
        held.keeps_its_limits();
        let own = Store::new(alloc, held.schema(), Origin(1))?;
        Ok(Brought { held, own })
    }

    /// Takes what an offer brings: the batches whose names are neither held nor brought already, and its deletions. No segment is copied.
    ///
    /// The refusals are those of [`Store::apply`] by the store that has what both have, in their order.
    pub fn take(&mut self, alloc: Global, offer: Offer) -> Result<(), Refusal>
        ensures acts { Acts (λ done. done) (both_of self.old) result (both_of self.new) (applied (both_of self.old) offer) }
        ensures brought { OnOk result (self.new.own.replica ≡ joined_with self.old.own.replica (unheld_state self.old.held.replica offer.state)) }
        ensures segments { OnOk result (self.new.own.segments ≡ union_of self.old.own.segments (unlisted (names_of self.old.held.replica.state.batches) offer.segments)) }
        ensures held { self.new.held ≡ self.old.held }
        ensures refused { OnErr result (self.new ≡ self.old) }
    {
        self.own.bring(alloc, self.held, offer)
    }

    /// The store that is only read.
    pub fn held(&self) -> &Store
        ensures { result.now ≡ self.now.held }
    {
        self.held
    }

    /// What was brought by now.
    pub fn own(&self) -> &Store
        ensures value { result.now ≡ self.now.own }
        ensures is_brought { IsBrought self.now.held result.now }
    {
        &self.own
    }

    /// How many batches both have.
    pub fn batches(&self) -> usize
        ensures value { result ≡ map.len (both_of self.now).state.batches }
        ensures limit { result ≤ batch_limit }
    {
        self.held.batches() + self.own.batches()
    }

    /// Whether a batch or a deletion was brought that is not held.
    pub fn is_more(&self) -> bool
        ensures { SaysChange result self.now.held.replica (both_of self.now) }
    {
        self.held.lacks_of(&self.own)
    }

    /// The store of what was brought alone: batches whose names were not held, and all deletions.
    pub fn into_own(self) -> Store
        ensures value { result ≡ self.entry.own }
        ensures is_brought { IsBrought self.entry.held result }
    {
        let Brought { own, .. } = self;
        own
    }
}
