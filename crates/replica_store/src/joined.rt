//! The join of stores that come one after another, which moves each batch few times.
ghost use Rattle.std.specs.Prelude.{◌≡◌, Ok, IfOk, true};
ghost use Rattle.table_model.specs.Outcome.{Gives};
ghost use Rattle.table_model.specs.Reading.{Reads};
ghost use Rattle.table_model.specs.State.{union_of};
ghost use Rattle.replica_store.specs.Replica.{merged};
ghost use Rattle.replica_store.specs.Joined.{joined_stores, AreJoined, CanTake};

use crate::store::{MAX_BATCHES, Store};
use std::alloc::Global;
use std::marker::Model;
use table_model::Refusal;

/// What stores of one table hold that came one after another: what most of them held, and apart from it what the last of them held, so
/// that a store that comes is joined to few batches. Contracts see the store that has all of it.
#[derive(Drop)]
pub struct Joined {
    base: Store,
    recent: Store,
}

impl Model for Joined {
    ghost use Rattle.replica_store.specs.Joined.{joined_stores, AreJoined};
    ghost use Rattle.replica_store.specs.Segments.{StoreForm, coded_store};

    ghost Value = { StoreForm };

    ghost coded = { coded_store };

    ghost view = { λ j. joined_stores j.base j.recent };

    ghost invariant = { λ j. AreJoined j.base j.recent };
}

impl Joined {
    /// The join of one store. `Memory` is answered if there is no memory.
    pub fn new(alloc: Global, base: Store) -> Result<Joined, Refusal>
        ensures { Gives (λ joined. joined) result (Ok base) }
    {
        let recent = Store::new(alloc, base.schema(), base.own())?;
        Ok(Joined { base, recent })
    }

    /// The join with a further store, as [`Store::merge`] makes it.
    ///
    /// The refusals are those of [`Store::merge`], in their order.
    pub fn with(self, alloc: Global, other: Store) -> Result<Joined, Refusal>
        ensures value { Reads (λ joined. (tt, joined.replica)) result (merged self.replica other.replica) }
        ensures segments { IfOk result (λ joined. joined.segments ≡ union_of self.segments other.segments) }
    {
        let Joined { base, recent } = self;
        if can_take(&base, &recent, &other) {
            take(alloc, base, recent, other)
        } else {
            let whole = Joined { base, recent }.into_store(alloc)?;
            merge_whole(alloc, whole, other)
        }
    }

    /// Makes one store of what was joined, with nothing apart. `Memory` is answered if there is no memory.
    fn levelled(self, alloc: Global) -> Result<Joined, Refusal>
        ensures { Gives (λ joined. joined) result (Ok self) }
    {
        let whole = self.into_store(alloc)?;
        Joined::new(alloc, whole)
    }

    /// The store that has all of it. `Memory` is answered if there is no memory.
    pub fn into_store(self, alloc: Global) -> Result<Store, Refusal>
        ensures { Gives (λ store. store) result (Ok self) }
    {
        let Joined { mut base, recent } = self;
        base.join(alloc, recent)?;
        Ok(base)
    }

    /// Whether what came last is to be joined to the rest: a join of the two then costs no more than the joins to what came last did.
    fn is_uneven(&self) -> bool {
        let recent = self.recent.steps() as u128;
        recent * recent > self.base.steps() as u128 + 1024
    }
}

/// Whether another store comes to the second of two that are joined: neither refuses it, and there are few enough batches.
fn can_take(base: &Store, recent: &Store, other: &Store) -> bool
    ensures { result ≡ true → CanTake base.now recent.now other.now }
{
    base.merges_with(other)
        && recent.merges_with(other)
        && base.batches() + recent.batches() + other.batches() <= MAX_BATCHES
}

/// The join with a store that comes to the second.
fn take(alloc: Global, base: Store, mut recent: Store, other: Store) -> Result<Joined, Refusal>
    requires joined { AreJoined base recent }
    requires can { CanTake base recent other }
    ensures value { Reads (λ joined. (tt, joined.replica)) result (merged (joined_stores base recent).replica other.replica) }
    ensures segments { IfOk result (λ joined. joined.segments ≡ union_of (joined_stores base recent).segments other.segments) }
{
    recent.join(alloc, other)?;
    let joined = Joined { base, recent };
    if joined.is_uneven() {
        joined.levelled(alloc)
    } else {
        Ok(joined)
    }
}

/// The join of one store with another, as [`Store::merge`] makes it.
fn merge_whole(alloc: Global, mut whole: Store, other: Store) -> Result<Joined, Refusal>
    ensures value { Reads (λ joined. (tt, joined.replica)) result (merged whole.replica other.replica) }
    ensures segments { IfOk result (λ joined. joined.segments ≡ union_of whole.segments other.segments) }
{
    whole.merge(alloc, &other)?;
    Joined::new(alloc, whole)
}
