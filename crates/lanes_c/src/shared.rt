//! What the handles of one file share: its store.
ghost use Rattle.std.specs.Prelude.{◌≡◌, ◌⊎◌, Ok, Err, IfOk, IfErr, OnOk, OnErr};
ghost use Rattle.table_model.specs.Outcome.{Gives};
ghost use Rattle.table_model.specs.declared.refusal.Refusal.TheVariants.{Memory};
ghost use Rattle.replica_changes.specs.CommandForms.{command_of};
ghost use Rattle.replica_store.specs.Replica.{merged};
ghost use Rattle.lanes_c.specs.Calls.{Yields};
ghost use Rattle.lanes_c.specs.TableChanges.{changed_by, with_command, without_dead};

use crate::fault::Fault;
use query_eval::HashKey;
use replica_changes::{Command, bring};
use replica_store::{Store, Summary};
use std::alloc::{AllocError, Global};
use std::boxed::Box;
use std::sync::Arc;
use table_model::Refusal;

/// One handle's share of a store, and the key of the hashes by which its queries find groups. The last share frees the store.
#[derive(Drop)]
pub struct Shared {
    pub store: Arc<Store, Global>,
    pub hash_key: HashKey,
}

/// A copy of a store.
fn copy_of(alloc: Global, store: &Store) -> Result<Store, Refusal>
    ensures { Gives (λ copy. copy.replica) result (Ok store.now.replica) }
{
    let nothing = Summary::empty(alloc, store.schema())?;
    let all = store.offer(alloc, &nothing)?;
    all.into_store(alloc, store.own())
}

impl Shared {
    /// The first share of a store.
    pub fn new(alloc: Global, hash_key: HashKey, store: Store) -> Result<Box<Shared>, AllocError>
        ensures { IfOk result (λ shared. shared.value.store.value ≡ store) }
    {
        let store = Arc::new(alloc, store)?;
        Ok(Box::new(alloc, Shared { store, hash_key })?)
    }

    /// Another share of the same store, by the same key.
    pub fn again(&self, alloc: Global) -> Result<Box<Shared>, AllocError>
        ensures { IfOk result (λ shared. shared.value.store.value ≡ self.now.store.value) }
    {
        let store = Arc::try_clone(&self.store)?;
        let hash_key = self.hash_key;
        Ok(Box::new(alloc, Shared { store, hash_key })?)
    }

    /// Changes the key.
    pub fn set_hash_key(&mut self, hash_key: HashKey)
        ensures { self.new.store ≡ self.old.store }
    {
        self.hash_key = hash_key;
    }

    /// Does a command on the store: in its place if this is its only share, and else on a copy, which this share has alone from then on. What the
    /// command brings is found before anything is copied. A command that changes nothing copies nothing.
    ///
    /// A refused command leaves the share as it was.
    pub fn change(&mut self, alloc: Global, command: Command<'_>) -> Result<(), Fault>
        ensures made { Yields (changed_by result self.new.store.value.replica) (with_command (command_of command.entry) self.old.store.value.replica) }
        ensures kept { OnErr result (self.new.store.value ≡ self.old.store.value) }
    {
        let (answer, brought) = bring(alloc, &self.store, command)?;
        if answer.is_changed() {
            self.take(alloc, brought)?;
        }
        Ok(())
    }

    /// Moves what was brought into the store, or into a copy of it, which this share has alone from then on.
    fn take(&mut self, alloc: Global, brought: Store) -> Result<(), Refusal>
        ensures made { OnOk result (merged self.old.store.value.replica brought.replica ≡ Ok (tt, self.new.store.value.replica)) }
        ensures refused { IfErr result (λ e. (merged self.old.store.value.replica brought.replica ≡ Err e) ⊎ (e ≡ Memory)) }
        ensures kept { OnErr result (self.new.store.value ≡ self.old.store.value) }
    {
        match Arc::get_mut(&mut self.store) {
            Some(store) => store.take(alloc, brought),
            None => self.take_copy(alloc, brought),
        }
    }

    /// Moves what was brought into a copy of the store.
    fn take_copy(&mut self, alloc: Global, brought: Store) -> Result<(), Refusal>
        ensures made { OnOk result (merged self.old.store.value.replica brought.replica ≡ Ok (tt, self.new.store.value.replica)) }
        ensures refused { IfErr result (λ e. (merged self.old.store.value.replica brought.replica ≡ Err e) ⊎ (e ≡ Memory)) }
        ensures kept { OnErr result (self.new.store.value ≡ self.old.store.value) }
    {
        let mut copy = copy_of(alloc, &self.store)?;
        copy.take(alloc, brought)?;
        self.store = Arc::new(alloc, copy)?;
        Ok(())
    }

    /// Drops the batches of which every row is deleted: in their place if this is the store's only share, and else of a copy, which this share has
    /// alone from then on.
    ///
    /// A refused forget leaves the share as it was.
    pub fn forget(&mut self, alloc: Global) -> Result<(), Fault>
        ensures made { Yields (changed_by result self.new.store.value.replica) (without_dead self.old.store.value.replica) }
        ensures kept { OnErr result (self.new.store.value ≡ self.old.store.value) }
    {
        if let Some(store) = Arc::get_mut(&mut self.store) {
            store.forget(alloc)?;
            return Ok(());
        }
        let mut copy = copy_of(alloc, &self.store)?;
        copy.forget(alloc)?;
        self.store = Arc::new(alloc, copy)?;
        Ok(())
    }
}
