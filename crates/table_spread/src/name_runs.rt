//! The runs of names that the shares of a table have.
ghost use Rattle.std.specs.Prelude.{◌≡◌, ◌∷◌, [], ◌++◌, ◌==◌, ◌+◌, ◌≤◌, ◌<◌, true, false, length, Ok, IfOk, IfErr, OnOk};
ghost use Rattle.std.specs.FinMap as map;
ghost use Rattle.std.specs.FinMap.Entries.{where_key};
ghost use Rattle.std.specs.Ordering.{is_lt};
ghost use Rattle.table_model.specs.Name.{name_cmp};
ghost use Rattle.table_model.specs.Outcome.{Gives};
ghost use Rattle.table_model.specs.declared.refusal.Refusal.TheVariants.{Memory};
ghost use Rattle.column_file.specs.Files.{canonical_file, HasFile, OpensTo};
ghost use Rattle.replica_store.specs.Exchange.{AreOffered};
ghost use Rattle.table_spread.specs.Spread.{run_of, is_in_run, goes_to, deletions_of, share_of, share_in};

use crate::division::{Division, bytes_of};
use catalogue_join::{Held, Tombs};
use column_file::export_bytes;
use replica_store::{Offer, Store};
use segment_core::Segment;
use std::alloc::{AllocError, Global};
use std::marker::Model;
use table_model::{BatchName, Refusal};

/// The runs of names that the shares of a table have, one after another in ascending order. Contracts see the names that they begin
/// with, all but the first, which begins with the least name.
#[derive(Drop)]
pub struct NameRuns {
    firsts: Vec<BatchName>,
}

impl Model for NameRuns {
    ghost use Rattle.std.specs.Prelude.{List};
    ghost use Rattle.table_model.specs.declared.names.BatchName.{BatchName};

    ghost Value = { List BatchName };

    ghost view = { λ r. r.firsts.items };
}

/// Whether a name is less than another.
fn is_less(name: BatchName, other: BatchName) -> bool
    ensures { result ≡ is_lt (name_cmp name other) }
{
    name < other
}

impl NameRuns {
    /// As many runs as there are shares, whose batches have about as many bytes each; fewer if there are fewer batches.
    pub fn of(alloc: Global, store: &Store, shares: usize) -> Result<NameRuns, AllocError>
        requires { 1 ≤ shares }
        ensures few { IfOk result (λ runs. length runs < shares) }
        ensures full { IfOk result (λ runs. shares ≤ map.len store.now.replica.state.batches → length runs + 1 ≡ shares) }
    {
        let division = Division::of(store, shares);
        let mut firsts = Vec::new(alloc);
        let mut before = 0u64;
        for place in 0..store.batches() {
            let (name, segment) = store.batch(place);
            if division.begins(firsts.len() + 1, place, before) {
                firsts.push(name)?;
            }
            before = before.saturating_add(bytes_of(segment));
        }
        Ok(NameRuns { firsts })
    }

    /// The run that a name is in, counted from 0.
    fn run_of(&self, name: BatchName) -> usize
        ensures { result ≡ run_of self.now name }
    {
        for index in 0..self.firsts.len() {
            if name < self.firsts[index] {
                return index;
            }
        }
        self.firsts.len()
    }

    /// Whether a name is in a run. Names that the run's own bounds leave out are not looked up.
    fn is_in_run(&self, index: usize, name: BatchName) -> bool
        ensures { result ≡ is_in_run self.now index name }
    {
        if self.is_before(index, name) || self.is_behind(index, name) {
            return false;
        }
        self.run_of(name) == index
    }

    /// Whether a name is less than the one that a run begins with.
    fn is_before(&self, index: usize, name: BatchName) -> bool
        ensures { result ≡ true → is_in_run self.now index name ≡ false }
    {
        if index == 0 || index > self.firsts.len() {
            return false;
        }
        is_less(name, self.firsts[index - 1])
    }

    /// Whether a name is not less than the one that the next run begins with.
    fn is_behind(&self, index: usize, name: BatchName) -> bool
        ensures { result ≡ true → is_in_run self.now index name ≡ false }
    {
        if index >= self.firsts.len() {
            return false;
        }
        !is_less(name, self.firsts[index])
    }

    /// Whether a name goes to a share if some names are held.
    fn goes_to(&self, held: &Held, index: usize, name: BatchName) -> bool
        ensures { result ≡ goes_to self.now held.now index name }
    {
        if held.holds(name) {
            self.is_in_run(index, name)
        } else {
            index == 0
        }
    }

    /// The deletions that name batches which go to a share if some names are held.
    fn deletions(
        &self,
        alloc: Global,
        held: &Held,
        index: usize,
        deleted: &Tombs,
    ) -> Result<Tombs, AllocError>
        ensures { IfOk result (λ kept. kept ≡ deletions_of (goes_to self.now held.now index) deleted.now) }
    {
        let mut kept = Tombs::new(alloc);
        let ranges = deleted.ranges();
        for place in 0..ranges.len() {
            let (first, last) = ranges[place];
            if self.goes_to(held, index, first.batch) {
                kept.insert(first, last)?;
            }
        }
        Ok(kept)
    }

    /// Copies of a store's batches whose names are in a run, in their order.
    fn copies(
        &self,
        alloc: Global,
        store: &Store,
        index: usize,
    ) -> Result<Vec<(BatchName, Segment)>, AllocError>
        ensures value { IfOk result (λ copies. copies.items ≡ where_key name_cmp (is_in_run self.now index) (map.entries store.now.segments)) }
        ensures offered { IfOk result (λ copies. AreOffered store.now.replica.schema copies.items) }
    {
        store.keeps_its_limits();
        let (first, second) = store.parts();
        let mut copies = Vec::new(alloc);
        self.push_copies(alloc, index, first, &mut copies)?;
        self.push_copies(alloc, index, second, &mut copies)?;
        Ok(copies)
    }

    /// Puts copies of the batches whose names are in a run at the end, in their order.
    fn push_copies(
        &self,
        alloc: Global,
        index: usize,
        batches: &[(BatchName, Segment)],
        copies: &mut Vec<(BatchName, Segment)>,
    ) -> Result<(), AllocError>
        ensures { OnOk result (copies.new.items ≡ copies.old.items ++ where_key name_cmp (is_in_run self.now index) batches.now) }
    {
        for (name, segment) in batches {
            self.push_copy(alloc, index, *name, segment, copies)?;
        }
        Ok(())
    }

    /// Puts a copy of the batch at the end if its name is in a run.
    fn push_copy(
        &self,
        alloc: Global,
        index: usize,
        name: BatchName,
        segment: &Segment,
        copies: &mut Vec<(BatchName, Segment)>,
    ) -> Result<(), AllocError>
        ensures { OnOk result (copies.new.items ≡ copies.old.items ++ where_key name_cmp (is_in_run self.now index) ((name, segment.now) ∷ [])) }
    {
        if self.is_in_run(index, name) {
            copies.push((name, segment.copy(alloc)?))?;
        }
        Ok(())
    }

    /// The share of this index, as a store of the same own origin: copies of the batches whose names are in the run, with their codings,
    /// and the deletions that name them. The first share also has the deletions that name no batch of the store.
    ///
    /// Refused is only `Memory`.
    pub fn share(&self, alloc: Global, store: &Store, index: usize) -> Result<Store, Refusal>
        ensures value { Gives (λ share. share.replica) result (Ok (share_in self.now index store.now.replica)) }
        ensures segments { IfOk result (λ share. share.segments ≡ map.retain_keys store.now.segments (is_in_run self.now index)) }
    {
        store.shows_its_segments();
        let summary = store.summary(alloc)?;
        let schema = store.schema().copy(alloc)?;
        let tombs = self.deletions(alloc, summary.names(), index, store.tombs())?;
        let entries = self.copies(alloc, store, index)?;
        Offer::from_parts(schema, entries, tombs).into_store(alloc, store.own())
    }

    /// The bytes of the canonical file of the share of this index, in memory. Refused is only `Memory`.
    pub fn share_bytes(
        &self,
        alloc: Global,
        store: &Store,
        index: usize,
    ) -> Result<Vec<u8>, Refusal>
        ensures bytes { IfOk result (λ file. file.items ≡ canonical_file store.now.replica.schema (share_of self.now index store.now.replica.state)) }
        ensures file { IfOk result (λ _. HasFile store.now.replica.schema (share_of self.now index store.now.replica.state)) }
        ensures opens { IfOk result (λ _. OpensTo (canonical_file store.now.replica.schema (share_of self.now index store.now.replica.state)) store.now.replica.schema (share_of self.now index store.now.replica.state)) }
        ensures refused { IfErr result (λ e. e ≡ Memory) }
    {
        let share = self.share(alloc, store, index)?;
        Ok(export_bytes(alloc, &share)?)
    }
}
