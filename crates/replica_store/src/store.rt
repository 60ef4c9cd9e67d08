//! A replica's store: a table's schema, an own origin, and a state that appends, inserts, deletes, merges and applied messages
//! change.
ghost use Rattle.std.specs.Prelude.{nat_lt, length, ◌++◌, ◌≡◌, ◌<◌, ◌≤◌, slice_get, Some, None, Ok, Err, true, false, is_ok, IsOk, IfOk, IfErr, OnOk, OnErr, IsTrue, T};
ghost use Rattle.std.specs.FinMap as map;
ghost use Rattle.std.specs.List.{All, list_all};
ghost use Rattle.table_model.specs.Name.{name_cmp, is_proper_name};
ghost use Rattle.table_model.specs.Outcome.{Acts, Gives, unless};
ghost use Rattle.table_model.specs.State.{union_of, live_rows};
ghost use Rattle.table_model.specs.Table.{IsBatch};
ghost use Rattle.segment_core.specs.Segment.{canonical_segment, widths_in, widths_of};
ghost use Rattle.segment_core.specs.SegmentBytes.{HasBytesIn};
ghost use Rattle.replica_store.specs.Forgotten.{forgotten};
ghost use Rattle.replica_store.specs.Forgets.{live_segments, forgotten_batches, dead_batches, batches_of, row_count};
ghost use Rattle.replica_store.specs.Brought.{IsBrought, unheld_state};
ghost use Rattle.replica_store.specs.Exchange.{summary_of, offered, unlisted, unlisted_state, applied, opened};
ghost use Rattle.replica_store.specs.Parted.{AreParted};
ghost use Rattle.replica_store.specs.Replica.{Replica, IsWithinLimits, new_replica, entries_of, names_of, appended, inserted, merged, merge_fault, next_name, place_for, replica_with, with_batch, with_join, conflict_with, number_after, greatest_number, joined_with, deleted_rows, delete_fault, deleted_names, names_fault, recoded_rows, recode_fault, batch_limit, SaysChange, holds};
ghost use Rattle.replica_store.specs.Segments.{rows_in, recoded_in, AreStored, IsStored, IsSoundStore, HasVector};
ghost use Rattle.segment_core.specs.declared.coding.Coding.{Coding};
ghost use Rattle.replica_store.specs.declared.inserted.Inserted.TheVariants.{New, Already};

use crate::batches::{
    Batches, conflict_in_either, copies_lacked, count_new, keep_lacked, names_held,
};
use crate::forgotten::Forgotten;
use crate::inserted::Inserted;
use crate::offer::Offer;
use crate::summary::Summary;
use catalogue_join::{Held, Tombs};
use segment_core::{Coding, Segment};
use std::alloc::{AllocError, Global};
use std::marker::Model;
use table_model::{BatchName, Number, Origin, Refusal, RowName, Rows, Schema, check_rows};
use transpose_order::VECTOR_ROWS;

/// How many batches a store may have.
pub const MAX_BATCHES: usize = 1_048_576;

/// The greatest number that a batch may have.
const LAST_NUMBER: u32 = u32::MAX;

/// One replica of a table. Contracts see it as the replica, which is a schema, an own origin and a state, and in addition the
/// segments of its batches, with their codings.
///
/// A call that is refused leaves the store as it was, codings included. `Memory` comes after every other refusal.
#[derive(Drop)]
pub struct Store {
    schema: Schema,
    own: Origin,
    batches: Batches,
    tombs: Tombs,
}

impl Model for Store {
    ghost use Rattle.replica_store.specs.Segments.{StoreForm, coded_store, rows_in, IsSoundStore};

    ghost Value = { StoreForm };

    ghost coded = { coded_store };

    ghost view = { λ s. record { replica = record { schema = s.schema; own = s.own; state = record { batches = rows_in s.batches.segments; deleted = s.tombs } }; segments = s.batches.segments } };

    ghost invariant = { λ s. IsSoundStore s.schema s.own s.batches };
}

impl Store {
    /// A store of the table with no batch, whose own batches will be of this origin.
    ///
    /// `BadName` is answered if the origin is 0; otherwise `Memory`, if there is no memory.
    pub fn new(alloc: Global, schema: &Schema, own: Origin) -> Result<Store, Refusal>
        ensures value { Gives (λ store. store.replica) result (new_replica schema.now own) }
        ensures segments { IfOk result (λ store. store.segments ≡ map.empty) }
    {
        if own.0 == 0 {
            return Err(Refusal::BadName);
        }
        let schema = schema.copy(alloc)?;
        Ok(Store {
            schema,
            own,
            batches: Batches::new(alloc, own),
            tombs: Tombs::new(alloc),
        })
    }

    /// The store that has these parts.
    pub(crate) fn from_parts(schema: Schema, own: Origin, batches: Batches, tombs: Tombs) -> Store
        requires { IsSoundStore schema own batches }
        ensures replica { result.replica ≡ record { schema = schema; own = own; state = record { batches = rows_in batches.segments; deleted = tombs } } }
        ensures segments { result.segments ≡ batches.segments }
    {
        Store {
            schema,
            own,
            batches,
            tombs,
        }
    }

    /// The table's schema.
    pub fn schema(&self) -> &Schema
        ensures { result.now ≡ self.now.replica.schema }
    {
        &self.schema
    }

    /// The origin of the batches that are appended here.
    pub fn own(&self) -> Origin
        ensures value { result ≡ self.now.replica.own }
        ensures proper { 1 ≤ result.0 }
    {
        self.own
    }

    /// How many batches there are.
    pub fn batches(&self) -> usize
        ensures value { result ≡ map.len self.now.replica.state.batches }
        ensures limit { result ≤ batch_limit }
        ensures within { IsWithinLimits self.now.replica.schema self.now.replica.state.batches }
    {
        self.batches.len()
    }

    /// How many rows the batches have, deleted ones among them.
    pub fn rows(&self) -> u64
        ensures { result ≡ row_count (batches_of (entries_of self.now.replica)) }
    {
        let mut rows: u64 = 0;
        for index in 0..self.batches() {
            let (_, segment) = self.batch(index);
            rows += segment.rows() as u64;
        }
        rows
    }

    /// The law that a store is within its limits.
    pub fn keeps_its_limits(&self)
        ensures limit { map.len self.now.replica.state.batches ≤ batch_limit }
        ensures within { IsWithinLimits self.now.replica.schema self.now.replica.state.batches }
    {
        self.batches();
    }

    /// The batch at this place, in ascending order of name and from 0.
    pub fn batch(&self, index: usize) -> (BatchName, &Segment)
        requires { index < map.len self.now.replica.state.batches }
        ensures value { slice_get (entries_of self.now.replica) index ≡ Some (result.0, result.1.now.rows) }
        ensures segment { slice_get (map.entries self.now.segments) index ≡ Some (result.0, result.1.now) }
        ensures proper { IsTrue (is_proper_name result.0) }
        ensures fits { IsBatch self.now.replica.schema result.1.now.rows }
        ensures widths { widths_in result.1.now.forms ≡ widths_of self.now.replica.schema }
        ensures valid { HasBytesIn self.now.replica.schema result.1.now }
    {
        let (name, segment) = self.batches.at(index);
        segment.keeps_its_vectors();
        (name, segment)
    }

    /// All batches in ascending order of name, in two parts: those of origins up to the own one, then those of greater origins.
    pub fn parts(&self) -> (&[(BatchName, Segment)], &[(BatchName, Segment)])
        ensures value { result.0.now ++ result.1.now ≡ map.entries self.now.segments }
        ensures rows { self.now.replica.state.batches ≡ rows_in self.now.segments }
        ensures parted { AreParted self.now.replica.own result.0.now result.1.now }
        ensures first { All (IsStored self.now.replica.schema) result.0.now }
        ensures second { All (IsStored self.now.replica.schema) result.1.now }
    {
        self.batches.parts()
    }

    /// The law that a store's batches are the rows of its segments.
    pub fn shows_its_segments(&self)
        ensures { self.now.replica.state.batches ≡ rows_in self.now.segments }
    {
        self.parts();
    }

    /// Whether the batch of this name is held. It takes a binary search.
    pub fn holds(&self, name: BatchName) -> bool
        ensures { result ≡ holds self.now.replica name }
    {
        self.batches.names().holds(name)
    }

    /// The deleted rows, held here or not.
    pub fn tombs(&self) -> &Tombs
        ensures { result.now ≡ self.now.replica.state.deleted }
    {
        &self.tombs
    }

    /// Adds the rows as a batch of the own origin, with one more than the greatest number that is held of it, or 1.
    ///
    /// The refusals are, in this order: the faults of [`check_rows`], `NumbersSpent` if 4,294,967,295 is held, `Full` if 1,048,576
    /// batches are held, `Memory`.
    pub fn append(&mut self, alloc: Global, rows: &Rows) -> Result<BatchName, Refusal>
        ensures acts { Acts (λ name. name) self.old.replica result self.new.replica (appended self.old.replica rows.now) }
        ensures segments { IfOk result (λ name. self.new.segments ≡ map.insert self.old.segments name (canonical_segment self.old.replica.schema rows.now)) }
        ensures refused { OnErr result (self.new ≡ self.old) }
    {
        let name = self.next_name(rows)?;
        self.add(alloc, name, rows)?;
        Ok(name)
    }

    /// Adds the rows as the batch of this name.
    ///
    /// The refusals are, in this order: the faults of [`check_rows`], `BadName` if the origin or the number is 0, `Conflict` if the
    /// name is held with other rows, `Full` if 1,048,576 batches are held, `Memory`. A name that is held with the same rows is
    /// `Already`, even in a full store, and takes no memory.
    pub fn insert(
        &mut self,
        alloc: Global,
        name: BatchName,
        rows: &Rows,
    ) -> Result<Inserted, Refusal>
        ensures acts { Acts (λ answer. answer) self.old.replica result self.new.replica (inserted self.old.replica name rows.now) }
        ensures new { result ≡ Ok New → self.new.segments ≡ map.insert self.old.segments name (canonical_segment self.old.replica.schema rows.now) }
        ensures already { result ≡ Ok Already → self.new ≡ self.old }
        ensures held { (r : Replica) → inserted self.old.replica name rows.now ≡ Ok (Already, r) → result ≡ Ok Already }
        ensures refused { OnErr result (self.new ≡ self.old) }
    {
        match self.place_for(name, rows)? {
            Inserted::Already => Ok(Inserted::Already),
            Inserted::New => {
                self.add(alloc, name, rows)?;
                Ok(Inserted::New)
            }
        }
    }

    /// Deletes the rows of a batch from the first to the ordinal `last`, both included, whether they are held here or not. Answers
    /// whether one of them was not deleted before.
    ///
    /// The refusals are, in this order: `BadName` if the batch's origin or number is 0, `BadRange` if `last` is less than the first
    /// ordinal, `Memory`. If the rows are deleted already it takes no memory.
    pub fn delete(&mut self, _alloc: Global, first: RowName, last: u16) -> Result<bool, Refusal>
        ensures acts { Acts (λ changed. tt) self.old.replica result self.new.replica (deleted_rows self.old.replica first last) }
        ensures changed { IfOk result (λ changed. SaysChange changed self.old.replica self.new.replica) }
        ensures segments { self.new.segments ≡ self.old.segments }
        ensures idle { deleted_rows self.old.replica first last ≡ Ok (tt, self.old.replica) → IsOk result }
        ensures refused { OnErr result (self.new ≡ self.old) }
    {
        delete_fault(first, last)?;
        if self.tombs.holds_rows(first, last) {
            return Ok(false);
        }
        self.tombs.insert(first, last)?;
        Ok(true)
    }

    /// Deletes some rows, whether they are held here or not, in any order and with any repeats. Answers whether one of them was not
    /// deleted before.
    ///
    /// The refusals are, in this order: `BadName` if the origin or the number of a row's batch is 0, `Memory`. If all of them are
    /// deleted already it takes no memory.
    pub fn delete_all(&mut self, alloc: Global, rows: &[RowName]) -> Result<bool, Refusal>
        ensures acts { Acts (λ changed. tt) self.old.replica result self.new.replica (deleted_names self.old.replica rows.now) }
        ensures changed { IfOk result (λ changed. SaysChange changed self.old.replica self.new.replica) }
        ensures segments { self.new.segments ≡ self.old.segments }
        ensures idle { deleted_names self.old.replica rows.now ≡ Ok (tt, self.old.replica) → IsOk result }
        ensures refused { OnErr result (self.new ≡ self.old) }
    {
        names_fault(rows)?;
        if self.tombs.holds_all(rows) {
            return Ok(false);
        }
        let more = Tombs::from_rows(alloc, rows)?;
        self.tombs.join(&more)?;
        Ok(true)
    }

    /// Drops the batches of which every row is deleted, and answers how many batches and rows these are. Their deletions stay, so these
    /// rows never come to life again, and no query is answered otherwise.
    ///
    /// `Memory` is answered if there is no memory for the names of the batches that stay. If no batch is dropped it takes none.
    pub fn forget(&mut self, alloc: Global) -> Result<Forgotten, Refusal>
        ensures acts { Acts (λ done. tt) self.old.replica result self.new.replica (forgotten_batches self.old.replica) }
        ensures batches { IfOk result (λ done. done.batches ≡ length (dead_batches self.old.replica.state)) }
        ensures rows { IfOk result (λ done. done.rows ≡ row_count (batches_of (dead_batches self.old.replica.state))) }
        ensures segments { OnOk result (self.new.segments ≡ live_segments self.old.replica.state.deleted self.old.segments) }
        ensures live { live_rows self.new.replica.state ≡ live_rows self.old.replica.state }
        ensures idle { forgotten self.old.replica.state ≡ self.old.replica.state → IsOk result }
        ensures refused { OnErr result (self.new ≡ self.old) }
    {
        let batches = self.batches();
        let rows = self.rows();
        self.drop_dead(alloc)?;
        Ok(Forgotten {
            batches: batches.saturating_sub(self.batches()) as u32,
            rows: rows.saturating_sub(self.rows()),
        })
    }

    /// Drops the batches of which each row is deleted, and does not count them.
    fn drop_dead(&mut self, alloc: Global) -> Result<(), Refusal>
        ensures acts { Acts (λ done. done) self.old.replica result self.new.replica (forgotten_batches self.old.replica) }
        ensures segments { OnOk result (self.new.segments ≡ live_segments self.old.replica.state.deleted self.old.segments) }
        ensures live { live_rows self.new.replica.state ≡ live_rows self.old.replica.state }
        ensures idle { forgotten self.old.replica.state ≡ self.old.replica.state → IsOk result }
        ensures refused { OnErr result (self.new ≡ self.old) }
    {
        if self.batches.are_live(&self.tombs) {
            return Ok(());
        }
        self.batches.forget(alloc, &self.tombs)?;
        Ok(())
    }

    /// Adds the other store's batches and deletions, so that the state becomes the join of both. Answers whether one of them was
    /// missing here.
    ///
    /// The refusals are, in this order: `SchemaDiffers`, `Conflict` with the least name that has two lists of rows, `Full` if the
    /// union has more than 1,048,576 batches, `Memory`. The own origin stays. If nothing is missing it takes no memory.
    pub fn merge(&mut self, alloc: Global, other: &Store) -> Result<bool, Refusal>
        ensures acts { Acts (λ changed. tt) self.old.replica result self.new.replica (merged self.old.replica other.now.replica) }
        ensures changed { IfOk result (λ changed. SaysChange changed self.old.replica self.new.replica) }
        ensures segments { OnOk result (self.new.segments ≡ union_of self.old.segments other.now.segments) }
        ensures idle { merged self.old.replica other.now.replica ≡ Ok (tt, self.old.replica) → IsOk result }
        ensures refused { OnErr result (self.new ≡ self.old) }
    {
        let (first, second) = other.batches.parts();
        self.merge_fault(&other.schema, first, second)?;
        if self.has_all(first, second, &other.tombs) {
            return Ok(false);
        }
        self.take_all(alloc, first, second, other.batches.names(), &other.tombs)?;
        Ok(true)
    }

    /// Whether another store is merged without a refusal but `Memory`.
    pub(crate) fn merges_with(&self, other: &Store) -> bool
        ensures { result ≡ is_ok (merged self.now.replica other.now.replica) }
    {
        let (first, second) = other.batches.parts();
        self.merge_fault(&other.schema, first, second).is_ok()
    }

    /// How many steps a join of its batches and deletions takes.
    pub(crate) fn steps(&self) -> usize {
        self.batches.len().saturating_add(self.tombs.ranges().len())
    }

    /// Adds the batches and deletions of a store that is merged without a refusal. Its segments are moved, so none is copied.
    pub(crate) fn join(&mut self, alloc: Global, other: Store) -> Result<(), AllocError>
        requires { IsOk (merged self.old.replica other.replica) }
        ensures replica { OnOk result (merged self.old.replica other.replica ≡ Ok (tt, self.new.replica)) }
        ensures segments { OnOk result (self.new.segments ≡ union_of self.old.segments other.segments) }
        ensures kept { OnErr result (self.new ≡ self.old) }
    {
        let Store { batches, tombs, .. } = other;
        let (entries, names) = batches.into_entries()?;
        self.move_all(alloc, entries, &names, &tombs)
    }

    /// Adds the other store's batches and deletions, as [`merge`](Store::merge) does, with the same refusals. Its segments are moved, so none is
    /// copied. A refused call leaves the store as it was.
    pub fn take(&mut self, alloc: Global, other: Store) -> Result<(), Refusal>
        ensures acts { Acts (λ done. done) self.old.replica result self.new.replica (merged self.old.replica other.replica) }
        ensures segments { OnOk result (self.new.segments ≡ union_of self.old.segments other.segments) }
        ensures refused { OnErr result (self.new ≡ self.old) }
    {
        self.merge_refusal(&other)?;
        self.join(alloc, other)?;
        Ok(())
    }

    /// Why another store is refused in a merge, if it is.
    fn merge_refusal(&self, other: &Store) -> Result<(), Refusal>
        ensures { result ≡ unless (merge_fault self.now.replica other.now.replica) }
    {
        let (first, second) = other.batches.parts();
        self.merge_fault(&other.schema, first, second)
    }

    /// The names of the batches that are held, from which another replica sees what to offer. `Memory` is answered if there is
    /// none.
    pub fn summary(&self, alloc: Global) -> Result<Summary, Refusal>
        ensures { Gives (λ summary. summary) result (Ok (summary_of self.now.replica)) }
    {
        let schema = self.schema.copy(alloc)?;
        let names = self.batches.names().copy(alloc)?;
        Ok(Summary::from_parts(schema, names))
    }

    /// Copies of the batches that the summary does not name, as they are coded here, and of all deletions.
    ///
    /// The refusals are, in this order: `SchemaDiffers`, `Memory`.
    pub fn offer(&self, alloc: Global, summary: &Summary) -> Result<Offer, Refusal>
        ensures state { Gives (λ offer. offer.state) result (offered self.now.replica summary.now) }
        ensures schema { IfOk result (λ offer. offer.schema ≡ self.now.replica.schema) }
        ensures segments { IfOk result (λ offer. offer.segments ≡ unlisted summary.now.names self.now.segments) }
    {
        if !self.schema.same(summary.schema()) {
            return Err(Refusal::SchemaDiffers);
        }
        let schema = self.schema.copy(alloc)?;
        let (first, second) = self.batches.parts();
        let entries = copies_lacked(alloc, summary.names(), first, second)?;
        let tombs = self.tombs.copy(alloc)?;
        Ok(Offer::from_parts(schema, entries, tombs))
    }

    /// Adds an offer's batches and deletions, as a merge with a store that has them. A batch that is held keeps its codings, and a
    /// new one has those of the offer. Answers whether one of them was missing here.
    ///
    /// The refusals are, in this order: `SchemaDiffers`, `Conflict` with the least name that has two lists of rows, `Full` if the
    /// union has more than 1,048,576 batches, `Memory`. The own origin stays. If nothing is missing it takes no memory.
    pub fn apply(&mut self, alloc: Global, offer: &Offer) -> Result<bool, Refusal>
        ensures acts { Acts (λ changed. tt) self.old.replica result self.new.replica (applied self.old.replica offer.now) }
        ensures changed { IfOk result (λ changed. SaysChange changed self.old.replica self.new.replica) }
        ensures segments { OnOk result (self.new.segments ≡ union_of self.old.segments offer.now.segments) }
        ensures idle { applied self.old.replica offer.now ≡ Ok (tt, self.old.replica) → IsOk result }
        ensures refused { OnErr result (self.new ≡ self.old) }
    {
        if !self.lacks(offer)? {
            return Ok(false);
        }
        let entries = offer.entries();
        let names = names_held(alloc, entries)?;
        let (first, second) = entries.split_at(entries.len());
        self.take_all(alloc, first, second, &names, offer.tombs())?;
        Ok(true)
    }

    /// Adds an offer's batches and deletions as [`apply`](Store::apply) does, with the same answers. The offer's segments are moved
    /// into the store, so none is copied.
    pub fn absorb(&mut self, alloc: Global, offer: Offer) -> Result<bool, Refusal>
        ensures acts { Acts (λ changed. tt) self.old.replica result self.new.replica (applied self.old.replica offer) }
        ensures changed { IfOk result (λ changed. SaysChange changed self.old.replica self.new.replica) }
        ensures segments { OnOk result (self.new.segments ≡ union_of self.old.segments offer.segments) }
        ensures idle { applied self.old.replica offer ≡ Ok (tt, self.old.replica) → IsOk result }
        ensures refused { OnErr result (self.new ≡ self.old) }
    {
        if !self.lacks(&offer)? {
            return Ok(false);
        }
        let (entries, tombs) = offer.into_parts();
        let names = names_held(alloc, entries.as_slice())?;
        self.move_all(alloc, entries, &names, &tombs)?;
        Ok(true)
    }

    /// Adds what an offer has and another store has not: the batches whose names aren't held there, and all deletions. The offer's
    /// segments are moved into this store, so none is copied.
    ///
    /// It is refused as it would be by the one store that has what both have: `SchemaDiffers`, `Conflict` with the least name that has
    /// two lists of rows, `Full` if there would be more than 1,048,576 batches, `Memory`.
    pub(crate) fn bring(&mut self, alloc: Global, held: &Store, offer: Offer) -> Result<(), Refusal>
        requires { IsBrought held.now self.old }
        ensures acts { Acts (λ done. done) (with_join held.now.replica self.old.replica) result (with_join held.now.replica self.new.replica) (applied (with_join held.now.replica self.old.replica) offer) }
        ensures brought { OnOk result (self.new.replica ≡ joined_with self.old.replica (unheld_state held.now.replica offer.state)) }
        ensures segments { OnOk result (self.new.segments ≡ union_of self.old.segments (unlisted (names_of held.now.replica.state.batches) offer.segments)) }
        ensures is_brought { IsBrought held.now self.new }
        ensures refused { OnErr result (self.new ≡ self.old) }
    {
        self.bring_fault(held, &offer)?;
        self.move_new(alloc, held.batches.names(), offer)?;
        Ok(())
    }

    /// Why an offer is refused by the one store that has what another one and this one have, if it is.
    #[tactic(auto, unfolding(crate::specs::Replica::merge_fault))]
    fn bring_fault(&self, held: &Store, offer: &Offer) -> Result<(), Refusal>
        requires { IsBrought held.now self.now }
        ensures { result ≡ unless (merge_fault (with_join held.now.replica self.now.replica) (replica_with offer.now.schema offer.now.state.batches)) }
    {
        if !held.schema.same(offer.schema()) {
            return Err(Refusal::SchemaDiffers);
        }
        if let Some(name) = self.conflict_in_either(held, offer) {
            return Err(Refusal::Conflict(name));
        }
        if self.exceeds_with(held, offer) {
            return Err(Refusal::Full);
        }
        Ok(())
    }

    /// The first of an offer's batches that has other rows here or in another store.
    fn conflict_in_either(&self, held: &Store, offer: &Offer) -> Option<BatchName>
        ensures { result ≡ conflict_with (union_of held.now.replica.state.batches self.now.replica.state.batches) (map.entries offer.now.state.batches) }
    {
        conflict_in_either(&held.batches, &self.batches, offer.entries())
    }

    /// Whether another store, this one and an offer have more batches together than a store may.
    fn exceeds_with(&self, held: &Store, offer: &Offer) -> bool
        requires { IsBrought held.now self.now }
        ensures { result ≡ nat_lt batch_limit (map.len (union_of (union_of held.now.replica.state.batches self.now.replica.state.batches) offer.now.state.batches)) }
    {
        let room = MAX_BATCHES - (held.batches() + self.batches());
        count_new(held.batches.names(), self.batches.names(), offer.entries()) > room
    }

    /// Moves the batches of an offer that aren't among these names into the store, and its deletions.
    fn move_new(&mut self, alloc: Global, names: &Held, offer: Offer) -> Result<(), AllocError>
        requires schema { self.old.replica.schema ≡ offer.schema }
        requires limit { map.len (union_of self.old.replica.state.batches (unlisted names.now offer.state.batches)) ≤ batch_limit }
        ensures ok { OnOk result (self.new.replica ≡ joined_with self.old.replica (unlisted_state names.now offer.state)) }
        ensures segments { OnOk result (self.new.segments ≡ union_of self.old.segments (unlisted names.now offer.segments)) }
        ensures err { OnErr result (self.new ≡ self.old) }
    {
        let (mut entries, tombs) = offer.into_parts();
        keep_lacked(&mut entries, names);
        let come = names_held(alloc, entries.as_slice())?;
        self.move_all(alloc, entries, &come, &tombs)
    }

    /// Whether a store that is brought to this one has a batch or a deletion that is missing here.
    pub(crate) fn lacks_of(&self, brought: &Store) -> bool
        ensures { SaysChange result self.now.replica (with_join self.now.replica brought.now.replica) }
    {
        let (first, second) = brought.batches.parts();
        !self.has_all(first, second, &brought.tombs)
    }

    /// Puts a vector of a batch into another coding, in the least form that the coding has; no row changes. Columns and vectors
    /// count from 0.
    ///
    /// The refusals are, in this order: `NoSuchVector` if the batch isn't held or has no such column or vector, `Memory`.
    pub fn recode(
        &mut self,
        alloc: Global,
        name: BatchName,
        column: u32,
        vector: u32,
        coding: Coding,
    ) -> Result<(), Refusal>
        ensures acts { Acts (λ done. done) self.old.replica result self.new.replica (recoded_rows self.old.replica name column vector) }
        ensures segments { Acts (λ done. done) self.old.segments result self.new.segments (recoded_in self.old.segments name column vector coding) }
        ensures refused { OnErr result (self.new ≡ self.old) }
    {
        self.recode_fault(name, column, vector)?;
        self.batches.recode(alloc, name, column, vector, coding)
    }

    /// Why a vector isn't put into another coding, if it isn't.
    fn recode_fault(&self, name: BatchName, column: u32, vector: u32) -> Result<(), Refusal>
        ensures value { result ≡ unless (recode_fault self.now.replica name column vector) }
        ensures there { OnOk result ((coding : Coding) → IsOk (recoded_in self.now.segments name column vector coding)) }
        ensures missing { IfErr result (λ e. (coding : Coding) → recoded_in self.now.segments name column vector coding ≡ Err e) }
    {
        let Some(segment) = self.batches.get(name) else {
            return Err(Refusal::NoSuchVector);
        };
        if has_vector(segment, column as usize, vector as usize) {
            Ok(())
        } else {
            Err(Refusal::NoSuchVector)
        }
    }

    /// The name that an append of the rows gets, or its refusal.
    #[tactic(auto, unfolding(crate::specs::Replica::next_name))]
    fn next_name(&self, rows: &Rows) -> Result<BatchName, Refusal>
        ensures value { result ≡ next_name self.now.replica rows.now }
        ensures proper { IfOk result (λ name. IsTrue (is_proper_name name)) }
    {
        check_rows(&self.schema, rows)?;
        self.free_name()
    }

    /// The name that the next batch of the own origin gets, or why there is no such name.
    fn free_name(&self) -> Result<BatchName, Refusal>
        ensures value { result ≡ number_after self.now.replica (greatest_number self.now.replica.own (entries_of self.now.replica)) }
        ensures proper { IfOk result (λ name. IsTrue (is_proper_name name)) }
    {
        let number = self.batches.greatest_number(self.own);
        if number == LAST_NUMBER {
            return Err(Refusal::NumbersSpent);
        }
        if self.batches.len() >= MAX_BATCHES {
            return Err(Refusal::Full);
        }
        Ok(BatchName {
            origin: self.own,
            number: Number(number + 1),
        })
    }

    /// Whether the rows are new under the name or held already, or the refusal of an insert.
    #[tactic(auto, unfolding(crate::specs::Replica::place_for))]
    fn place_for(&self, name: BatchName, rows: &Rows) -> Result<Inserted, Refusal>
        ensures { result ≡ place_for self.now.replica name rows.now }
    {
        check_rows(&self.schema, rows)?;
        if !name.is_proper() {
            return Err(Refusal::BadName);
        }
        match self.batches.get(name) {
            Some(held) if held.has_rows(rows) => Ok(Inserted::Already),
            Some(_) => Err(Refusal::Conflict(name)),
            None if self.batches.len() >= MAX_BATCHES => Err(Refusal::Full),
            None => Ok(Inserted::New),
        }
    }

    /// Adds the rows of the batch that was decided on.
    fn add(&mut self, alloc: Global, name: BatchName, rows: &Rows) -> Result<(), AllocError>
        requires proper { IsTrue (is_proper_name name) }
        requires new { map.get self.old.replica.state.batches name ≡ None }
        requires room { map.len self.old.replica.state.batches < batch_limit }
        requires fit { IsBatch self.old.replica.schema rows.now }
        ensures ok { OnOk result (self.new.replica ≡ with_batch self.old.replica name rows.now) }
        ensures segments { OnOk result (self.new.segments ≡ map.insert self.old.segments name (canonical_segment self.old.replica.schema rows.now)) }
        ensures err { OnErr result (self.new ≡ self.old) }
    {
        let segment = Segment::build(alloc, self.schema(), rows)?;
        self.put(name, segment)
    }

    /// Adds a segment of the table as the batch that was decided on.
    fn put(&mut self, name: BatchName, segment: Segment) -> Result<(), AllocError>
        requires proper { IsTrue (is_proper_name name) }
        requires new { map.get self.old.replica.state.batches name ≡ None }
        requires room { map.len self.old.replica.state.batches < batch_limit }
        requires fit { IsBatch self.old.replica.schema segment.rows }
        requires widths { widths_in segment.forms ≡ widths_of self.old.replica.schema }
        ensures ok { OnOk result (self.new.replica ≡ with_batch self.old.replica name segment.rows) }
        ensures segments { OnOk result (self.new.segments ≡ map.insert self.old.segments name segment) }
        ensures err { OnErr result (self.new ≡ self.old) }
    {
        self.batches.insert(name, segment)?;
        Ok(())
    }

    /// Why batches of a table, in two parts that follow each other in ascending order of name, are refused in a merge, if they are.
    #[tactic(auto, unfolding(crate::specs::Replica::merge_fault))]
    fn merge_fault(
        &self,
        schema: &Schema,
        first: &[(BatchName, Segment)],
        second: &[(BatchName, Segment)],
    ) -> Result<(), Refusal>
        requires { T (map.is_sorted name_cmp (first.now ++ second.now)) }
        ensures { result ≡ unless (merge_fault self.now.replica (replica_with schema.now (rows_in (map.from_sorted (first.now ++ second.now))))) }
    {
        if !self.schema.same(schema) {
            return Err(Refusal::SchemaDiffers);
        }
        if let Some(name) = self.batches.conflict_with(first, second) {
            return Err(Refusal::Conflict(name));
        }
        if self.batches.union_exceeds(first, second, MAX_BATCHES) {
            return Err(Refusal::Full);
        }
        Ok(())
    }

    /// Whether batches of all these names, which come in two parts that follow each other, and all these deletions are here, so
    /// that their join changes nothing.
    fn has_all(
        &self,
        first: &[(BatchName, Segment)],
        second: &[(BatchName, Segment)],
        tombs: &Tombs,
    ) -> bool
        requires { T (map.is_sorted name_cmp (first.now ++ second.now)) }
        ensures state { result ≡ true → joined_with self.now.replica (record { batches = rows_in (map.from_sorted (first.now ++ second.now)); deleted = tombs.now }) ≡ self.now.replica }
        ensures segments { result ≡ true → union_of self.now.segments (map.from_sorted (first.now ++ second.now)) ≡ self.now.segments }
        ensures lacking { joined_with self.now.replica (record { batches = rows_in (map.from_sorted (first.now ++ second.now)); deleted = tombs.now }) ≡ self.now.replica → result ≡ true }
    {
        self.tombs.has_all(tombs)
            && !self
                .batches
                .union_exceeds(first, second, self.batches.len())
    }

    /// Whether an offer has batches or deletions that are missing here, or why it is refused.
    fn lacks(&self, offer: &Offer) -> Result<bool, Refusal>
        ensures refused { IfErr result (λ e. applied self.now.replica offer.now ≡ Err e) }
        ensures made { OnOk result (applied self.now.replica offer.now ≡ Ok (tt, joined_with self.now.replica offer.now.state)) }
        ensures lacks { IfOk result (λ lacks. SaysChange lacks self.now.replica (joined_with self.now.replica offer.now.state)) }
        ensures segments { result ≡ Ok false → union_of self.now.segments offer.now.segments ≡ self.now.segments }
        ensures stored { OnOk result (AreStored self.now.replica.schema offer.now.segments) }
        ensures limit { OnOk result (map.len (union_of self.now.replica.state.batches (rows_in offer.now.segments)) ≤ batch_limit) }
    {
        let entries = offer.entries();
        let (first, second) = entries.split_at(entries.len());
        self.merge_fault(offer.schema(), first, second)?;
        Ok(!self.has_all(first, second, offer.tombs()))
    }

    /// Takes in batches, in two parts that follow each other in ascending order of name and have these names, and deletions.
    fn take_all(
        &mut self,
        alloc: Global,
        first: &[(BatchName, Segment)],
        second: &[(BatchName, Segment)],
        names: &Held,
        tombs: &Tombs,
    ) -> Result<(), AllocError>
        requires sorted { T (map.is_sorted name_cmp (first.now ++ second.now)) }
        requires names { names.now ≡ names_of (map.from_sorted (first.now ++ second.now)) }
        requires stored { AreStored self.old.replica.schema (map.from_sorted (first.now ++ second.now)) }
        requires limit { map.len (union_of self.old.replica.state.batches (rows_in (map.from_sorted (first.now ++ second.now)))) ≤ batch_limit }
        ensures ok { OnOk result (self.new.replica ≡ joined_with self.old.replica (record { batches = rows_in (map.from_sorted (first.now ++ second.now)); deleted = tombs.now })) }
        ensures segments { OnOk result (self.new.segments ≡ union_of self.old.segments (map.from_sorted (first.now ++ second.now))) }
        ensures err { OnErr result (self.new ≡ self.old) }
    {
        if self.tombs.has_all(tombs) {
            return self.batches.join(alloc, first, second, names);
        }
        let tombs = self.tombs.joined(tombs)?;
        self.batches.join(alloc, first, second, names)?;
        self.tombs = tombs;
        Ok(())
    }
    /// Takes in batches, which are in ascending order of name and have these names, and deletions. No segment is copied.
    fn move_all(
        &mut self,
        alloc: Global,
        entries: Vec<(BatchName, Segment)>,
        names: &Held,
        tombs: &Tombs,
    ) -> Result<(), AllocError>
        requires sorted { T (map.is_sorted name_cmp entries.items) }
        requires names { names.now ≡ names_of (map.from_sorted entries.items) }
        requires stored { AreStored self.old.replica.schema (map.from_sorted entries.items) }
        requires limit { map.len (union_of self.old.replica.state.batches (rows_in (map.from_sorted entries.items))) ≤ batch_limit }
        ensures ok { OnOk result (self.new.replica ≡ joined_with self.old.replica (record { batches = rows_in (map.from_sorted entries.items); deleted = tombs.now })) }
        ensures segments { OnOk result (self.new.segments ≡ union_of self.old.segments (map.from_sorted entries.items)) }
        ensures err { OnErr result (self.new ≡ self.old) }
    {
        if self.tombs.has_all(tombs) {
            return self.batches.absorb(alloc, entries, names);
        }
        let tombs = self.tombs.joined(tombs)?;
        self.batches.absorb(alloc, entries, names)?;
        self.tombs = tombs;
        Ok(())
    }
}

/// Whether the segment has a vector at this place of this column.
fn has_vector(segment: &Segment, column: usize, vector: usize) -> bool
    ensures { HasVector segment.now column vector result }
{
    let vectors = segment.rows().div_ceil(VECTOR_ROWS);
    column < segment.columns() && vector < vectors
}

/// Whether the batches of all rows have proper names.
fn are_proper(rows: &[RowName]) -> bool
    ensures { result ≡ list_all (λ row. is_proper_name row.batch) rows.now }
{
    rows.iter().all(|row| row.batch.is_proper())
}

/// Why a delete of some rows is refused, if it is.
#[tactic(auto, unfolding(crate::specs::Replica::names_fault))]
fn names_fault(rows: &[RowName]) -> Result<(), Refusal>
    ensures { result ≡ unless (names_fault rows.now) }
{
    if are_proper(rows) {
        Ok(())
    } else {
        Err(Refusal::BadName)
    }
}

/// Why a delete is refused, if it is.
#[tactic(auto, unfolding(crate::specs::Replica::delete_fault))]
fn delete_fault(first: RowName, last: u16) -> Result<(), Refusal>
    ensures { result ≡ unless (delete_fault first last) }
{
    if !first.batch.is_proper() {
        return Err(Refusal::BadName);
    }
    if last < first.ordinal {
        return Err(Refusal::BadRange(0));
    }
    Ok(())
}
