//! The batches of a replica, in ascending order of name, in two vectors that its own origin parts.
ghost use Rattle.std.specs.Prelude.{cond, ◌||◌, is_some, take, drop, slice_get, Some, ◌≡◌, ◌+◌, ◌≤◌, T, [], ◌∷◌, ◌++◌, length, reverse, nat_lt, List, None, IsNone, IsTrue, MatchOption, IfSome, ◌<◌, OnOk, OnErr, IfOk, vec_len, vec_capacity};
ghost use Rattle.std.specs.Option.{option_copied, option_to_list, option_map};
ghost use Rattle.std.specs.FinMap as map;
ghost use Rattle.std.specs.List.{All, insert, list_all};
ghost use Rattle.std.specs.FinSet as set;
ghost use Rattle.table_model.specs.Name.{name_cmp, is_proper_name};
ghost use Rattle.table_model.specs.Table.{Table};
ghost use Rattle.table_model.specs.declared.names.BatchName.{BatchName};
ghost use Rattle.replica_store.specs.Entries.{count_below, merge, takes_first};
ghost use Rattle.replica_store.specs.Forgets.{is_live_entry, live_entries, live_segments};
ghost use Rattle.replica_store.specs.Parted.{AreParted};
ghost use Rattle.replica_store.specs.Replica.{greatest_number, differs, conflict_with, lacked_by, names_of, entries_of};
ghost use Rattle.replica_store.specs.Segments.{rows_in, rows_entries, conflict_in, recoded_in, AreFresh, AreLackedOf, AreStored, Entry, HasProperName, RecodesEntries, HoldsAt};
ghost use Rattle.table_model.specs.State.{union_of};
ghost use Rattle.table_model.specs.Outcome.{Acts};

use catalogue_join::{Held, Tombs};
use segment_core::{Coding, Segment};
use std::alloc::{AllocError, Global};
use std::marker::Model;
use std::mem;
use table_model::{BatchName, Origin, Refusal};

/// The batches by name, as segments, and the set of the names. Contracts see the own origin that divides them, and a finite map
/// from names to segments.
///
/// They are in two vectors in ascending order: those of origins up to the own one, of which the own ones are the last, and those of
/// greater origins. So an appended batch goes to the end of the first and moves no other.
#[derive(Drop)]
pub(crate) struct Batches {
    own: Origin,
    up_to: Vec<(BatchName, Segment)>,
    past: Vec<(BatchName, Segment)>,
    held: Held,
}

impl Model for Batches {
    ghost use Rattle.std.specs.Prelude.{◌++◌};
    ghost use Rattle.std.specs.FinMap as map;
    ghost use Rattle.replica_store.specs.Parted.{AreKeptInParts};
    ghost use Rattle.replica_store.specs.Segments.{BatchesForm, coded_batches};

    ghost Value = { BatchesForm };

    ghost coded = { coded_batches };

    ghost view = { λ b. record { own = b.own; segments = map.from_sorted (b.up_to.items ++ b.past.items) } };

    ghost invariant = { λ b. AreKeptInParts b.own b.up_to.items b.past.items b.held };
}

impl Batches {
    /// No batch. Those that come will be parted by the own origin.
    pub fn new(alloc: Global, own: Origin) -> Batches
        ensures own { result.own ≡ own }
        ensures segments { result.segments ≡ map.empty }
        ensures rows { rows_in result.segments ≡ map.empty }
    {
        let held = Held::new(alloc);
        Batches {
            own,
            up_to: Vec::new(alloc),
            past: Vec::new(alloc),
            held,
        }
    }

    /// Batches of proper names that are in ascending order already, parted by the own origin. It takes a step for each.
    pub fn from_entries(
        alloc: Global,
        own: Origin,
        entries: Vec<(BatchName, Segment)>,
    ) -> Result<Batches, AllocError>
        requires sorted { T (map.is_sorted name_cmp entries.items) }
        requires proper { All HasProperName entries.items }
        ensures own { IfOk result (λ batches. batches.own ≡ own) }
        ensures segments { IfOk result (λ batches. batches.segments ≡ map.from_sorted entries.items) }
    {
        let held = names_held(alloc, entries.as_slice())?;
        let (up_to, past) = parted(own, entries)?;
        Ok(Batches {
            own,
            up_to,
            past,
            held,
        })
    }

    /// How many batches there are.
    pub fn len(&self) -> usize
        ensures count { result ≡ map.len self.now.segments }
        ensures rows { result ≡ map.len (rows_in self.now.segments) }
    {
        self.up_to.len() + self.past.len()
    }

    /// The batches, in ascending order of name: those of origins up to the own one, then those of greater origins.
    pub fn parts(&self) -> (&[(BatchName, Segment)], &[(BatchName, Segment)])
        ensures whole { result.0.now ++ result.1.now ≡ map.entries self.now.segments }
        ensures parted { AreParted self.now.own result.0.now result.1.now }
    {
        (self.up_to.as_slice(), self.past.as_slice())
    }

    /// The batch at this place, in ascending order of name and from 0. It takes the same time at each place.
    pub fn at(&self, index: usize) -> (BatchName, &Segment)
        requires { index < map.len self.now.segments }
        ensures { slice_get (map.entries self.now.segments) index ≡ Some (result.0, result.1.now) }
    {
        let before = self.up_to.len();
        if index < before {
            entry_at(self.up_to.as_slice(), index)
        } else {
            entry_at(self.past.as_slice(), index - before)
        }
    }

    /// The segment of a batch, if there is one of that name. It takes a binary search.
    pub fn get(&self, name: BatchName) -> Option<&Segment>
        ensures segment { option_copied result ≡ map.get self.now.segments name }
        ensures rows { option_map (λ s. s.rows) (option_copied result) ≡ map.get (rows_in self.now.segments) name }
    {
        if name.origin.0 <= self.own.0 {
            found(self.up_to.as_slice(), name)
        } else {
            found(self.past.as_slice(), name)
        }
    }

    /// The names of the batches.
    pub fn names(&self) -> &Held
        ensures { result.now ≡ names_of self.now.segments }
    {
        &self.held
    }

    /// The greatest number of an origin, or 0. It takes two binary searches.
    pub fn greatest_number(&self, origin: Origin) -> u32
        ensures { result ≡ greatest_number origin (map.entries (rows_in self.now.segments)) }
    {
        let up_to = last_number(self.up_to.as_slice(), origin);
        let past = last_number(self.past.as_slice(), origin);
        up_to.max(past)
    }

    /// Whether the batch of this name has other rows, however either is coded.
    fn differs(&self, name: BatchName, other: &Segment) -> bool
        ensures { result ≡ differs (map.get (rows_in self.now.segments) name) other.now.rows }
    {
        match self.get(name) {
            None => false,
            Some(held) => !held.same_rows(other),
        }
    }

    /// Whether the batch of this name has other rows here, or among some more batches if it isn't here, however it is coded.
    fn differs_in_either(&self, more: &Batches, name: BatchName, other: &Segment) -> bool
        ensures { result ≡ differs (map.get (union_of (rows_in self.now.segments) (rows_in more.now.segments)) name) other.now.rows }
    {
        match self.get(name) {
            None => more.differs(name, other),
            Some(found) => !found.same_rows(other),
        }
    }

    /// The first of the other batches, which come in two parts that follow each other, that has other rows here under its name.
    pub fn conflict_with(
        &self,
        first: &[(BatchName, Segment)],
        second: &[(BatchName, Segment)],
    ) -> Option<BatchName>
        requires { T (map.is_sorted name_cmp (first.now ++ second.now)) }
        ensures { result ≡ conflict_with (rows_in self.now.segments) (map.entries (rows_in (map.from_sorted (first.now ++ second.now)))) }
    {
        match first_conflict(self, first) {
            Some(name) => Some(name),
            None => first_conflict(self, second),
        }
    }

    /// Whether the union with the others, which come in two parts that follow each other, has more batches than this.
    pub fn union_exceeds(
        &self,
        first: &[(BatchName, Segment)],
        second: &[(BatchName, Segment)],
        limit: usize,
    ) -> bool
        requires { T (map.is_sorted name_cmp (first.now ++ second.now)) }
        ensures { result ≡ nat_lt limit (map.len (union_of (rows_in self.now.segments) (rows_in (map.from_sorted (first.now ++ second.now))))) }
    {
        let held = self.len();
        if held > limit {
            return true;
        }
        let room = limit - held;
        let lacked = count_lacked(&self.held, first);
        lacked > room || count_lacked(&self.held, second) > room - lacked
    }

    /// Adds copies of the other batches whose names aren't here, as they are coded there. The others come in two parts that follow
    /// each other, and `names` are the names of all of them. It takes as many steps as there are batches on both sides, and for
    /// each of the others a search among the runs of names.
    pub fn join(
        &mut self,
        alloc: Global,
        first: &[(BatchName, Segment)],
        second: &[(BatchName, Segment)],
        names: &Held,
    ) -> Result<(), AllocError>
        requires sorted { T (map.is_sorted name_cmp (first.now ++ second.now)) }
        requires names { names.now ≡ names_of (map.from_sorted (first.now ++ second.now)) }
        ensures own { self.new.own ≡ self.old.own }
        ensures ok { OnOk result (self.new.segments ≡ union_of self.old.segments (map.from_sorted (first.now ++ second.now))) }
        ensures err { OnErr result (self.new ≡ self.old) }
    {
        let fresh = copies_lacked(alloc, &self.held, first, second)?;
        self.put_fresh(alloc, fresh, names)
    }

    /// Adds the other batches whose names aren't here, as they are coded; none is copied. `names` are the names of all the others.
    pub fn absorb(
        &mut self,
        alloc: Global,
        mut others: Vec<(BatchName, Segment)>,
        names: &Held,
    ) -> Result<(), AllocError>
        requires sorted { T (map.is_sorted name_cmp others.items) }
        requires names { names.now ≡ names_of (map.from_sorted others.items) }
        ensures own { self.new.own ≡ self.old.own }
        ensures ok { OnOk result (self.new.segments ≡ union_of self.old.segments (map.from_sorted others.items)) }
        ensures err { OnErr result (self.new ≡ self.old) }
    {
        keep_lacked(&mut others, &self.held);
        self.put_fresh(alloc, others, names)
    }

    /// Adds those of some batches whose names aren't here, in ascending order. `names` are the names of all of these batches.
    fn put_fresh(
        &mut self,
        alloc: Global,
        fresh: Vec<(BatchName, Segment)>,
        names: &Held,
    ) -> Result<(), AllocError>
        requires { AreFresh self.old.segments fresh.items names.now }
        ensures own { self.new.own ≡ self.old.own }
        ensures ok { OnOk result ((others : List Entry) → AreLackedOf self.old.segments others fresh.items → self.new.segments ≡ union_of self.old.segments (map.from_sorted others)) }
        ensures err { OnErr result (self.new ≡ self.old) }
    {
        if fresh.is_empty() {
            return Ok(());
        }
        let (fresh_up_to, fresh_past) = parted(self.own, fresh)?;
        let room_up_to = room_for(alloc, &self.up_to, &fresh_up_to)?;
        let room_past = room_for(alloc, &self.past, &fresh_past)?;
        let held = self.held.joined(names)?;
        let up_to = mem::replace(&mut self.up_to, Vec::new(alloc));
        let past = mem::replace(&mut self.past, Vec::new(alloc));
        self.up_to = merged(up_to, fresh_up_to, room_up_to);
        self.past = merged(past, fresh_past, room_past);
        self.held = held;
        Ok(())
    }

    /// The batches, in ascending order of name, and the set of their names.
    pub fn into_entries(self) -> Result<(Vec<(BatchName, Segment)>, Held), AllocError>
        ensures entries { IfOk result (λ parts. parts.0.items ≡ map.entries self.segments) }
        ensures names { IfOk result (λ parts. parts.1 ≡ names_of self.segments) }
    {
        let Batches {
            up_to: mut entries,
            mut past,
            held,
            ..
        } = self;
        entries.append(&mut past)?;
        Ok((entries, held))
    }

    /// Adds a batch with a proper name that isn't there. One that is the last of its part moves no other.
    pub fn insert(&mut self, name: BatchName, segment: Segment) -> Result<(), AllocError>
        requires proper { IsTrue (is_proper_name name) }
        requires new { map.get self.old.segments name ≡ None }
        ensures own { self.new.own ≡ self.old.own }
        ensures ok { OnOk result (self.new.segments ≡ map.insert self.old.segments name segment) }
        ensures err { OnErr result (self.new ≡ self.old) }
    {
        if name.origin.0 <= self.own.0 {
            put_new(&mut self.up_to, &mut self.held, name, segment)
        } else {
            put_new(&mut self.past, &mut self.held, name, segment)
        }
    }

    /// Whether each batch has a row that isn't among the deleted ones.
    pub fn are_live(&self, deleted: &Tombs) -> bool
        ensures { result ≡ list_all (is_live_entry deleted.now) (map.entries self.now.segments) }
    {
        are_live(self.up_to.as_slice(), deleted) && are_live(self.past.as_slice(), deleted)
    }

    /// Drops the batches all of whose rows are among the deleted ones. It takes a search among these for each batch, twice, and
    /// memory for the names of the batches that stay.
    pub fn forget(&mut self, alloc: Global, deleted: &Tombs) -> Result<(), AllocError>
        requires proper { All HasProperName (map.entries self.old.segments) }
        ensures own { self.new.own ≡ self.old.own }
        ensures ok { OnOk result (self.new.segments ≡ live_segments deleted.now self.old.segments) }
        ensures err { OnErr result (self.new ≡ self.old) }
    {
        let mut held = Held::new(alloc);
        hold_live(&mut held, self.up_to.as_slice(), deleted)?;
        hold_live(&mut held, self.past.as_slice(), deleted)?;
        keep_live(&mut self.up_to, deleted);
        keep_live(&mut self.past, deleted);
        self.held = held;
        Ok(())
    }

    /// Puts a vector of a batch into another coding, if the vector is there; no row changes.
    pub fn recode(
        &mut self,
        alloc: Global,
        name: BatchName,
        column: u32,
        vector: u32,
        coding: Coding,
    ) -> Result<(), Refusal>
        ensures own { self.new.own ≡ self.old.own }
        ensures segments { Acts (λ done. done) self.old.segments result self.new.segments (recoded_in self.old.segments name column vector coding) }
        ensures rows { rows_in self.new.segments ≡ rows_in self.old.segments }
        ensures stored { (table : Table) → AreStored table self.old.segments → AreStored table self.new.segments }
    {
        if name.origin.0 <= self.own.0 {
            recode_found(
                alloc,
                self.up_to.as_mut_slice(),
                name,
                column,
                vector,
                coding,
            )
        } else {
            recode_found(
                alloc,
                self.past.as_mut_slice(),
                name,
                column,
                vector,
                coding,
            )
        }
    }
}

/// The batch at this place.
fn entry_at(entries: &[(BatchName, Segment)], index: usize) -> (BatchName, &Segment)
    requires { index < length entries.now }
    ensures { slice_get entries.now index ≡ Some (result.0, result.1.now) }
{
    let (name, segment) = &entries[index];
    (*name, segment)
}

/// The batches of origins up to this one, and those of greater origins, of batches in ascending order of name.
fn parted(
    own: Origin,
    mut entries: Vec<(BatchName, Segment)>,
) -> Result<(Vec<(BatchName, Segment)>, Vec<(BatchName, Segment)>), AllocError>
    requires { T (map.is_sorted name_cmp entries.items) }
    ensures whole { IfOk result (λ parts. parts.0.items ++ parts.1.items ≡ entries.items) }
    ensures parted { IfOk result (λ parts. AreParted own parts.0.items parts.1.items) }
{
    let at = place_past(entries.as_slice(), own);
    let past = entries.split_off(at)?;
    Ok((entries, past))
}

/// How many of the batches have origins up to this one.
fn place_past(entries: &[(BatchName, Segment)], own: Origin) -> usize
    requires { T (map.is_sorted name_cmp entries.now) }
    ensures bound { result ≤ length entries.now }
    ensures parted { AreParted own (take result entries.now) (drop result entries.now) }
{
    entries.partition_point(|entry| entry.0.origin.0 <= own.0)
}

/// Whether the batch has a row that isn't among the deleted ones. It takes one search among these.
fn is_live(entry: &(BatchName, Segment), deleted: &Tombs) -> bool
    ensures { result ≡ is_live_entry deleted.now entry.now }
{
    let (name, segment) = entry;
    !deleted.holds_batch(*name, segment.rows())
}

/// Whether each of the batches has a row that isn't among the deleted ones.
fn are_live(entries: &[(BatchName, Segment)], deleted: &Tombs) -> bool
    ensures { result ≡ list_all (is_live_entry deleted.now) entries.now }
{
    entries.iter().all(|entry| is_live(entry, deleted))
}

/// Drops the batches all of whose rows are among the deleted ones.
fn keep_live(entries: &mut Vec<(BatchName, Segment)>, deleted: &Tombs)
    ensures { entries.new.items ≡ live_entries deleted.now entries.old.items }
{
    entries.retain(|entry| is_live(entry, deleted));
}

/// Keeps the batches whose names aren't among these.
pub(crate) fn keep_lacked(batches: &mut Vec<(BatchName, Segment)>, names: &Held)
    ensures { batches.new.items ≡ lacked_by names.now batches.old.items }
{
    batches.retain(|batch| !names.holds(batch.0));
}

/// Adds the names of those of the batches that have a row that isn't among the deleted ones.
fn hold_live(
    held: &mut Held,
    entries: &[(BatchName, Segment)],
    deleted: &Tombs,
) -> Result<(), AllocError>
    requires { All HasProperName entries.now }
    ensures { OnOk result ((q : BatchName) → set.contains held.new q
        ≡ (set.contains held.old q || is_some (map.find name_cmp q (live_entries deleted.now entries.now)))) }
{
    for entry in entries {
        hold_if_live(held, entry, deleted)?;
    }
    Ok(())
}

/// Adds the name of the batch if it has a row that isn't among the deleted ones.
fn hold_if_live(
    held: &mut Held,
    entry: &(BatchName, Segment),
    deleted: &Tombs,
) -> Result<(), AllocError>
    requires { HasProperName entry.now }
    ensures { OnOk result (held.new ≡ cond (is_live_entry deleted.now entry.now) (set.insert held.old entry.now.0) held.old) }
{
    if is_live(entry, deleted) {
        held.insert(entry.0)?;
    }
    Ok(())
}

/// Room for the batches of both vectors.
fn room_for(
    alloc: Global,
    ours: &Vec<(BatchName, Segment)>,
    fresh: &Vec<(BatchName, Segment)>,
) -> Result<Vec<(BatchName, Segment)>, AllocError>
    ensures empty { IfOk result (λ room. room.items ≡ []) }
    ensures fits { IfOk result (λ room. vec_len ours.now + vec_len fresh.now ≤ vec_capacity room) }
{
    Vec::with_capacity(alloc, ours.len().saturating_add(fresh.len()))
}

/// Adds a batch with a proper name that isn't there, and its name to the names. If memory is refused both are as before.
fn put_new(
    entries: &mut Vec<(BatchName, Segment)>,
    held: &mut Held,
    name: BatchName,
    segment: Segment,
) -> Result<(), AllocError>
    requires sorted { T (map.is_sorted name_cmp entries.old.items) }
    requires proper { IsTrue (is_proper_name name) }
    ensures entries { OnOk result (entries.new.items ≡ insert entries.old.items (count_below name_cmp name entries.old.items) (name, segment)) }
    ensures names { OnOk result (held.new ≡ set.insert held.old name) }
    ensures same_entries { OnErr result (entries.new.items ≡ entries.old.items) }
    ensures same_names { OnErr result (held.new ≡ held.old) }
{
    entries.reserve(1)?;
    held.insert(name)?;
    let at = place(entries.as_slice(), name);
    entries.insert(at, (name, segment))?;
    Ok(())
}

/// Puts a vector of the batch of this name into another coding.
fn recode_found(
    alloc: Global,
    entries: &mut [(BatchName, Segment)],
    name: BatchName,
    column: u32,
    vector: u32,
    coding: Coding,
) -> Result<(), Refusal>
    requires { T (map.is_sorted name_cmp entries.old) }
    ensures acts { RecodesEntries entries.old entries.new result name column vector coding }
{
    let Some(at) = held_at(entries, name) else {
        return Err(Refusal::NoSuchVector);
    };
    entries[at].1.recode(alloc, column, vector, coding)
}

/// The place of the batch of this name.
fn held_at(entries: &[(BatchName, Segment)], name: BatchName) -> Option<usize>
    requires { T (map.is_sorted name_cmp entries.now) }
    ensures held { MatchOption result (map.find name_cmp name entries.now ≡ None) (λ at. HoldsAt entries.now name at) }
    ensures bound { IfSome result (λ at. at < length entries.now) }
{
    let at = place(entries, name);
    let (_, from_place) = entries.split_at(at);
    match from_place.split_first() {
        None => None,
        Some((first, _)) => {
            if name.cmp(&first.0).is_eq() {
                Some(at)
            } else {
                None
            }
        }
    }
}

/// How many of the batches have names below this one: the place at which it is, or to which it would go.
fn place(entries: &[(BatchName, Segment)], name: BatchName) -> usize
    requires { T (map.is_sorted name_cmp entries.now) }
    ensures { result ≡ count_below name_cmp name entries.now }
{
    entries.partition_point(|entry| entry.0 < name)
}

/// The greatest number of the origin: that of the last batch whose origin isn't greater, if it has this origin.
fn last_number(entries: &[(BatchName, Segment)], own: Origin) -> u32
    requires { T (map.is_sorted name_cmp entries.now) }
    ensures { result ≡ greatest_number own entries.now }
{
    let (up_to, _) = entries.split_at(entries.partition_point(|entry| entry.0.origin.0 <= own.0));
    match up_to.split_last() {
        None => 0,
        Some((last, _)) => {
            if last.0.origin.0 == own.0 {
                last.0.number.0
            } else {
                0
            }
        }
    }
}

/// The first of these batches that has other rows among ours.
fn first_conflict(ours: &Batches, theirs: &[(BatchName, Segment)]) -> Option<BatchName>
    ensures { result ≡ conflict_in (rows_in ours.now.segments) theirs.now }
{
    for (name, segment) in theirs {
        if ours.differs(*name, segment) {
            return Some(*name);
        }
    }
    None
}

/// The first of these batches that has other rows in one of two stores.
pub(crate) fn conflict_in_either(
    ours: &Batches,
    more: &Batches,
    theirs: &[(BatchName, Segment)],
) -> Option<BatchName>
    ensures { result ≡ conflict_in (union_of (rows_in ours.now.segments) (rows_in more.now.segments)) theirs.now }
{
    for (name, segment) in theirs {
        if ours.differs_in_either(more, *name, segment) {
            return Some(*name);
        }
    }
    None
}

/// The names of batches that are in ascending order, as a set of their own. Each of them extends the last run or begins the next.
pub(crate) fn names_held(
    alloc: Global,
    batches: &[(BatchName, Segment)],
) -> Result<Held, AllocError>
    requires sorted { T (map.is_sorted name_cmp batches.now) }
    requires proper { All HasProperName batches.now }
    ensures { IfOk result (λ names. names ≡ names_of (map.from_sorted batches.now)) }
{
    let mut names = Held::new(alloc);
    for (name, _) in batches {
        names.insert(*name)?;
    }
    Ok(names)
}

/// How many of these batches have names that aren't among these.
fn count_lacked(names: &Held, batches: &[(BatchName, Segment)]) -> usize
    ensures { result ≡ length (lacked_by names.now batches.now) }
{
    let mut count = 0;
    for (name, _) in batches {
        if !names.holds(*name) {
            count += 1;
        }
    }
    count
}

/// Whether the name is among these or among some more.
fn holds_either(names: &Held, more: &Held, name: BatchName) -> bool
    ensures { result ≡ set.contains (set.union names.now more.now) name }
{
    names.holds(name) || more.holds(name)
}

/// How many of these batches have names that aren't among these, nor among some more.
pub(crate) fn count_new(names: &Held, more: &Held, batches: &[(BatchName, Segment)]) -> usize
    ensures { result ≡ length (lacked_by (set.union names.now more.now) batches.now) }
{
    let mut count = 0;
    for (name, _) in batches {
        if !holds_either(names, more, *name) {
            count += 1;
        }
    }
    count
}

/// Copies of the batches of both parts whose names aren't among these, in their order.
pub(crate) fn copies_lacked(
    alloc: Global,
    names: &Held,
    first: &[(BatchName, Segment)],
    second: &[(BatchName, Segment)],
) -> Result<Vec<(BatchName, Segment)>, AllocError>
    ensures { IfOk result (λ copies. copies.items ≡ lacked_by names.now (first.now ++ second.now)) }
{
    let mut copies = Vec::new(alloc);
    push_all_lacked(alloc, names, first, &mut copies)?;
    push_all_lacked(alloc, names, second, &mut copies)?;
    Ok(copies)
}

/// Puts copies of the batches whose names aren't among these at the end, in their order.
fn push_all_lacked(
    alloc: Global,
    names: &Held,
    batches: &[(BatchName, Segment)],
    copies: &mut Vec<(BatchName, Segment)>,
) -> Result<(), AllocError>
    ensures { OnOk result (copies.new.items ≡ copies.old.items ++ lacked_by names.now batches.now) }
{
    for (name, segment) in batches {
        push_lacked(alloc, names, *name, segment, copies)?;
    }
    Ok(())
}

/// Puts a copy of the batch at the end, unless its name is among these.
fn push_lacked(
    alloc: Global,
    names: &Held,
    name: BatchName,
    segment: &Segment,
    copies: &mut Vec<(BatchName, Segment)>,
) -> Result<(), AllocError>
    ensures { OnOk result (copies.new.items ≡ copies.old.items ++ lacked_by names.now ((name, segment.now) ∷ [])) }
{
    if !names.holds(name) {
        copies.push((name, segment.copy(alloc)?))?;
    }
    Ok(())
}

/// The batches of both vectors, which are in order, as one in order. There is room for them.
fn merged(
    mut ours: Vec<(BatchName, Segment)>,
    mut fresh: Vec<(BatchName, Segment)>,
    mut room: Vec<(BatchName, Segment)>,
) -> Vec<(BatchName, Segment)>
    requires empty { room.items ≡ [] }
    requires fits { vec_len ours + vec_len fresh ≤ vec_capacity room }
    ensures { result.items ≡ merge name_cmp ours.items fresh.items }
{
    ours.reverse();
    fresh.reverse();
    while let Some(next) = pop_lesser(&mut ours, &mut fresh) {
        room.push_reserved(next);
    }
    room
}

/// Takes the lesser of the last batches of both vectors.
fn pop_lesser(
    ours: &mut Vec<(BatchName, Segment)>,
    fresh: &mut Vec<(BatchName, Segment)>,
) -> Option<(BatchName, Segment)>
    ensures rest { merge name_cmp (reverse ours.old.items) (reverse fresh.old.items) ≡ option_to_list result ++ merge name_cmp (reverse ours.new.items) (reverse fresh.new.items) }
    ensures fewer { length (option_to_list result) + (vec_len ours.new + vec_len fresh.new) ≡ vec_len ours.old + vec_len fresh.old }
    ensures last { IsNone result → vec_len ours.old + vec_len fresh.old ≡ 0 }
{
    if takes_first(ours.as_slice(), fresh.as_slice()) {
        ours.pop()
    } else {
        fresh.pop()
    }
}

/// Whether the last of our batches is the next one.
fn takes_first(ours: &[(BatchName, Segment)], fresh: &[(BatchName, Segment)]) -> bool
    ensures { result ≡ takes_first name_cmp (reverse ours.now) (reverse fresh.now) }
{
    match (ours.split_last(), fresh.split_last()) {
        (None, _) => false,
        (Some(_), None) => true,
        (Some((our_last, _)), Some((fresh_last, _))) => our_last.0.cmp(&fresh_last.0).is_lt(),
    }
}

/// The segment of the batch of this name.
fn found(entries: &[(BatchName, Segment)], name: BatchName) -> Option<&Segment>
    requires { T (map.is_sorted name_cmp entries.now) }
    ensures { option_copied result ≡ map.find name_cmp name entries.now }
{
    let (_, from_place) = entries.split_at(place(entries, name));
    match from_place.split_first() {
        None => None,
        Some((first, _)) => {
            if name.cmp(&first.0).is_eq() {
                Some(&first.1)
            } else {
                None
            }
        }
    }
}
