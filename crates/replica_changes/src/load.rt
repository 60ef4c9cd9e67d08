//! Loads: coded batches that wait for their names.
ghost use Rattle.std.specs.Prelude.{◌≡◌, ◌⊎◌, ◌+◌, ◌<◌, ◌≤◌, length, Ok, Err, IfErr, IfOk, OnOk};
ghost use Rattle.catalogue_join.specs.Run.{name_at};
ghost use Rattle.table_model.specs.Outcome.{Acts, Gives};
ghost use Rattle.table_model.specs.declared.refusal.Refusal.TheVariants.{Memory};
ghost use Rattle.segment_core.specs.Arrays.{HaveRows, array_rows};
ghost use Rattle.replica_store.specs.Exchange.{AreOffered};
ghost use Rattle.replica_store.specs.Replica.{batch_limit};
ghost use Rattle.replica_store.specs.Forgets.{row_count};
ghost use Rattle.replica_changes.specs.Loads.{added_batch, empty_load, batches_in, deleted_among, named_batches, named_entries, first_name};

use catalogue_join::Tombs;
use replica_reports::live_count;
use replica_store::MAX_BATCHES;
use segment_core::{CellArray, Segment, are_batch, rows_of_arrays};
use std::alloc::{AllocError, Global};
use std::marker::Model;
use table_model::{BatchName, Number, Refusal, Rows, Schema, check_rows};

/// Batches of a table's rows, coded, that wait for their names. Contracts see the schema and the rows of each batch.
#[derive(Drop)]
pub struct Load {
    schema: Schema,
    segments: Vec<Segment>,
}

impl Model for Load {
    ghost use Rattle.replica_changes.specs.Loads.{LoadForm, coded_load, IsLoad, batches_in};

    ghost Value = { LoadForm };

    ghost coded = { coded_load };

    ghost view = { λ l. record { schema = l.schema; batches = batches_in l.segments.items } };

    ghost invariant = { λ l. IsLoad l.schema l.segments.items };
}

impl Load {
    /// A load without batches. `Memory` is answered if there is no memory for the schema.
    pub fn new(alloc: Global, schema: &Schema) -> Result<Load, Refusal>
        ensures { Gives (λ load. load) result (Ok (empty_load schema.now)) }
    {
        let schema = schema.copy(alloc)?;
        Ok(Load {
            schema,
            segments: Vec::new(alloc),
        })
    }

    /// Codes rows as one more batch.
    ///
    /// Refused are, in this order, the faults of [`check_rows`], `Full` if there are 1,048,576 batches, and `Memory`. A refused
    /// call leaves the load as it was.
    pub fn add_batch(&mut self, alloc: Global, rows: &Rows) -> Result<(), Refusal>
        ensures { Acts (λ done. done) self.old result self.new (added_batch self.old rows.now) }
    {
        check_rows(&self.schema, rows)?;
        if self.segments.len() >= MAX_BATCHES {
            return Err(Refusal::Full);
        }
        let segment = Segment::build(alloc, &self.schema, rows)?;
        self.segments.push(segment)?;
        Ok(())
    }

    /// Codes columns that are given as arrays of as many rows as one more batch. No rows are made if each number, also that of a null, is a
    /// value of its column's type.
    ///
    /// Refused are `Memory`, and what [`Load::add_batch`] refuses of their rows. A refused call leaves the load as it was.
    pub fn add_arrays(
        &mut self,
        alloc: Global,
        rows: usize,
        arrays: &[CellArray],
    ) -> Result<(), Refusal>
        requires { HaveRows rows arrays.now }
        ensures added { OnOk result (added_batch self.old (array_rows rows arrays.now) ≡ Ok (tt, self.new)) }
        ensures kept { IfErr result (λ _. self.new ≡ self.old) }
        ensures refused { IfErr result (λ e. (e ≡ Memory) ⊎ (added_batch self.old (array_rows rows arrays.now) ≡ Err e)) }
    {
        if !are_batch(&self.schema, rows, arrays) {
            let made = rows_of_arrays(alloc, rows, arrays)?;
            return self.add_batch(alloc, &made);
        }
        if self.segments.len() >= MAX_BATCHES {
            return Err(Refusal::Full);
        }
        let segment = Segment::build_of_arrays(alloc, &self.schema, rows, arrays)?;
        self.segments.push(segment)?;
        Ok(())
    }

    /// The table's schema.
    pub fn schema(&self) -> &Schema
        ensures { result.now ≡ self.now.schema }
    {
        &self.schema
    }

    /// How many batches there are, at most 1,048,576.
    pub fn batches(&self) -> usize
        ensures value { result ≡ length self.now.batches }
        ensures limit { result ≤ batch_limit }
    {
        self.segments.len()
    }

    /// How many rows all batches have.
    pub fn rows(&self) -> u64
        ensures { result ≡ row_count self.now.batches }
    {
        count_rows(self.segments.as_slice())
    }

    /// How many of the rows are deleted if the batches come under consecutive names from a first one on.
    pub(crate) fn deleted_by(&self, tombs: &Tombs, first: BatchName) -> u64
        requires { first_name first (length self.now.batches) ≡ Ok first }
        ensures { result ≡ deleted_among tombs.now (named_batches first self.now.batches) }
    {
        if self.segments.as_slice().is_empty() {
            return 0;
        }
        count_deleted(self.segments.as_slice(), tombs, first)
    }

    /// The batches under consecutive names from a first one on.
    pub(crate) fn into_entries(
        self,
        alloc: Global,
        first: BatchName,
    ) -> Result<(Schema, Vec<(BatchName, Segment)>), AllocError>
        requires { first_name first (length self.batches) ≡ Ok first }
        ensures schema { IfOk result (λ parts. parts.0 ≡ self.schema) }
        ensures offered { IfOk result (λ parts. AreOffered self.schema parts.1.items) }
        ensures named { IfOk result (λ parts. named_entries parts.1.items ≡ named_batches first self.batches) }
    {
        let Load { schema, segments } = self;
        if segments.as_slice().is_empty() {
            return Ok((schema, Vec::new(alloc)));
        }
        let entries = name_all(alloc, segments, first)?;
        Ok((schema, entries))
    }
}

/// How many rows segments have.
fn count_rows(segments: &[Segment]) -> u64
    requires { length segments.now ≤ batch_limit }
    ensures { result ≡ row_count (batches_in segments.now) }
{
    let mut count: u64 = 0;
    for index in 0..segments.len() {
        count += segments[index].rows() as u64;
    }
    count
}

/// How many rows of segments are deleted if these come under consecutive names from a first one on.
fn count_deleted(segments: &[Segment], tombs: &Tombs, first: BatchName) -> u64
    requires limit { length segments.now ≤ batch_limit }
    requires names { first.number.0 + length segments.now ≤ 4294967296 }
    ensures { result ≡ deleted_among tombs.now (named_batches first (batches_in segments.now)) }
{
    let mut count: u64 = 0;
    for index in 0..segments.len() {
        let rows = segments[index].rows();
        let live = live_count(tombs, name_after(first, index), rows);
        count += (rows - live) as u64;
    }
    count
}

/// Segments under consecutive names from a first one on.
fn name_all(
    alloc: Global,
    mut segments: Vec<Segment>,
    first: BatchName,
) -> Result<Vec<(BatchName, Segment)>, AllocError>
    requires { first.number.0 + length segments.items ≤ 4294967296 }
    ensures { IfOk result (λ entries. entries.items ≡ named_batches first segments.items) }
{
    let mut entries = Vec::with_capacity(alloc, segments.len())?;
    segments.reverse();
    while let Some(segment) = segments.pop() {
        let name = name_after(first, entries.len());
        entries.push((name, segment))?;
    }
    Ok(entries)
}

/// The name that comes a number of names after a first one.
fn name_after(first: BatchName, count: usize) -> BatchName
    requires { first.number.0 + count < 4294967296 }
    ensures { result ≡ name_at first.origin (first.number.0 + count) }
{
    BatchName {
        origin: first.origin,
        number: Number(first.number.0 + count as u32),
    }
}
