//! Offers: batches and deletions of a replica, for another that does not have them.
ghost use Rattle.std.specs.Prelude.{◌≡◌, ◌<◌, ◌≤◌, length, slice_get, Some, IsTrue, IfOk};
ghost use Rattle.std.specs.FinMap as map;
ghost use Rattle.table_model.specs.Name.{is_proper_name};
ghost use Rattle.table_model.specs.Outcome.{Gives};
ghost use Rattle.table_model.specs.Table.{IsBatch};
ghost use Rattle.segment_core.specs.Segment.{widths_in, widths_of};
ghost use Rattle.segment_core.specs.SegmentBytes.{HasBytesIn};
ghost use Rattle.replica_store.specs.Replica.{IsWithinLimits, batch_limit};
ghost use Rattle.replica_store.specs.Segments.{rows_in};
ghost use Rattle.replica_store.specs.Exchange.{AreOffered, opened};

use crate::batches::Batches;
use crate::store::Store;
use catalogue_join::Tombs;
use segment_core::Segment;
use std::alloc::Global;
use std::marker::Model;
use table_model::{BatchName, Origin, Refusal, Schema};

/// Batches of a table, as segments with their codings, and deleted rows, which a replica offers to another. Contracts see the
/// schema, the state that they are, and in addition the segments.
#[derive(Drop)]
pub struct Offer {
    schema: Schema,
    entries: Vec<(BatchName, Segment)>,
    tombs: Tombs,
}

impl Model for Offer {
    ghost use Rattle.std.specs.FinMap as map;
    ghost use Rattle.replica_store.specs.Segments.{rows_in};
    ghost use Rattle.replica_store.specs.Exchange.{OfferForm, coded_offer, AreOffered};

    ghost Value = { OfferForm };

    ghost coded = { coded_offer };

    ghost view = { λ o. record { schema = o.schema; state = record { batches = rows_in (map.from_sorted o.entries.items); deleted = o.tombs }; segments = map.from_sorted o.entries.items } };

    ghost invariant = { λ o. AreOffered o.schema o.entries.items };
}

impl Offer {
    /// The offer of these batches, at most 1,048,576 in ascending order of name, and these deleted rows. It takes no memory.
    pub fn from_parts(schema: Schema, entries: Vec<(BatchName, Segment)>, tombs: Tombs) -> Offer
        requires { AreOffered schema entries.items }
        ensures schema { result.schema ≡ schema }
        ensures batches { result.state.batches ≡ rows_in result.segments }
        ensures deleted { result.state.deleted ≡ tombs }
        ensures entries { map.entries result.segments ≡ entries.items }
    {
        Offer {
            schema,
            entries,
            tombs,
        }
    }

    /// The store of an own origin that has exactly the batches and deletions of the offer.
    ///
    /// `BadName` is answered if the origin is 0; otherwise `Memory`, if there is no memory for the set of names.
    pub fn into_store(self, alloc: Global, own: Origin) -> Result<Store, Refusal>
        ensures value { Gives (λ store. store.replica) result (opened own self) }
        ensures segments { IfOk result (λ store. store.segments ≡ self.segments) }
    {
        if own.0 == 0 {
            return Err(Refusal::BadName);
        }
        let Offer {
            schema,
            entries,
            tombs,
        } = self;
        let batches = Batches::from_entries(alloc, own, entries)?;
        Ok(Store::from_parts(schema, own, batches, tombs))
    }

    /// The batches, in ascending order of name, and the deleted rows, as they are kept. It takes no memory.
    pub(crate) fn into_parts(self) -> (Vec<(BatchName, Segment)>, Tombs)
        ensures value { result.0.items ≡ map.entries self.segments }
        ensures rows { self.state.batches ≡ rows_in self.segments }
        ensures offered { AreOffered self.schema result.0.items }
        ensures tombs { result.1 ≡ self.state.deleted }
    {
        (self.entries, self.tombs)
    }

    /// The table's schema.
    pub fn schema(&self) -> &Schema
        ensures { result.now ≡ self.now.schema }
    {
        &self.schema
    }

    /// How many batches there are.
    pub fn batches(&self) -> usize
        ensures value { result ≡ map.len self.now.state.batches }
        ensures limit { result ≤ batch_limit }
        ensures within { IsWithinLimits self.now.schema self.now.state.batches }
    {
        self.entries.len()
    }

    /// The batch at this place, in ascending order of name and from 0.
    pub fn batch(&self, index: usize) -> (BatchName, &Segment)
        requires { index < map.len self.now.state.batches }
        ensures value { slice_get (map.entries self.now.state.batches) index ≡ Some (result.0, result.1.now.rows) }
        ensures segment { slice_get (map.entries self.now.segments) index ≡ Some (result.0, result.1.now) }
        ensures proper { IsTrue (is_proper_name result.0) }
        ensures fits { IsBatch self.now.schema result.1.now.rows }
        ensures widths { widths_in result.1.now.forms ≡ widths_of self.now.schema }
        ensures valid { HasBytesIn self.now.schema result.1.now }
    {
        let (name, segment) = &self.entries()[index];
        segment.keeps_its_vectors();
        (*name, segment)
    }

    /// All batches, in ascending order of name.
    pub fn entries(&self) -> &[(BatchName, Segment)]
        ensures value { result.now ≡ map.entries self.now.segments }
        ensures rows { self.now.state.batches ≡ rows_in self.now.segments }
        ensures offered { AreOffered self.now.schema result.now }
    {
        self.entries.as_slice()
    }

    /// The deleted rows, held here or not.
    pub fn tombs(&self) -> &Tombs
        ensures { result.now ≡ self.now.state.deleted }
    {
        &self.tombs
    }
}
