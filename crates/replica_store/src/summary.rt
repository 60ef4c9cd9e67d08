//! Summaries: which batches a replica has.
ghost use Rattle.std.specs.Prelude.{◌≡◌, Ok};
ghost use Rattle.table_model.specs.Outcome.{Gives};
ghost use Rattle.replica_store.specs.Exchange.{AreListable, empty_summary};

use catalogue_join::Held;
use std::alloc::Global;
use std::marker::Model;
use table_model::{Refusal, Schema};

/// The names of the batches that a replica of a table has, at most 1,048,576, from which another replica sees what to offer.
/// Contracts see the schema and the set of the names.
#[derive(Drop)]
pub struct Summary {
    schema: Schema,
    names: Held,
}

impl Model for Summary {
    ghost use Rattle.replica_store.specs.Exchange.{SummaryForm, coded_summary, AreListable};

    ghost Value = { SummaryForm };

    ghost coded = { coded_summary };

    ghost view = { λ s. record { schema = s.schema; names = s.names } };

    ghost invariant = { λ s. AreListable s.names };
}

impl Summary {
    /// The summary of a table without names. `Memory` is answered if there is no memory for the schema.
    pub fn empty(alloc: Global, schema: &Schema) -> Result<Summary, Refusal>
        ensures { Gives (λ summary. summary) result (Ok (empty_summary schema.now)) }
    {
        let schema = schema.copy(alloc)?;
        Ok(Summary {
            schema,
            names: Held::new(alloc),
        })
    }

    /// The summary of a table with these names, at most 1,048,576, all of them proper. It takes no memory.
    pub fn from_parts(schema: Schema, names: Held) -> Summary
        requires { AreListable names }
        ensures { result ≡ record { schema = schema; names = names } }
    {
        Summary { schema, names }
    }

    /// The table's schema.
    pub fn schema(&self) -> &Schema
        ensures { result.now ≡ self.now.schema }
    {
        &self.schema
    }

    /// The names, at most 1,048,576, all of them proper.
    pub fn names(&self) -> &Held
        ensures value { result.now ≡ self.now.names }
        ensures listable { AreListable result.now }
    {
        &self.names
    }
}
