//! Groups as HAVING and the select list see them.
ghost use Rattle.std.specs.Prelude.{◌≡◌};

use crate::grouping::{Cell, Key};
use std::marker::Model;
use table_model::Field;

/// A group when it is finished: its key, and a field for each aggregate that its query asks for.
#[derive(Drop)]
pub struct FinishedGroup {
    key: Key,
    fields: Vec<Field>,
}

impl Model for FinishedGroup {
    ghost use Rattle.query_eval.specs.Finished.{GroupFields};

    ghost Value = { GroupFields };

    ghost view = { λ g. record { key = g.key; fields = g.fields.items } };
}

impl FinishedGroup {
    /// The group of this key with these fields. It takes no memory.
    pub fn new(key: Key, fields: Vec<Field>) -> FinishedGroup
        ensures key { result.key ≡ key }
        ensures fields { result.fields ≡ fields.items }
    {
        FinishedGroup { key, fields }
    }

    /// The cells of the key, from the left.
    pub fn cells(&self) -> &[Cell]
        ensures { result.now ≡ self.now.key }
    {
        self.key.cells()
    }

    /// The fields, an aggregate each.
    pub fn fields(&self) -> &[Field]
        ensures { result.now ≡ self.now.fields }
    {
        self.fields.as_slice()
    }
}
