//! A partial answer, with the names of the batches that it counted: partial answers are combined in any order, and then finished.
ghost use Rattle.std.specs.Prelude.{◌≡◌, Ok, IfOk, IfErr};
ghost use Rattle.std.specs.String.{string_bytes};
ghost use Rattle.table_model.specs.Query.{QueryShape};
ghost use Rattle.query_parser.specs.Descent.{query_of};
ghost use Rattle.partial_answers.specs.Between.{IsFirstBetween};
ghost use Rattle.partial_answers.specs.Combining.{AreCombined, IsRefused, counted_in};
ghost use Rattle.partial_answers.specs.Groups.{partial_answer_in};
ghost use Rattle.partial_answers.specs.PartialAnswer.{finish};
ghost use Rattle.partial_answers.specs.Shape.{IsQueryOf, IsShaped, RefusesFinishing};

use crate::apart::{first_shared, lesser_name};
use crate::fault::PartialAnswerFault;
use crate::finishing::{finish_groups, text_query};
use crate::groups::combined_groups;
use crate::kept::Kept;
use catalogue_join::Held;
use query_eval::Key;
use std::alloc::Global;
use std::collections::BTreeMap;
use table_model::{Answer, BatchName, Schema, same_text};

/// A partial answer: what some batches of a table give to the answer of a query, before HAVING.
///
/// It has the table's schema, the query's text, the names of the batches that it counted, the names of batches of which the file
/// deletes rows without holding them, and the groups, with what is kept of each for each measure of the query.
#[derive(Drop)]
pub struct PartialAnswer {
    schema: Schema,
    text: String,
    held: Held,
    strays: Held,
    groups: BTreeMap<Key, Vec<Kept>>,
}

impl PartialAnswer {
    /// The partial answer that is made of these. It takes no memory.
    pub fn new(
        schema: Schema,
        text: String,
        held: Held,
        strays: Held,
        groups: BTreeMap<Key, Vec<Kept>>,
    ) -> PartialAnswer
        ensures schema { result.schema ≡ schema }
        ensures text { result.text ≡ text }
        ensures held { result.held ≡ held }
        ensures strays { result.strays ≡ strays }
        ensures groups { result.groups ≡ groups }
    {
        PartialAnswer {
            schema,
            text,
            held,
            strays,
            groups,
        }
    }

    /// The table's schema.
    pub fn schema(&self) -> &Schema
        ensures { result.now ≡ self.now.schema }
    {
        &self.schema
    }

    /// The query's text.
    pub fn text(&self) -> &str
        ensures { result.now ≡ string_bytes self.now.text }
    {
        self.text.as_str()
    }

    /// The names of the batches that were counted.
    pub fn held(&self) -> &Held
        ensures { result.now ≡ self.now.held }
    {
        &self.held
    }

    /// The names of batches that were not counted and of which rows are deleted.
    pub fn strays(&self) -> &Held
        ensures { result.now ≡ self.now.strays }
    {
        &self.strays
    }

    /// The groups by their keys, with what is kept of each.
    pub fn groups(&self) -> &BTreeMap<Key, Vec<Kept>>
        ensures { result.now ≡ self.now.groups }
    {
        &self.groups
    }

    /// The least batch that both partial answers counted, or that one counted and the other deletes rows of.
    fn between(&self, other: &PartialAnswer) -> Option<BatchName>
        ensures { IsFirstBetween (counted_in self.now) (counted_in other.now) result }
    {
        let held = first_shared(&self.held, &other.held);
        let first = first_shared(&self.strays, &other.held);
        let second = first_shared(&other.strays, &self.held);
        lesser_name(held, lesser_name(first, second))
    }

    /// Two partial answers of the same query, combined: the partial answer of both files' rows.
    ///
    /// The refusals are, in this order: `SchemaDiffers`; `QueryDiffers` if the texts differ; `NotApart` with the least batch that
    /// was counted in both partial answers, or of which one counted rows that the other's file deletes; `QueryDiffers` if the
    /// partial answers keep different things of a group, which partial answers of one query do not; `TooMany` if a count leaves 64
    /// bits or a sum 128. `Memory` can come in place of the last two.
    pub fn combined(
        self,
        alloc: Global,
        other: PartialAnswer,
    ) -> Result<PartialAnswer, PartialAnswerFault>
        ensures combined { IfOk result (λ both. AreCombined self other both) }
        ensures refused { IfErr result (λ e. IsRefused e self other) }
    {
        if !self.schema.same(&other.schema) {
            return Err(PartialAnswerFault::SchemaDiffers);
        }
        if !same_text(self.text.as_bytes(), other.text.as_bytes()) {
            return Err(PartialAnswerFault::QueryDiffers);
        }
        if let Some(name) = self.between(&other) {
            return Err(PartialAnswerFault::NotApart(name));
        }
        let held = self.held.joined(&other.held)?;
        let strays = self.strays.joined(&other.strays)?;
        let groups = combined_groups(alloc, self.groups, other.groups)?;
        Ok(PartialAnswer {
            schema: self.schema,
            text: self.text,
            held,
            strays,
            groups,
        })
    }

    /// The answer of a partial answer to its query: here AVG is divided, and then HAVING is applied.
    ///
    /// The refusals are, in this order: `Query` with what [`parse`](query_parser::parse) and then
    /// [`resolve`](query_parser::resolve) say of the text; `QueryDiffers` if there is no group without GROUP BY; and then, group by
    /// group in the order of their keys, `QueryDiffers` if a group's key has not one cell for each column of GROUP BY, or if other
    /// things are kept of it than the query's set functions need, and `TooMany` if a mean leaves 128 bits, which takes a greater
    /// sum than that of as many numbers of 64 bits, or if a set function under DISTINCT goes over more than 2^36 values. `Memory`
    /// can come in place of each.
    pub fn finish(self, alloc: Global) -> Result<Answer, PartialAnswerFault>
        ensures answer { IfOk result (λ answer. (query : QueryShape) → query_of (string_bytes self.text) ≡ Ok query → answer ≡ finish self.schema query (partial_answer_in self.groups)) }
        ensures asked { IfOk result (λ _. IsQueryOf self.schema (string_bytes self.text)) }
        ensures shaped { IfOk result (λ _. IsShaped self) }
        ensures refused { IfErr result (λ e. RefusesFinishing e self) }
    {
        let PartialAnswer {
            schema,
            text,
            groups,
            ..
        } = self;
        let query = text_query(alloc, &schema, text.as_str())?;
        let answer = finish_groups(alloc, &schema, &query, groups)?;
        Ok(answer)
    }
}
