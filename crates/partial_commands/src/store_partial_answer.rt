//! What a store gives to the answer of a query.
ghost use Rattle.std.specs.Prelude.{◌≡◌, IsTrue, Ok, IfOk, IfErr};
ghost use Rattle.table_model.specs.Query.{QueryShape};
ghost use Rattle.table_model.specs.Reading.{Reads};
ghost use Rattle.table_model.specs.declared.refusal.Refusal.TheVariants.{Memory};
ghost use Rattle.query_parser.specs.Descent.{query_of};
ghost use Rattle.partial_answers.specs.Groups.{partial_answer_in};
ghost use Rattle.partial_answers.specs.Shape.{HaveShape, IsShaped};
ghost use Rattle.store_view.specs.Asked.{is_refusal_of_query};
ghost use Rattle.partial_commands.specs.StorePartialAnswer.{meaning_of, meaning_with, query_partial_answer};

use crate::strays::stray_names;
use partial_answers::{Kept, PartialAnswer, partial_answer_groups};
use query_eval::{HashKey, Key};
use query_parser::{parse, resolve};
use replica_store::Store;
use std::alloc::Global;
use std::collections::BTreeMap;
use store_view::StoreView;
use table_model::Refusal;

/// The partial answer of a store that has these groups: with the store's schema, the query's text, and the names of the store's
/// batches and of its stray deletions.
fn partial_answer_with(
    alloc: Global,
    store: &Store,
    sql: &str,
    groups: BTreeMap<Key, Vec<Kept>>,
) -> Result<PartialAnswer, Refusal>
    ensures made { IfOk result (λ partial. meaning_of partial ≡ meaning_with store.now.replica.schema sql.now (partial_answer_in groups) store.now.replica.state) }
    ensures shape { ((query : QueryShape) → query_of sql.now ≡ Ok query → HaveShape store.now.replica.schema query groups) → IfOk result IsShaped }
    ensures refused { IfErr result (λ e. e ≡ Memory) }
{
    let summary = store.summary(alloc)?;
    let held = summary.names().copy(alloc)?;
    let strays = stray_names(alloc, store.tombs(), &held)?;
    let schema = store.schema().copy(alloc)?;
    let text = String::from_str(alloc, sql)?;
    Ok(PartialAnswer::new(schema, text, held, strays, groups))
}

/// What a store gives to the answer of a query, given as a text: the partial answer of its rows that aren't deleted. Groups are found
/// by hashes of a key.
///
/// The refusals are those of the query, with the same place: `Syntax`, `NumberTooLarge` and `TooDeep`, the one whose token comes
/// first; `NoSuchTable`; `NoSuchColumn`; `NotGrouped`; `Memory`. The text is read as it is taken apart, so `Memory` can come in
/// place of any of them.
pub fn partial_answer_of_store(
    alloc: Global,
    store: &Store,
    hash_key: HashKey,
    sql: &str,
) -> Result<PartialAnswer, Refusal>
    ensures read { Reads meaning_of result (query_partial_answer sql.now store.now.replica.schema store.now.replica.state) }
    ensures shape { IfOk result IsShaped }
    ensures refused { IfErr result (λ e. IsTrue (is_refusal_of_query e)) }
{
    let query = parse(alloc, sql)?;
    resolve(&query, store.schema())?;
    let mut view = StoreView::with_hash_key(store, hash_key);
    let groups = partial_answer_groups(alloc, &mut view, &query)?;
    partial_answer_with(alloc, store, sql, groups)
}
