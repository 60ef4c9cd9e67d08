//! Asking a store a query.
ghost use Rattle.std.specs.Prelude.{◌≡◌, IsTrue, IfOk, IfErr};
ghost use Rattle.std.specs.List.{All};
ghost use Rattle.table_model.specs.Name.{is_proper_name};
ghost use Rattle.table_model.specs.declared.names.RowName.{RowName};
ghost use Rattle.table_model.specs.Reading.{Reads};
ghost use Rattle.store_view.specs.Asked.{query_answer, is_refusal_of_query, condition_names, is_refusal_of_condition};

use crate::view::StoreView;
use query_eval::{HashKey, answer, matching};
use query_parser::{parse, parse_condition, resolve, resolve_condition};
use replica_store::Store;
use std::alloc::Global;
use table_model::{Answer, Refusal, RowName};

/// The answer to a query, given as a text, over the rows of a store that aren't deleted. Groups are found by hashes of a key.
///
/// The refusals are, in this order: `Syntax`, `NumberTooLarge` and `TooDeep`, the one whose token comes first; `NoSuchTable`;
/// `NoSuchColumn`; `NotGrouped`; `Memory`. The text is read as it is taken apart, so `Memory` may come in place of any.
pub fn ask(alloc: Global, store: &Store, hash_key: HashKey, text: &str) -> Result<Answer, Refusal>
    ensures read { Reads (λ answer. answer) result (query_answer text.now store.now.replica.schema store.now.replica.state) }
    ensures refused { IfErr result (λ e. IsTrue (is_refusal_of_query e)) }
{
    let query = parse(alloc, text)?;
    resolve(&query, store.schema())?;
    let answer = answer(
        alloc,
        &mut StoreView::with_hash_key(store, hash_key),
        &query,
    )?;
    Ok(answer)
}

/// The names of a store's rows that aren't deleted and at which a condition, given as a text, is true, in ascending order.
///
/// The refusals are, in this order: `Syntax`, `NumberTooLarge` and `TooDeep`, the one whose token comes first; `NoSuchColumn`;
/// `Memory`. The text is read as it is taken apart, so `Memory` may come in place of any.
pub fn names_where(alloc: Global, store: &Store, text: &str) -> Result<Vec<RowName>, Refusal>
    ensures read { Reads (λ names. names.items) result (condition_names text.now store.now.replica.schema store.now.replica.state) }
    ensures proper { IfOk result (λ names. All (λ (row : RowName). IsTrue (is_proper_name row.batch)) names.items) }
    ensures refused { IfErr result (λ e. IsTrue (is_refusal_of_condition e)) }
{
    let condition = parse_condition(alloc, text)?;
    resolve_condition(&condition, store.schema())?;
    store.keeps_its_limits();
    let names = matching(alloc, &mut StoreView::new(store), &condition)?;
    Ok(names)
}
