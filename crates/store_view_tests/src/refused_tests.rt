//! Queries over a store, each with a growth refused. A test's own growths are counted from 1: with the Nth refused, a test fails
//! by an `AllocError` or `Memory` of its set-up, or, if it was a growth of the call that it is of, as `growth_refused` says;
//! with none refused it passes. The command `tests/refused-memory` refuses each in turn and counts those texts.
use query_eval::{HashKey, answer, matching, text};
use query_parser::{parse, parse_condition, resolve};
use replica_store::Store;
use std::alloc::{AllocError, Global};
use std::test::Fail;
use store_view::{StoreView, ask, names_where};
use table_model::{Answer, ColType, Condition, Origin, Query, Refusal, RowName, Rows, Schema};
use test_support::growth_refused;

/// Groups, a null one among them, an alias, and set functions in HAVING.
const QUERY: &str = "SELECT A N FROM T GROUP BY A HAVING AVG(A) >= 5 OR COUNT(A) = 0";

/// Its answer over the rows of these tests.
const ANSWER: &[u8] = b"N\nNULL\n5\n";

/// The rows 5, null, 5 and 2.
fn some_rows(alloc: Global) -> Result<Rows, AllocError> {
    let mut rows = Rows::new(alloc);
    for &cell in &[Some(5), None, Some(5), Some(2)] {
        rows.push_row(&[cell])?;
    }
    Ok(rows)
}

/// A store without rows.
fn empty_store(alloc: Global) -> Result<Store, Refusal> {
    let schema = Schema::new(alloc, "T", &[("A", ColType::SmallInt)])?;
    Store::new(alloc, &schema, Origin(1))
}

/// A store with those rows.
fn filled_store(alloc: Global) -> Result<Store, Refusal> {
    let rows = some_rows(alloc)?;
    let mut store = empty_store(alloc)?;
    let _ = store.append(alloc, &rows)?;
    Ok(store)
}

#[test]
fn a_refused_parse_gives_no_query(rt: HostRuntime) -> Result<(), Fail> {
    let alloc = rt.alloc();
    match parse(alloc, QUERY) {
        Ok(_) => Ok(()),
        Err(fault) => {
            let again = parse(alloc, QUERY);
            growth_refused(fault == Refusal::Memory && again.is_ok())
        }
    }
}

/// Whether an answer is that over the rows of these tests.
fn is_answer(alloc: Global, found: &Answer) -> Result<bool, AllocError> {
    let lines = text(alloc, found)?;
    Ok(lines.as_slice() == ANSWER)
}

/// Whether the query has its answer over a store.
fn is_answered(alloc: Global, store: &Store) -> Result<bool, Refusal> {
    let found = ask(alloc, store, HashKey::fixed(), QUERY)?;
    Ok(is_answer(alloc, &found)?)
}

/// The query, whose names are those of a schema.
fn read_query(alloc: Global, schema: &Schema) -> Result<Query, Refusal> {
    let query = parse(alloc, QUERY)?;
    resolve(&query, schema)?;
    Ok(query)
}

#[test]
fn a_refused_answer_leaves_the_store(rt: HostRuntime) -> Result<(), Fail> {
    let alloc = rt.alloc();
    let store = filled_store(alloc)?;
    let query = read_query(alloc, store.schema())?;
    match answer(alloc, &mut StoreView::new(&store), &query) {
        Ok(_) => Ok(()),
        Err(_) => growth_refused(is_answered(alloc, &store)?),
    }
}

#[test]
fn a_refused_question_leaves_the_store(rt: HostRuntime) -> Result<(), Fail> {
    let alloc = rt.alloc();
    let store = filled_store(alloc)?;
    match ask(alloc, &store, HashKey::fixed(), QUERY) {
        Ok(_) => Ok(()),
        Err(fault) => {
            let is_same = is_answered(alloc, &store)?;
            growth_refused(fault == Refusal::Memory && is_same)
        }
    }
}

/// The query's answer over the rows of these tests.
fn answered(alloc: Global) -> Result<Answer, Refusal> {
    let store = filled_store(alloc)?;
    ask(alloc, &store, HashKey::fixed(), QUERY)
}

#[test]
fn a_refused_text_leaves_the_answer(rt: HostRuntime) -> Result<(), Fail> {
    let alloc = rt.alloc();
    let found = answered(alloc)?;
    match text(alloc, &found) {
        Ok(lines) => assert_eq!(rt; lines.as_slice(), ANSWER),
        Err(_) => return growth_refused(is_answer(alloc, &found)?),
    }
    Ok(())
}

/// A condition that is true at all of those rows.
const CONDITION: &str = "A IN (2,5) OR A IS NULL";

/// Whether these are the names of all of those rows, in order.
fn are_all(names: &[RowName]) -> bool {
    for (ordinal, name) in names.iter().enumerate() {
        if usize::from(name.ordinal) != ordinal {
            return false;
        }
    }
    names.len() == 4
}

/// Whether the condition has its rows over a store.
fn are_named(alloc: Global, store: &Store) -> Result<bool, Refusal> {
    let names = names_where(alloc, store, CONDITION)?;
    Ok(are_all(&names))
}

/// Finds the rows of a store that match the condition.
fn find_matching(alloc: Global, store: &Store, condition: &Condition) -> Result<(), Fail> {
    match matching(alloc, &mut StoreView::new(store), condition) {
        Ok(_) => Ok(()),
        Err(_) => growth_refused(are_named(alloc, store)?),
    }
}

#[test]
fn a_refused_match_leaves_the_store(rt: HostRuntime) -> Result<(), Fail> {
    let condition = parse_condition(rt.alloc(), CONDITION)?;
    let store = filled_store(rt.alloc())?;
    find_matching(rt.alloc(), &store, &condition)
}

#[test]
fn a_refused_list_of_names_leaves_the_store(rt: HostRuntime) -> Result<(), Fail> {
    let alloc = rt.alloc();
    let store = filled_store(alloc)?;
    match names_where(alloc, &store, CONDITION) {
        Ok(_) => Ok(()),
        Err(fault) => {
            let is_same = are_named(alloc, &store)?;
            growth_refused(fault == Refusal::Memory && is_same)
        }
    }
}
