//! Queries over a store: their answers, worked out by hand, and the passes that their mentions of columns allow: each at most one
//! for each vector that has a live row.
use query_eval::{Columns, answer, text};
use query_parser::{parse, resolve};
use replica_store::Store;
use std::alloc::{AllocError, Global};
use std::test::Fail;
use store_view::StoreView;
use table_model::{ColType, Origin, Query, Refusal, Rows, Schema};
use test_support::agree_at;

/// A query, its answer's lines, and how many passes it takes at most.
pub(crate) type Asked = (&'static str, &'static str, u128);

/// A store of one batch of rows.
pub(crate) fn store_of(
    alloc: Global,
    columns: &[(&str, ColType)],
    rows: &Rows,
) -> Result<Store, Refusal> {
    let schema = Schema::new(alloc, "T", columns)?;
    let mut store = Store::new(alloc, &schema, Origin(1))?;
    let _ = store.append(alloc, rows)?;
    Ok(store)
}

/// So many rows of one column: 0 each, or from 1 on if they differ.
fn numbered_rows(alloc: Global, count: usize, differ: bool) -> Result<Rows, AllocError> {
    let mut rows = Rows::new(alloc);
    for n in 0..count {
        let value = if differ { n as i128 + 1 } else { 0 };
        rows.push_row(&[Some(value)])?;
    }
    Ok(rows)
}

/// A store whose one batch has those rows.
fn filled_store(alloc: Global, count: usize, differ: bool) -> Result<Store, Refusal> {
    let rows = numbered_rows(alloc, count, differ)?;
    store_of(alloc, &[("A", ColType::SmallInt)], &rows)
}

/// The lines of a query's answer over a store, and how many passes a view of the store made for it.
fn lines_of(alloc: Global, store: &Store, query: &Query) -> Result<(String, u128), Fail> {
    let mut view = StoreView::new(store);
    let found = answer(alloc, &mut view, query)?;
    let lines = String::from_utf8(text(alloc, &found)?)?;
    Ok((lines, view.passes()))
}

/// The answer to a query's text, and how many passes it took.
fn answered(alloc: Global, store: &Store, query: &str) -> Result<(String, u128), Fail> {
    let query = parse(alloc, query)?;
    resolve(&query, store.schema())?;
    lines_of(alloc, store, &query)
}

/// Each query has its answer over a store, and takes at most its passes.
pub(crate) fn has_answers(alloc: Global, store: &Store, asked: &[Asked]) -> Result<(), Fail> {
    for &(query, wanted, most) in asked {
        let (lines, passes) = answered(alloc, store, query)?;
        agree_at(query, lines.as_str(), wanted)?;
        agree_at(query, passes <= most, true)?;
    }
    Ok(())
}

/// How many rows are more than a vector has, by one.
const TWO_VECTORS: usize = 1025;

/// Queries over two vectors of rows of 0.
const OF_TWO_VECTORS: [Asked; 4] = [
    ("SELECT COUNT(*) FROM T", "COUNT(*)\n1025\n", 0),
    ("SELECT SUM(A) FROM T WHERE A >= 0", "SUM(A)\n0\n", 4),
    (
        "SELECT COUNT(*) FROM T WHERE A IN (1,2,3)",
        "COUNT(*)\n0\n",
        2,
    ),
    (
        "SELECT COUNT(*) FROM T WHERE A BETWEEN 0 AND 5",
        "COUNT(*)\n1025\n",
        2,
    ),
];

#[test]
fn a_mention_takes_at_most_a_pass_a_vector(rt: HostRuntime) -> Result<(), Fail> {
    let store = filled_store(rt.alloc(), TWO_VECTORS, false)?;
    has_answers(rt.alloc(), &store, &OF_TWO_VECTORS)
}

/// A query with ten groups: it mentions the column three times.
const OF_TEN_GROUPS: [Asked; 1] = [(
    "SELECT A,SUM(A) FROM T GROUP BY A",
    "A,SUM(A)\n1,1\n2,2\n3,3\n4,4\n5,5\n6,6\n7,7\n8,8\n9,9\n10,10\n",
    3,
)];

#[test]
fn ten_groups_take_no_pass_each(rt: HostRuntime) -> Result<(), Fail> {
    let store = filled_store(rt.alloc(), 10, true)?;
    has_answers(rt.alloc(), &store, &OF_TEN_GROUPS)
}

/// Queries that mention the column again and again: it is asked once for each different set function, and once for the keys.
const OF_MENTIONS: [Asked; 3] = [
    (
        "SELECT A,SUM(A),SUM(A),AVG(A) FROM T GROUP BY A,A HAVING SUM(A)>8 AND SUM(A)<10",
        "A,SUM(A),SUM(A),AVG(A)\n9,9,9,9.000000\n",
        3,
    ),
    (
        "SELECT COUNT(DISTINCT A),COUNT(A),COUNT(DISTINCT A) FROM T",
        "COUNT(DISTINCT A),COUNT(A),COUNT(DISTINCT A)\n10,10,10\n",
        2,
    ),
    (
        "SELECT COUNT(*) FROM T GROUP BY A,A,A HAVING MAX(A)=10 OR MAX(A)=1",
        "COUNT(*)\n1\n1\n",
        2,
    ),
];

#[test]
fn what_is_mentioned_again_is_asked_once(rt: HostRuntime) -> Result<(), Fail> {
    let store = filled_store(rt.alloc(), 10, true)?;
    has_answers(rt.alloc(), &store, &OF_MENTIONS)
}
