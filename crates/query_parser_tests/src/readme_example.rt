//! The example of query_parser's README, which has the same text.
use query_parser::{parse, resolve};
use std::alloc::Global;
use std::test::Fail;
use table_model::{ColType, Refusal, Schema};
use test_support::agree;

/// Reads a query, and one with a fault; and asks whether the names of the first are those of a table.
fn read_a_query(alloc: Global) -> Result<(), Fail> {
    let sql = "SELECT DAY, SUM(HITS) FROM VISITS WHERE HITS > 0 GROUP BY DAY";
    let query = parse(alloc, sql)?;
    agree((query.items.len(), query.grouping.len()), (2, 1))?;
    let columns = [("DAY", ColType::Integer), ("HITS", ColType::BigInt)];
    resolve(&query, &Schema::new(alloc, "VISITS", &columns)?)?;
    let faulty = "SELECT DAY FROM VISITS;";
    agree(parse(alloc, faulty).err(), Some(Refusal::Syntax(22)))
}

#[test]
fn the_example_holds(rt: HostRuntime) -> Result<(), Fail> {
    read_a_query(rt.alloc())
}
