//! A long condition that stands alone, which is read and resolved in time linear in its length.
use crate::tests::repeated;
use query_parser::{parse_condition, resolve_condition};
use std::alloc::Global;
use std::test::Fail;
use table_model::{ColType, Refusal, Schema};
use test_support::agree;

/// How resolving a condition over the table ends.
fn resolved(alloc: Global, text: &str, schema: &Schema) -> Result<(), Refusal> {
    let condition = parse_condition(alloc, text)?;
    resolve_condition(&condition, schema)
}

// Reading and resolving take one pass each.
#[test]
fn a_long_lone_condition_is_read_in_time_linear_in_its_length(rt: HostRuntime) -> Result<(), Fail> {
    let schema = Schema::new(rt.alloc(), "T", &[("A", ColType::TinyInt)])?;
    let text = repeated(rt.alloc(), "", "A=1 OR ", 150_000, "B=1")?;
    let outcome = resolved(rt.alloc(), text.as_str(), &schema);
    agree(outcome, Err(Refusal::NoSuchColumn(1_050_000)))
}
