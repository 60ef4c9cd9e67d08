//! A condition read with a growth refused. A test's own growths are counted from 1: with the Nth refused, a test fails by an
//! `AllocError` or `Memory` of its set-up, or, if it was a growth of the call that it is of, as `growth_refused` says; with none
//! refused it passes. The command `tests/refused-memory` refuses each in turn and counts those texts.
use query_parser::parse_condition;
use std::test::Fail;
use table_model::Refusal;
use test_support::growth_refused;

/// Each predicate, and each connective.
const CONDITION: &str =
    "NOT(A<>-1 OR B BETWEEN 1 AND A)IS NOT UNKNOWN AND A NOT IN(1,-2,3,4,5)OR A IS NULL";

#[test]
fn a_refused_condition_is_not_read(rt: HostRuntime) -> Result<(), Fail> {
    let alloc = rt.alloc();
    match parse_condition(alloc, CONDITION) {
        Ok(_) => Ok(()),
        Err(fault) => {
            let again = parse_condition(alloc, CONDITION);
            growth_refused(fault == Refusal::Memory && again.is_ok())
        }
    }
}
