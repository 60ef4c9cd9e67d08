//! What the grammar takes at the byte at which a text is refused.

use query_parser::{Form, find_expected};
use std::test::Fail;

/// Texts, and what is found of them.
const TEXTS: [(Form, &str, &str); 6] = [
    (
        Form::Query,
        "SELECT A FROM T WHERE A = 1 ~ 2",
        "Some(Expected { at: 28, signs: [And, Group, Having, Is, Or], has_name: false, has_digits: false, has_end: true })",
    ),
    (
        Form::Condition,
        "A = 1 GROUP BY A",
        "Some(Expected { at: 6, signs: [And, Is, Or], has_name: false, has_digits: false, has_end: true })",
    ),
    (
        Form::Query,
        "SELECT A FROM T HAVING ",
        "Some(Expected { at: 23, signs: [Avg, Count, Max, Min, Not, Sum, OpenParen, Plus, Minus], has_name: true, has_digits: true, has_end: false })",
    ),
    (
        Form::Query,
        "",
        "Some(Expected { at: 0, signs: [Select], has_name: false, has_digits: false, has_end: false })",
    ),
    (Form::Query, "SELECT COUNT(*) FROM T", "None"),
    (
        Form::Condition,
        "A = 1234567890123456789012345678901",
        "None",
    ),
];

#[test]
fn what_may_come_at_a_fault_is_found(rt: HostRuntime) -> Result<(), Fail> {
    for &(form, text, want) in &TEXTS {
        let found = find_expected(rt.alloc(), form, text)?;
        let said = format!(in rt.alloc(); "{found:?}")?;
        assert!(rt; said.as_str() == want, "said {said}");
    }
    Ok(())
}
