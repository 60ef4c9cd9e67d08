//! Long queries, which are read and resolved in time linear in their length.
use query_parser::{parse, resolve};
use std::alloc::{AllocError, Global};
use std::test::Fail;
use table_model::{ColType, Refusal, Schema};
use test_support::{agree, agree_at};

/// The fault of a text, if it has one.
fn fault(alloc: Global, text: &str) -> Option<Refusal> {
    parse(alloc, text).err()
}

/// The text with a piece repeated in its middle.
pub(crate) fn repeated(
    alloc: Global,
    front: &str,
    piece: &str,
    count: usize,
    back: &str,
) -> Result<String, AllocError> {
    let mut text = String::from_str(alloc, front)?;
    for _ in 0..count {
        text.push_str(piece)?;
    }
    text.push_str(back)?;
    Ok(text)
}

const FROM_T: &str = "SELECT COUNT(*) FROM T WHERE ";

/// Whether each text has its fault: a front, a piece so many times, and an end.
fn have_faults(
    alloc: Global,
    cases: &[(&str, &str, usize, &str, Option<Refusal>)],
) -> Result<bool, AllocError> {
    for &(front, piece, count, back, want) in cases {
        let text = repeated(alloc, front, piece, count, back)?;
        if fault(alloc, text.as_str()) != want {
            return Ok(false);
        }
    }
    Ok(true)
}

// Each is read in one pass, and nothing goes deeper than 64 however long the text is.
#[test]
fn long_refused_texts_are_read_in_time_linear_in_their_length(rt: HostRuntime) -> Result<(), Fail> {
    let cases = [
        ("", " ", 1_000_000, "", Some(Refusal::Syntax(1_000_000))),
        (FROM_T, "(", 1_000_000, "", Some(Refusal::TooDeep)),
        (FROM_T, "NOT ", 250_000, "", Some(Refusal::Syntax(33))),
        (
            "SELECT ",
            "A",
            1_000_000,
            " FROM T",
            Some(Refusal::Syntax(7)),
        ),
    ];
    agree(have_faults(rt.alloc(), &cases)?, true)
}

#[test]
fn long_lists_are_read_in_time_linear_in_their_length(rt: HostRuntime) -> Result<(), Fail> {
    let cases = [
        (
            "SELECT COUNT(*) FROM T WHERE A IN(1",
            ",1",
            500_000,
            ")",
            None,
        ),
        ("SELECT A", ",A", 250_000, " FROM T", None),
        ("SELECT A FROM T GROUP BY A", ",A", 250_000, "", None),
    ];
    agree(have_faults(rt.alloc(), &cases)?, true)
}

#[test]
fn long_conditions_are_read_in_time_linear_in_their_length(rt: HostRuntime) -> Result<(), Fail> {
    let cases = [
        (FROM_T, "A=1 OR ", 150_000, "A=1", None),
        (FROM_T, "A=1 AND ", 125_000, "A=1", None),
    ];
    agree(have_faults(rt.alloc(), &cases)?, true)
}

/// How resolving a text over the table ends.
fn resolved(alloc: Global, text: &str, schema: &Schema) -> Result<(), Refusal> {
    let query = parse(alloc, text)?;
    resolve(&query, schema)
}

// Resolving takes one pass too, with no search within a search.
#[test]
fn long_lists_are_resolved_in_time_linear_in_their_length(rt: HostRuntime) -> Result<(), Fail> {
    let schema = Schema::new(rt.alloc(), "T", &[("A", ColType::SmallInt)])?;
    let mut text = repeated(rt.alloc(), "SELECT A", ",A", 250_000, " FROM T GROUP BY A")?;
    for _ in 0..250_000 {
        text.push_str(",A")?;
    }
    agree(resolved(rt.alloc(), text.as_str(), &schema), Ok(()))
}

#[test]
fn long_conditions_are_resolved_in_time_linear_in_their_length(
    rt: HostRuntime,
) -> Result<(), Fail> {
    let schema = Schema::new(rt.alloc(), "T", &[("A", ColType::SmallInt)])?;
    for (piece, count, place) in [
        ("A=1 OR ", 150_000, 1_050_029),
        ("A=1 AND ", 125_000, 1_000_029),
    ] {
        let text = repeated(rt.alloc(), FROM_T, piece, count, "B=1")?;
        let outcome = resolved(rt.alloc(), text.as_str(), &schema);
        agree_at(piece, outcome, Err(Refusal::NoSuchColumn(place)))?;
    }
    Ok(())
}
