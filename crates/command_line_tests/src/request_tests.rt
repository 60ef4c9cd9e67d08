//! What command lines ask for, word for word. Those that are faults are tried by tests/program.

use command_line::{Request, read_request};
use std::alloc::{AllocError, Global};
use std::test::Fail;
use test_support::agree;

/// These words behind the program's name, each in memory of its own.
fn words_of(alloc: Global, words: &[&str]) -> Result<Vec<String>, AllocError> {
    let mut given = Vec::new(alloc);
    given.push(String::from_str(alloc, "lanes")?)?;
    for word in words {
        given.push(String::from_str(alloc, word)?)?;
    }
    Ok(given)
}

/// A request, field by field.
fn shown(alloc: Global, request: &Request) -> Result<String, AllocError> {
    format!(in alloc; "{request:?}")
}

/// What a command line of these words asks for, or its fault.
fn asked_by(alloc: Global, words: &[String]) -> Result<String, AllocError> {
    match read_request(alloc, words) {
        Ok(request) => shown(alloc, &request),
        Err(fault) => fault.to_string(alloc),
    }
}

/// What words ask for that have no memory of their own.
fn asked(alloc: Global, words: &[&str]) -> Result<String, AllocError> {
    let given = words_of(alloc, words)?;
    asked_by(alloc, given.as_slice())
}

const REQUESTS: [(&[&str], &str); 22] = [
    (&["run"], "Run(Run { source: Input, is_explained: false })"),
    (
        &["run", "-"],
        "Run(Run { source: Input, is_explained: false })",
    ),
    (
        &["run", "--explain", "s"],
        "Run(Run { source: File(\"s\"), is_explained: true })",
    ),
    (
        &["check", "t"],
        "Check(Check { file: \"t\", has_digest: false })",
    ),
    (
        &["check", "-", "--digest"],
        "Check(Check { file: \"-\", has_digest: true })",
    ),
    (
        &["merge", "out", "a", "b", "c"],
        "Merge(Merge { out: \"out\", files: [\"a\", \"b\", \"c\"], is_replacing: false, is_quiet: false })",
    ),
    (
        &["spread", "t", "a", "b/"],
        "Spread(Spread { file: \"t\", outs: [\"a\", \"b/\"], is_quiet: false })",
    ),
    (
        &["spread", "--quiet", "t", "-"],
        "Spread(Spread { file: \"t\", outs: [\"-\"], is_quiet: true })",
    ),
    (
        &["merge", "--", "-", "--x", "-b", "--help"],
        "Merge(Merge { out: \"-\", files: [\"--x\", \"-b\", \"--help\"], is_replacing: false, is_quiet: false })",
    ),
    (
        &["query", "t", "A", "B", "C"],
        "Query(Query { file: \"t\", queries: Texts([\"A\", \"B\", \"C\"]), format: Text })",
    ),
    (
        &["query", "t", "A", "--format", "json", "B"],
        "Query(Query { file: \"t\", queries: Texts([\"A\", \"B\"]), format: Json })",
    ),
    (
        &["query", "t", "--", "--format"],
        "Query(Query { file: \"t\", queries: Texts([\"--format\"]), format: Text })",
    ),
    (
        &["query", "--format=csv", "t", "--", "-x"],
        "Query(Query { file: \"t\", queries: Texts([\"-x\"]), format: Csv })",
    ),
    (
        &["query", "--format", "table", "t", "-"],
        "Query(Query { file: \"t\", queries: Lines, format: Table })",
    ),
    (
        &[
            "create", "f", "t", "a", "smallint", "b", "TinyInt", "c", "BIGINT",
        ],
        "Create(Create { file: \"f\", table: \"t\", columns: [(\"a\", SmallInt), (\"b\", TinyInt), (\"c\", BigInt)], is_quiet: false })",
    ),
    (
        &["import", "f", "-"],
        "Import(Import { file: \"f\", csvs: [Input], first: None, form: CsvForm { has_header: true, separator: 44, null_word: None, columns: None, is_whole: false }, is_quiet: false })",
    ),
    (
        &["import", "f", "c", "--quiet", "-", "--", "-d"],
        "Import(Import { file: \"f\", csvs: [File(\"c\"), Input, File(\"-d\")], first: None, form: CsvForm { has_header: true, separator: 44, null_word: None, columns: None, is_whole: false }, is_quiet: true })",
    ),
    (
        &["import", "--separator", "\\t", "--null", "-", "f", "c"],
        "Import(Import { file: \"f\", csvs: [File(\"c\")], first: None, form: CsvForm { has_header: true, separator: 9, null_word: Some(\"-\"), columns: None, is_whole: false }, is_quiet: false })",
    ),
    (
        &[
            "import",
            "--no-header",
            "--separator",
            ";",
            "--null=",
            "f",
            "c",
        ],
        "Import(Import { file: \"f\", csvs: [File(\"c\")], first: None, form: CsvForm { has_header: false, separator: 59, null_word: Some(\"\"), columns: None, is_whole: false }, is_quiet: false })",
    ),
    (
        &["import", "--separator", "\t", "--null", "9a", "f", "c"],
        "Import(Import { file: \"f\", csvs: [File(\"c\")], first: None, form: CsvForm { has_header: true, separator: 9, null_word: Some(\"9a\"), columns: None, is_whole: false }, is_quiet: false })",
    ),
    (
        &["import", "--columns", "A,-,b", "f", "c"],
        "Import(Import { file: \"f\", csvs: [File(\"c\")], first: None, form: CsvForm { has_header: true, separator: 44, null_word: None, columns: Some(\"A,-,b\"), is_whole: false }, is_quiet: false })",
    ),
    (
        &["import", "--columns", "", "f", "c"],
        "Import(Import { file: \"f\", csvs: [File(\"c\")], first: None, form: CsvForm { has_header: true, separator: 44, null_word: None, columns: None, is_whole: false }, is_quiet: false })",
    ),
];

const MORE_REQUESTS: [(&[&str], &str); 31] = [
    (
        &[
            "import",
            "--null",
            "0000000000000000000000000000001",
            "f",
            "c",
        ],
        "Import(Import { file: \"f\", csvs: [File(\"c\")], first: None, form: CsvForm { has_header: true, separator: 44, null_word: Some(\"0000000000000000000000000000001\"), columns: None, is_whole: false }, is_quiet: false })",
    ),
    (
        &["import", "--null", "\"5\"", "f", "c"],
        "Import(Import { file: \"f\", csvs: [File(\"c\")], first: None, form: CsvForm { has_header: true, separator: 44, null_word: Some(\"\\\"5\\\"\"), columns: None, is_whole: false }, is_quiet: false })",
    ),
    (
        &["import", "--null", "--", "f", "c"],
        "Import(Import { file: \"f\", csvs: [File(\"c\")], first: None, form: CsvForm { has_header: true, separator: 44, null_word: Some(\"--\"), columns: None, is_whole: false }, is_quiet: false })",
    ),
    (
        &["merge", "--quiet", "o", "--replace", "a"],
        "Merge(Merge { out: \"o\", files: [\"a\"], is_replacing: true, is_quiet: true })",
    ),
    (
        &["apply", "--quiet", "o", "a"],
        "Apply(Apply { file: \"o\", offers: [File(\"a\")], is_quiet: true })",
    ),
    (
        &["create", "--quiet", "f", "t", "a", "BIGINT"],
        "Create(Create { file: \"f\", table: \"t\", columns: [(\"a\", BigInt)], is_quiet: true })",
    ),
    (
        &["delete", "--quiet", "f", "A = 1"],
        "Delete(Delete { file: \"f\", condition: \"A = 1\", is_quiet: true })",
    ),
    (
        &[
            "import",
            "--no-header",
            "--batch",
            "0000000007.0",
            "--",
            "-f",
            "--batch",
        ],
        "Import(Import { file: \"-f\", csvs: [File(\"--batch\")], first: Some(BatchName { origin: Origin(7), number: Number(0) }), form: CsvForm { has_header: false, separator: 44, null_word: None, columns: None, is_whole: false }, is_quiet: false })",
    ),
    (
        &["delete", "f", "-1 = A"],
        "Delete(Delete { file: \"f\", condition: \"-1 = A\", is_quiet: false })",
    ),
    (
        &["delete-rows", "--quiet", "f", "1.2", "00000", "65535"],
        "DeleteRows(DeleteRows { file: \"f\", first: RowName { batch: BatchName { origin: Origin(1), number: Number(2) }, ordinal: 0 }, last: 65535, is_held: false, is_quiet: true })",
    ),
    (
        &["delete-rows", "--held", "f", "1.2", "1", "3"],
        "DeleteRows(DeleteRows { file: \"f\", first: RowName { batch: BatchName { origin: Origin(1), number: Number(2) }, ordinal: 1 }, last: 3, is_held: true, is_quiet: false })",
    ),
    (
        &["forget", "f"],
        "Forget(Forget { file: \"f\", is_quiet: false })",
    ),
    (
        &["pack", "d"],
        "Pack(Pack { folder: \"d\", is_all: false, is_quiet: false })",
    ),
    (
        &["pack", "--all", "--quiet", "d/"],
        "Pack(Pack { folder: \"d/\", is_all: true, is_quiet: true })",
    ),
    (
        &["partial", "t", "A"],
        "Partial(Partial { file: File(\"t\"), sql: \"A\" })",
    ),
    (
        &["partial", "-", "-"],
        "Partial(Partial { file: Input, sql: \"-\" })",
    ),
    (
        &["partial", "--", "t", "--x"],
        "Partial(Partial { file: File(\"t\"), sql: \"--x\" })",
    ),
    (
        &["combine", "a", "-", "--", "--b", "a"],
        "Combine(Combine { partials: [File(\"a\"), Input, File(\"--b\"), File(\"a\")] })",
    ),
    (&["combine", "-"], "Combine(Combine { partials: [Input] })"),
    (
        &["finish", "p"],
        "Finish(Finish { partial: File(\"p\"), expected: [], format: Text })",
    ),
    (
        &["finish", "--format", "json", "-"],
        "Finish(Finish { partial: Input, expected: [], format: Json })",
    ),
    (
        &["finish", "--expect", "a", "--expect", "-", "p"],
        "Finish(Finish { partial: File(\"p\"), expected: [File(\"a\"), Input], format: Text })",
    ),
    (
        &["dump", "--names", "f"],
        "Dump(Dump { file: \"f\", has_names: true, condition: \"\", columns: \"\" })",
    ),
    (
        &["dump", "--columns", "b,A", "--where", "-1 = A", "f"],
        "Dump(Dump { file: \"f\", has_names: false, condition: \"-1 = A\", columns: \"b,A\" })",
    ),
    (
        &["dump", "--columns", "--", "f"],
        "Dump(Dump { file: \"f\", has_names: false, condition: \"\", columns: \"--\" })",
    ),
    (
        &["dump", "--columns", "--x", "f"],
        "Dump(Dump { file: \"f\", has_names: false, condition: \"\", columns: \"--x\" })",
    ),
    (
        &["inspect", "f"],
        "Inspect(Inspect { file: \"f\", has_batches: false, has_digest: false, form: Text })",
    ),
    (
        &["inspect", "--batches", "--format", "json", "f"],
        "Inspect(Inspect { file: \"f\", has_batches: true, has_digest: false, form: Json })",
    ),
    (&["summary", "f"], "Summary(Summary { file: \"f\" })"),
    (
        &["offer", "f", "-"],
        "Offer(Offer { file: \"f\", summary: Input })",
    ),
    (
        &["apply", "f", "a", "-", "b"],
        "Apply(Apply { file: \"f\", offers: [File(\"a\"), Input, File(\"b\")], is_quiet: false })",
    ),
];

/// Each of these command lines asks for what it should.
fn ask_for(alloc: Global, requests: &[(&[&str], &str)]) -> Result<(), Fail> {
    for &(words, want) in requests {
        let text = asked(alloc, words)?;
        agree(text.as_str(), want)?;
    }
    Ok(())
}

#[test]
fn no_word_of_a_command_line_is_dropped_or_taken_for_another(rt: HostRuntime) -> Result<(), Fail> {
    ask_for(rt.alloc(), REQUESTS.as_slice())
}

#[test]
fn no_word_of_further_command_lines_is_either(rt: HostRuntime) -> Result<(), Fail> {
    ask_for(rt.alloc(), MORE_REQUESTS.as_slice())
}
