//! What an input is that is not what it should be, by its first bytes.

/// How an input begins, and what it is.
type Kind = (&'static [u8], &'static str);

/// How many of the first bytes tell what an input is.
pub const KIND_BYTES: usize = 16;

const NO_PAGE: &str = "this is HTML or XML: did a download fail?";

/// How the files of other programs begin, and what to do.
const OTHERS: [Kind; 19] = [
    (b"\xff\xfe", "this is UTF-16: save it as UTF-8"),
    (b"\xfe\xff", "this is UTF-16: save it as UTF-8"),
    (
        b"\x1f\x8b",
        "this is packed by gzip: unpack it with gzip -dc",
    ),
    (b"BZh", "this is packed by bzip2: unpack it with bzip2 -dc"),
    (b"\xfd7zXZ", "this is packed by xz: unpack it with xz -dc"),
    (
        b"\x28\xb5\x2f\xfd",
        "this is packed by zstd: unpack it with zstd -dc",
    ),
    (
        b"PK\x03\x04",
        "this is a zip file or a workbook: save it as CSV",
    ),
    (
        b"PAR1",
        "this is a Parquet file: read it by the module of Python",
    ),
    (
        b"ARROW1",
        "this is an Arrow file: read it by the module of Python",
    ),
    (
        b"SQLite format 3",
        "this is a database of SQLite: write its rows by sqlite3 -csv",
    ),
    (b"%PDF", "this is a PDF"),
    (b"<!DOCTYPE", NO_PAGE),
    (b"<!doctype", NO_PAGE),
    (b"<html", NO_PAGE),
    (b"<?xml", NO_PAGE),
    (b"{", "this is JSON: write its numbers as CSV"),
    (b"[{", "this is JSON: write its numbers as CSV"),
    (b"[[", "this is JSON: write its numbers as CSV"),
    (b"[\n", "this is JSON: write its numbers as CSV"),
];

/// How files and messages of this program begin, and what reads them.
const OWN: [Kind; 3] = [
    (
        b"FLCF",
        "this is a table or an offer: lanes summary makes a summary of a table, and lanes partial a partial answer",
    ),
    (
        b"FLSM",
        "this is a summary: lanes offer and lanes inspect read it",
    ),
    (
        b"FLPT",
        "this is a partial answer: lanes combine, lanes finish and lanes inspect read it",
    ),
];

/// What one of some kinds is that an input begins like.
fn kind_among(input: &[u8], kinds: &[Kind]) -> Option<&'static str> {
    for &(beginning, said) in kinds {
        if input.starts_with(beginning) {
            return Some(said);
        }
    }
    None
}

/// What a text is that should be comma-separated values, if it is something else.
pub fn of_no_csv(input: &[u8]) -> Option<&'static str> {
    match kind_among(input, &OTHERS).or(kind_among(input, &OWN)) {
        None if has_zeros(input) => Some("this is UTF-16, or no text: save it as UTF-8"),
        said => said,
    }
}

/// What an input is that should be a file of this program, if it is something else that can be told.
pub fn of_no_file(input: &[u8]) -> Option<&'static str> {
    match kind_among(input, &OWN).or(kind_among(input, &OTHERS)) {
        None if is_text(input) => Some(
            "this is a text file, not a lanes file: import CSV with lanes import, run a script with lanes run",
        ),
        said => said,
    }
}

/// Whether the second or the fourth byte is zero, as in digits of UTF-16.
fn has_zeros(input: &[u8]) -> bool {
    matches!(input, [_, 0, ..] | [0, _, ..])
}

/// Whether bytes are those of a text in ASCII.
fn is_text(input: &[u8]) -> bool {
    let is_letter = |byte: &u8| matches!(*byte, b'\t' | b'\n' | b'\r' | 0x20..=0x7e);
    !input.is_empty() && input.iter().all(is_letter)
}
