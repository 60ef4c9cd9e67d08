//! The sentence of each refusal.

use refusal_sentences::{CommandRefusal, Sentence};
use std::alloc::{AllocError, Global};
use std::test::Fail;
use table_model::{BatchName, Number, Origin, Refusal};
use test_support::agree;

const NAME: BatchName = BatchName {
    origin: Origin(1),
    number: Number(7),
};

// Each of the 37 refusals, in order, and what is said of it where nothing more is known.
const SENTENCES: [(Refusal, &str); 37] = [
    (Refusal::Memory, "out of memory"),
    (
        Refusal::Conflict(NAME),
        "both have a batch 1.7, with different rows",
    ),
    (
        Refusal::Full,
        "there is no room: a replica holds at most 1,048,576 batches, a script 65,536 messages",
    ),
    (Refusal::EmptyBatch, "the batch has no rows"),
    (Refusal::BatchTooLong, "the batch has more than 65,536 rows"),
    (
        Refusal::WrongArity(3),
        "row 3: the row has the wrong number of cells",
    ),
    (
        Refusal::OutOfType { row: 3, column: 2 },
        "row 3, column 2: the number is outside its column's type",
    ),
    (
        Refusal::SchemaDiffers,
        "the tables differ in their names, columns or types",
    ),
    (
        Refusal::NumbersSpent,
        "no batch numbers are left: they end at 4,294,967,295",
    ),
    (
        Refusal::NoSuchVector,
        "there is no such batch, column or vector",
    ),
    (Refusal::BadName, "origins and batch numbers start at 1"),
    (
        Refusal::BadSchema,
        "a table has a name and 1 to 32 columns of different names; a name is a letter and up to 63 letters, digits or _, and no keyword",
    ),
    (Refusal::Truncated(41), "byte 41: the bytes end too early"),
    (
        Refusal::BadMagic,
        "the first four bytes are not those of this format",
    ),
    (
        Refusal::BadVersion,
        "the version of the format is unknown, or not the one that these column types have",
    ),
    (Refusal::BadOrder(41), "byte 41: out of order"),
    (Refusal::BadCount(41), "byte 41: the count is out of range"),
    (Refusal::BadWidth(41), "byte 41: the width is out of range"),
    (Refusal::BadTag(41), "byte 41: unknown coding"),
    (
        Refusal::BadMask(41),
        "byte 41: the mask of nulls breaks a rule",
    ),
    (
        Refusal::BadDictionary(41),
        "byte 41: the dictionary's values do not ascend",
    ),
    (
        Refusal::BadCode(41),
        "byte 41: the code is past the end of its dictionary",
    ),
    (
        Refusal::BadRange(41),
        "byte 41: the range ends before it starts",
    ),
    (
        Refusal::TrailingBytes(41),
        "byte 41: there are bytes after the end",
    ),
    (
        Refusal::NotCanonical(41),
        "byte 41: not in canonical form from this byte on",
    ),
    (Refusal::Syntax(41), "byte 41: syntax error here"),
    (Refusal::NoSuchTable, "unknown table"),
    (Refusal::NoSuchColumn(41), "byte 41: unknown column"),
    (
        Refusal::NotGrouped(41),
        "byte 41: this column must be in GROUP BY or inside a set function",
    ),
    (
        Refusal::NumberTooLarge(41),
        "byte 41: the number has more than 30 digits",
    ),
    (
        Refusal::TooDeep,
        "more than 64 parentheses are open at once",
    ),
    (
        Refusal::LineTooLong,
        "the line has more than 1,048,576 bytes",
    ),
    (Refusal::ReadFault, "this can't be read"),
    (Refusal::WriteFault, "this can't be written"),
    (
        Refusal::BadLine,
        "this is not a line of the script language",
    ),
    (Refusal::NoSuchReplica, "there is no such replica"),
    (Refusal::NoSuchMessage, "there is no such message"),
];

/// The sentence on a refusal of which nothing more is known.
fn said(alloc: Global, refusal: Refusal) -> Result<String, AllocError> {
    Sentence::new(CommandRefusal::from(refusal)).to_string(alloc)
}

#[test]
fn each_refusal_has_one_sentence_with_its_place(rt: HostRuntime) -> Result<(), Fail> {
    for &(refusal, want) in &SENTENCES {
        let text = said(rt.alloc(), refusal)?;
        agree(text.as_str(), want)?;
    }
    Ok(())
}
