//! What each refusal means, in the words that are always the same.

use table_model::Refusal;

/// What a refusal means.
pub fn meaning_of(refusal: Refusal) -> &'static str {
    match refusal {
        Refusal::Memory => "out of memory",
        Refusal::Conflict(_) => "both have a batch of one name, with different rows",
        Refusal::Full =>
            "there is no room: a replica holds at most 1,048,576 batches, a script 65,536 messages",
        Refusal::EmptyBatch => "the batch has no rows",
        Refusal::BatchTooLong => "the batch has more than 65,536 rows",
        Refusal::WrongArity(_) => "the row has the wrong number of cells",
        Refusal::OutOfType { .. } => "the number is outside its column's type",
        Refusal::SchemaDiffers => "the tables differ in their names, columns or types",
        Refusal::NumbersSpent => "no batch numbers are left: they end at 4,294,967,295",
        Refusal::NoSuchVector => "there is no such batch, column or vector",
        Refusal::BadName => "origins and batch numbers start at 1",
        Refusal::BadSchema => {
            "a table has a name and 1 to 32 columns of different names; a name is a letter and up to 63 letters, digits or _, and no keyword"
        }
        Refusal::Truncated(_) => "the bytes end too early",
        Refusal::BadMagic => "the first four bytes are not those of this format",
        Refusal::BadVersion =>
            "the version of the format is unknown, or not the one that these column types have",
        Refusal::BadOrder(_) => "out of order",
        Refusal::BadCount(_) => "the count is out of range",
        Refusal::BadWidth(_) => "the width is out of range",
        Refusal::BadTag(_) => "unknown coding",
        Refusal::BadMask(_) => "the mask of nulls breaks a rule",
        Refusal::BadDictionary(_) => "the dictionary's values do not ascend",
        Refusal::BadCode(_) => "the code is past the end of its dictionary",
        Refusal::BadRange(_) => "the range ends before it starts",
        Refusal::TrailingBytes(_) => "there are bytes after the end",
        Refusal::NotCanonical(_) => "not in canonical form from this byte on",
        Refusal::Syntax(_) => "syntax error here",
        Refusal::NoSuchTable => "unknown table",
        Refusal::NoSuchColumn(_) => "unknown column",
        Refusal::NotGrouped(_) => "this column must be in GROUP BY or inside a set function",
        Refusal::NumberTooLarge(_) => "the number has more than 30 digits",
        Refusal::TooDeep => "more than 64 parentheses are open at once",
        Refusal::LineTooLong => "the line has more than 1,048,576 bytes",
        Refusal::ReadFault => "this can't be read",
        Refusal::WriteFault => "this can't be written",
        Refusal::BadLine => "this is not a line of the script language",
        Refusal::NoSuchReplica => "there is no such replica",
        Refusal::NoSuchMessage => "there is no such message",
    }
}
