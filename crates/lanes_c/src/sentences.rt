//! The call that says of a refusal what the program says of it, by the text that was refused, the table, and how an input begins.
ghost use Rattle.std.specs.Prelude.{◌≡◌, ◌≤◌, IfOk, length};
ghost use Rattle.std.specs.List.{All};
ghost use Rattle.lanes_c.specs.Rooms.{IsFilled};
ghost use Rattle.lanes_c.specs.Sentences.{IsPlain, IsSaidOf, IsShown, sentence_limit, shown};

use crate::fault::Place;
use crate::names::{command_refusal, known_of, own_sentence};
use crate::refused_rows::{RefusedRows, said_on_rows};
use crate::room::fill;
use refusal_sentences::{
    CommandRefusal, KIND_BYTES, Knowledge, NOT_UTF8, Sentence, Text, is_of_a_text, sentence_of_text,
};
use std::alloc::{AllocError, Global};
use std::str;
use table_model::{ColType, Refusal, Schema};

/// How many bytes a sentence has at most.
const LIMIT: usize = 1024;

/// What comes after a sentence that is cut.
const CUT: &[u8] = b"...";

/// What an input is called that has no name.
const OTHER: &str = "the other one";

/// A refusal, and what the text is that comes with it.
#[repr(C)]
#[derive(Clone, Copy, Debug)]
pub struct Refused {
    /// The place, as the call told it.
    pub place: Place,
    /// The number that the call answered.
    pub number: u8,
    /// What the text is.
    pub given: u8,
    /// What separates the fields of rows or the names of a list: a byte, or 0 for a comma between fields, and for a space between names.
    pub separator: u8,
    /// Of rows: 0, or another number if the first line names the columns.
    pub has_heading: u8,
    /// Of rows: 0, or another number if a last line without an end is refused.
    pub needs_ends: u8,
}

/// What a text is that a call was given.
#[derive(Clone, Copy, Debug, PartialEq, Eq)]
enum Given {
    /// Nothing is known of it.
    Unknown,
    /// A query.
    Query,
    /// A condition.
    Condition,
    /// Names of columns.
    Names,
    /// Comma-separated values.
    Rows,
    /// The words of a table that is to be made, or that another table is expected in its place.
    Table,
    /// A file or a message, or its first bytes.
    Input,
}

impl Given {
    /// What the text is, by its number.
    fn numbered(number: u8) -> Given {
        match number {
            1 => Given::Query,
            2 => Given::Condition,
            3 => Given::Names,
            4 => Given::Rows,
            5 => Given::Table,
            6 => Given::Input,
            _ => Given::Unknown,
        }
    }

    /// Whether it has to be UTF-8.
    fn is_text(self) -> bool {
        matches!(self, Given::Query | Given::Condition | Given::Names)
    }
}

/// A byte, or a space in the place of one of a control character.
fn shown(byte: u8) -> u8
    ensures same { result ≡ shown byte }
    ensures seen { IsShown result }
{
    if byte < 32 || byte == 127 { b' ' } else { byte }
}

/// The first bytes of a text, at most this number of them, without a character that they cut.
fn front_of(text: &[u8], limit: usize) -> &[u8]
    ensures { length result.now ≤ limit }
{
    let (front, _) = text.split_at(text.len().min(limit));
    match str::from_utf8(front) {
        Ok(_) => front,
        Err(fault) => {
            let (whole, _) = front.split_at(fault.valid_up_to().min(front.len()));
            whole
        }
    }
}

/// Bytes, with a space in the place of each control character.
fn spaced(alloc: Global, text: &[u8]) -> Result<Vec<u8>, AllocError>
    ensures length { IfOk result (λ given. length given.items ≡ length text.now) }
    ensures seen { IfOk result (λ given. All IsShown given.items) }
{
    text.iter().map(|byte| shown(*byte)).collect(alloc)
}

/// A sentence as a caller gets it: its first bytes, if it is longer than any caller has room for.
fn plain(alloc: Global, sentence: &[u8]) -> Result<Vec<u8>, AllocError>
    ensures length { IfOk result (λ given. length given.items ≤ sentence_limit) }
    ensures seen { IfOk result (λ given. All IsShown given.items) }
{
    if sentence.len() <= LIMIT {
        return spaced(alloc, sentence);
    }
    let mut given = spaced(alloc, front_of(sentence, LIMIT - CUT.len()))?;
    given.extend_from_slice(CUT)?;
    Ok(given)
}

/// The words of a table: its name, and the names and types of its columns.
#[derive(Drop)]
struct TableWords<'a> {
    table: &'a str,
    columns: Vec<(&'a str, ColType)>,
}

impl<'a> TableWords<'a> {
    /// Reads words with one space between each two. None if they are not a name, and then a name and a type for each column.
    fn read(alloc: Global, words: &'a [u8]) -> Option<TableWords<'a>> {
        let (table, rest) = str::from_utf8(words).ok()?.split_once(' ')?;
        let mut columns = Vec::new(alloc);
        let mut name: Option<&'a str> = None;
        for word in rest.split(' ') {
            match name {
                None => name = Some(word),
                Some(column) => {
                    columns.push((column, ColType::named(word)?)).ok()?;
                    name = None;
                }
            }
        }
        if name.is_some() {
            return None;
        }
        Some(TableWords { table, columns })
    }

    /// The table, if there is one of this name and these columns.
    fn schema(&self, alloc: Global) -> Option<Schema> {
        Schema::new(alloc, self.table, self.columns.as_slice()).ok()
    }
}

/// The sentence of a refusal of which this is known.
pub(crate) fn said(
    alloc: Global,
    refusal: CommandRefusal,
    knowledge: Knowledge<'_>,
) -> Result<String, AllocError> {
    let sentence = Sentence {
        knowledge,
        ..Sentence::new(refusal)
    };
    format!(in alloc; "{sentence}")
}

/// The sentence of a refusal of the words of a table that is to be made.
fn said_on_table(
    alloc: Global,
    refusal: CommandRefusal,
    words: &[u8],
) -> Result<String, AllocError> {
    match TableWords::read(alloc, words) {
        Some(read) => {
            let knowledge = Knowledge::of_table(read.table, read.columns.as_slice());
            said(alloc, refusal, knowledge)
        }
        None => said(alloc, refusal, Knowledge::Nothing),
    }
}

/// The sentence of a table of these words in the place of another one, which the input of a name holds.
fn said_on_tables(
    alloc: Global,
    words: &[u8],
    wanted: &Schema,
    of: &[u8],
) -> Result<String, AllocError> {
    let refusal = CommandRefusal::from(Refusal::SchemaDiffers);
    let of = match str::from_utf8(of) {
        Ok("") | Err(_) => OTHER,
        Ok(of) => of,
    };
    match TableWords::read(alloc, words).and_then(|read| read.schema(alloc)) {
        Some(found) => {
            let found = &found;
            said(alloc, refusal, Knowledge::Tables { found, wanted, of })
        }
        None => said(alloc, refusal, Knowledge::Nothing),
    }
}

/// The sentence of a refusal of a query, of a condition, or of names of columns.
fn said_on_text<'a>(
    alloc: Global,
    refused: &Refused,
    refusal: Refusal,
    text: &'a [u8],
    schema: Option<&'a Schema>,
) -> Result<String, AllocError> {
    let given = Given::numbered(refused.given);
    let text = match str::from_utf8(text) {
        Ok(text) => text,
        Err(_) => return said(
            alloc,
            CommandRefusal::from(refusal),
            Knowledge::Advice(NOT_UTF8),
        ),
    };
    match (given, refusal, schema) {
        (Given::Names, Refusal::NoSuchColumn(at), Some(schema)) => {
            let separator = refused.separator_or(b' ');
            let knowledge = Knowledge::of_name(text, char::from(separator), at, schema);
            said(alloc, CommandRefusal::from(refusal), knowledge)
        }
        (Given::Names, _, _) => said(alloc, CommandRefusal::from(refusal), Knowledge::Nothing),
        (_, _, schema) => {
            let text = Text {
                text,
                is_condition: given == Given::Condition,
                schema,
            };
            sentence_of_text(alloc, refusal, "", text)
        }
    }
}

/// What is known of a refusal that is of no text.
fn known_beside<'a>(
    refused: &Refused,
    refusal: CommandRefusal,
    text: &'a [u8],
    schema: Option<&'a Schema>,
) -> Knowledge<'a> {
    match (Given::numbered(refused.given), refusal, schema) {
        (Given::Rows | Given::Input, CommandRefusal::Named(Refusal::Conflict(_)), _) =>
            Knowledge::Held,
        (Given::Input, CommandRefusal::Named(Refusal::BadMagic), _) => {
            Knowledge::Beginning(text.get(..KIND_BYTES).unwrap_or(text))
        }
        (
            _,
            CommandRefusal::Named(Refusal::OutOfType { .. } | Refusal::WrongArity(_)),
            Some(schema),
        ) => Knowledge::Rows(schema),
        _ => known_of(refusal, refused.place),
    }
}

impl Refused {
    /// What separates fields or names; this byte if nothing is said of that.
    fn separator_or(&self, usual: u8) -> u8 {
        if self.separator == 0 {
            usual
        } else {
            self.separator
        }
    }
}

/// The sentence of a refusal, by all that is known.
fn said_of(
    alloc: Global,
    refused: &Refused,
    refusal: CommandRefusal,
    text: &[u8],
    table: &[u8],
    null_word: &[u8],
    columns: &[u8],
) -> Result<String, AllocError> {
    let given = Given::numbered(refused.given);
    let schema = TableWords::read(alloc, table).and_then(|words| words.schema(alloc));
    match (refusal, &schema) {
        (CommandRefusal::Named(refusal), _) if given.is_text() && is_of_a_text(refusal) => {
            said_on_text(alloc, refused, refusal, text, schema.as_ref())
        }
        (CommandRefusal::Named(Refusal::BadSchema), _) if given == Given::Table => {
            said_on_table(alloc, refusal, text)
        }
        (CommandRefusal::Named(Refusal::SchemaDiffers), Some(wanted)) if given == Given::Table => {
            said_on_tables(alloc, text, wanted, columns)
        }
        (CommandRefusal::BadCsv { line, column }, Some(schema))
            if given == Given::Rows && line != 0 => {
            let rows = RefusedRows {
                text,
                separator: refused.separator_or(b','),
                has_heading: refused.has_heading != 0,
                needs_ends: refused.needs_ends != 0,
                null_word,
                columns,
            };
            said_on_rows(alloc, line, column, &rows, schema)
        }
        _ => said(
            alloc,
            refusal,
            known_beside(refused, refusal, text, schema.as_ref()),
        ),
    }
}

/// What is said of a refusal, as a caller gets it.
fn explained(
    alloc: Global,
    refused: &Refused,
    text: &[u8],
    table: &[u8],
    null_word: &[u8],
    columns: &[u8],
) -> Result<Vec<u8>, AllocError>
    ensures { IfOk result (λ sentence. IsSaidOf refused.now.number sentence.items) }
{
    if let Some(sentence) = own_sentence(refused.number) {
        return Vec::from_slice(alloc, sentence.as_bytes());
    }
    let Some(refusal) = command_refusal(refused.number, refused.place) else {
        return Ok(Vec::new(alloc));
    };
    let sentence = said_of(alloc, refused, refusal, text, table, null_word, columns)?;
    plain(alloc, sentence.as_bytes())
}

/// Gives the sentence that the program gives of a refusal, without what it is said of, and its length: 0 if the number has no sentence,
/// or memory runs out. `text` is what the call was given that is refused, and `table` are the words of the table, or nothing if it is not
/// known. `null_word` and `columns` are those of the dialect of rows: the word that is a null, and what the fields are; nothing if there is
/// none.
#[unsafe(no_mangle)]
pub extern "C" fn lanes_explain(
    alloc: Global,
    refused: &Refused,
    text: &[u8],
    table: &[u8],
    null_word: &[u8],
    columns: &[u8],
    room: &mut [u8],
) -> usize
    ensures { IsFilled (λ sentence. IsSaidOf refused.now.number sentence) result room.old room.new }
{
    match explained(alloc, refused, text, table, null_word, columns) {
        Ok(sentence) => {
            fill(sentence.as_slice(), room);
            sentence.len()
        }
        Err(_) => 0,
    }
}
