//! The order of the columns in a text.
ghost use Rattle.std.specs.Prelude.{◌≡◌, ◌==◌, [], ◌∷◌, ◌++◌, ℕ, length, map, option_map, option_and_then, position, IfOk, Ok, Err, Option};
ghost use Rattle.std.specs.List.{list_any, range_with_len};
ghost use Rattle.table_model.specs.Table.{has_name};
ghost use Rattle.csv_rows.specs.CsvText.{each_of, own_order};
ghost use Rattle.csv_rows.specs.declared.order.WordError.TheVariants.{Memory};
ghost use Rattle.csv_rows.specs.Wording.{ReadsWords, is_of, place_of, unused, word_field, order_of_words};

use crate::bytes::first_field;
use std::alloc::{AllocError, AllocFailed, Global};
use std::error::Error;
use std::fmt;
use std::marker::Model;
use table_model::{Column, same_text, same_word};

/// What separates the words of a list.
const COMMA: u8 = b',';

/// For each field of a line, from the left, the place of its column in the schema; none if the field is passed over. Contracts see it as
/// that list.
#[derive(Debug, Drop)]
pub struct Order {
    fields: Vec<Option<usize>>,
}

impl Model for Order {
    ghost use Rattle.std.specs.Prelude.{List, Option, ℕ};

    ghost Value = { List (Option ℕ) };

    ghost view = { λ order. order.fields.items };
}

impl Order {
    /// The order of the columns in the schema.
    pub(crate) fn own(alloc: Global, columns: &[Column]) -> Result<Order, AllocError>
        ensures { IfOk result (λ order. order ≡ own_order columns.now) }
    {
        let mut places = Vec::with_capacity(alloc, columns.len())?;
        for place in 0..columns.len() {
            places.push(place)?;
        }
        Order::of_each(alloc, places.as_slice())
    }

    /// The order of the columns of these places, one field for each.
    pub(crate) fn of_each(alloc: Global, places: &[usize]) -> Result<Order, AllocError>
        ensures { IfOk result (λ order. order ≡ each_of places.now) }
    {
        let fields = places.iter().map(|place| Some(*place)).collect(alloc)?;
        Ok(Order { fields })
    }

    /// The order that a list of words says, with a comma between each two: a word is the name of a column in any case, or `-` for a field
    /// that is passed over.
    pub fn of_words(alloc: Global, columns: &[Column], words: &[u8]) -> Result<Order, WordError>
        ensures { ReadsWords result (order_of_words columns.now words.now) }
    {
        let mut fields = Vec::new(alloc);
        let mut rest = Some(words);
        while let Some(text) = rest {
            let (word, after) = first_field(text, COMMA);
            let Some(field) = word_field(columns, fields.as_slice(), word) else {
                return Err(WordError::NoNewColumn(fields.len() as u64 + 1));
            };
            fields.push(field)?;
            rest = after;
        }
        Ok(Order { fields })
    }

    /// A copy.
    pub(crate) fn copy(&self, alloc: Global) -> Result<Order, AllocError>
        ensures { IfOk result (λ order. order ≡ self.now) }
    {
        let fields = Vec::from_slice(alloc, self.fields.as_slice())?;
        Ok(Order { fields })
    }

    /// The fields.
    pub(crate) fn fields(&self) -> &[Option<usize>]
        ensures { result.now ≡ self.now }
    {
        self.fields.as_slice()
    }
}

/// Why a list of words is no order.
#[derive(Clone, Copy, Debug, PartialEq, Eq)]
pub enum WordError {
    /// This word, counted from 1, names no column, or one for the second time.
    NoNewColumn(u64),
    /// Out of memory.
    Memory,
}

impl fmt::Display for WordError {
    fn fmt<W: fmt::Write>(&self, f: &mut fmt::Formatter<W>) -> fmt::Result {
        match self {
            WordError::NoNewColumn(word) => {
                write!(f, "word {word} names no column, or one for the second time")
            }
            WordError::Memory => f.write_str("out of memory"),
        }
    }
}

impl Error for WordError {}

/// The place of the column of this name, in any case.
fn place_of(columns: &[Column], name: &[u8]) -> Option<usize>
    ensures { result ≡ place_of columns.now name.now }
{
    columns
        .iter()
        .position(|column| same_word(column.name().as_bytes(), name))
}

/// Whether a field is of the column of this place.
fn is_of(place: usize, field: Option<usize>) -> bool
    ensures { result ≡ is_of place field }
{
    match field {
        None => false,
        Some(found) => found == place,
    }
}

/// Whether one of some fields is of the column of this place.
fn has_field(fields: &[Option<usize>], place: usize) -> bool
    ensures { result ≡ list_any (is_of place) fields.now }
{
    fields.iter().any(|field| is_of(place, *field))
}

/// The field of a column, if none of the fields before it is of this column.
fn unused(before: &[Option<usize>], place: usize) -> Option<Option<usize>>
    ensures { result ≡ unused before.now place }
{
    if has_field(before, place) {
        None
    } else {
        Some(Some(place))
    }
}

/// What a word says of a field, behind these fields: that it is passed over, or which column it is of, if it names one that no field is of.
fn word_field(columns: &[Column], before: &[Option<usize>], word: &[u8]) -> Option<Option<usize>>
    ensures { result ≡ word_field columns.now before.now word.now }
{
    if same_text(word, b"-") {
        return Some(None);
    }
    let place = place_of(columns, word)?;
    unused(before, place)
}

impl From<AllocError> for WordError {
    ghost from_gives = { λ _ e. e ≡ Memory };

    fn from(_e: AllocError) -> WordError {
        WordError::Memory
    }
}

impl<T: Drop> From<AllocFailed<T>> for WordError {
    ghost from_gives = { λ _ e. e ≡ Memory };

    fn from(_e: AllocFailed<T>) -> WordError {
        WordError::Memory
    }
}
