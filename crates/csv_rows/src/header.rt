//! What the fields of a text are, as its header says it.
ghost use Rattle.std.specs.Prelude.{◌≡◌, [], ℕ, ◌<◌, ◌≤◌, length, option_map, position, MatchOption, Ok, Err, IfSome, IfOk};
ghost use Rattle.table_model.specs.Table.{has_name};
ghost use Rattle.csv_rows.specs.Field.{fields_of, unquoted};
ghost use Rattle.csv_rows.specs.Line.{line_limit};
ghost use Rattle.csv_rows.specs.CsvText.{place_named, new_place, in_line, order_from, unless_row, named_order, row_of, header_order};
ghost use Rattle.csv_rows.specs.LinesForm.{last_read};
ghost use Rattle.csv_rows.specs.Outcome.{ReadsCsv};

use crate::bytes::{count_fields, first_field, unquoted};
use crate::dialect::Dialect;
use crate::error::CsvError;
use crate::lines::Lines;
use crate::order::Order;
use crate::row::read_row;
use std::alloc::Global;
use table_model::{Column, Refusal, same_word};

/// The order that a header gives, which is the line that was read last. It has as many fields as each line. It names all columns, unless the dialect says what the fields are;
/// then it is any line that is no row.
#[tactic(auto, unfolding(crate::specs::CsvText::header_order))]
pub fn order_of_header(
    alloc: Global,
    dialect: &Dialect,
    columns: &[Column],
    lines: &Lines,
) -> Result<Order, CsvError>
    requires { length lines.now.line ≤ line_limit }
    ensures { ReadsCsv (λ order. order) result (header_order dialect.now columns.now (last_read lines.now)) }
{
    let line = lines.line();
    if dialect.is_cut(lines.has_end()) {
        return Err(CsvError::BadCsv { line: 1, column: 0 });
    }
    if line.is_empty() || count_fields(line, dialect.separator()) != dialect.width(columns) {
        return Err(CsvError::BadCsv { line: 1, column: 0 });
    }
    named_order(alloc, dialect, columns, line)
}

/// The order that the names of a header's fields give, unless the dialect says what the fields are.
fn named_order(
    alloc: Global,
    dialect: &Dialect,
    columns: &[Column],
    line: &[u8],
) -> Result<Order, CsvError>
    requires { length line.now ≤ line_limit }
    ensures { ReadsCsv (λ order. order) result (named_order dialect.now dialect.now.order columns.now line.now) }
{
    match dialect.order() {
        Some(order) => unless_row(alloc, dialect, columns, order, line),
        None => {
            let places = places_named(alloc, dialect.separator(), columns, line)?;
            Ok(Order::of_each(alloc, places.as_slice())?)
        }
    }
}

/// An order, unless a first line is a row by it: then there is no header.
fn unless_row(
    alloc: Global,
    dialect: &Dialect,
    columns: &[Column],
    order: &Order,
    line: &[u8],
) -> Result<Order, CsvError>
    requires { length line.now ≤ line_limit }
    ensures { ReadsCsv (λ order. order) result (unless_row order.now (in_line 1 (row_of dialect.now columns.now order.now line.now))) }
{
    let mut cells = Vec::new(alloc);
    match read_row(dialect, columns, order.fields(), 1, line, &mut cells) {
        Ok(()) => Err(CsvError::BadCsv { line: 1, column: 0 }),
        Err(CsvError::BadCsv { .. }) => Ok(order.copy(alloc)?),
        // A line has no other fault, so there is no memory.
        Err(_) => Err(CsvError::Refused(Refusal::Memory)),
    }
}

/// The place of the column that a header's field names.
fn place_named(columns: &[Column], field: &[u8]) -> Option<usize>
    ensures { result ≡ place_named columns.now field.now }
{
    let name = unquoted(field);
    columns
        .iter()
        .position(|column| same_word(column.name().as_bytes(), name))
}

/// The place of the column that a header's field names, if it names one that isn't among those named already.
fn new_place(columns: &[Column], named: &[usize], field: &[u8]) -> Option<usize>
    ensures { MatchOption result ((at : ℕ) → new_place at named.now (place_named columns.now field.now) ≡ Err at) (λ place. (at : ℕ) → new_place at named.now (place_named columns.now field.now) ≡ Ok place) }
{
    let place = place_named(columns, field)?;
    if named.contains(&place) {
        None
    } else {
        Some(place)
    }
}

/// The places of the columns that a header's fields name.
#[tactic(auto, using(crate::proofs::RowFacts::order_more, crate::proofs::RowFacts::order_stop))]
fn places_named(
    alloc: Global,
    separator: u8,
    columns: &[Column],
    line: &[u8],
) -> Result<Vec<usize>, CsvError>
    ensures { ReadsCsv (λ places. places.items) result (in_line 1 (order_from columns.now 1 [] (fields_of separator line.now))) }
{
    let mut places = Vec::with_capacity(alloc, columns.len())?;
    let mut rest = Some(line);
    while let Some(text) = rest {
        let (field, after) = first_field(text, separator);
        let Some(place) = new_place(columns, places.as_slice(), field) else {
            let column = places.len() as u64 + 1;
            return Err(CsvError::BadCsv { line: 1, column });
        };
        places.push(place)?;
        rest = after;
    }
    Ok(places)
}
