//! The columns of an answer as arrays of a caller.
ghost use Rattle.std.specs.Prelude.{◌≡◌, ◌&&◌, IsTrue, length, map};
ghost use Rattle.lanes_c.specs.AnswerCells.{Puts, all_fit, field_in, fits, has_mean, has_room, has_whole, is_mean, is_whole, kind_of, mark_of, marks_in, number_in, numbers_in, wide_number};

use table_model::{AnswerRow, Field};

/// How many numbers a word has.
const WORD: i128 = 18_446_744_073_709_551_616;

/// A number of 128 bits in two words: 2^64 times the high one, and the low one.
#[derive(Clone, Copy)]
#[repr(C)]
pub struct Wide {
    pub low: u64,
    pub high: i64,
}

impl Wide {
    /// A number in two words.
    fn of(number: i128) -> Wide
        ensures { wide_number result ≡ number }
    {
        Wide {
            low: number.rem_euclid(WORD) as u64,
            high: number.div_euclid(WORD) as i64,
        }
    }
}

/// The field of a row in a column. A column that isn't there has nulls.
fn field_in(row: &AnswerRow, column: usize) -> Field
    ensures { result ≡ field_in column row.now }
{
    match row.fields().get(column) {
        Some(field) => *field,
        None => Field::Null,
    }
}

/// The number of a field: 0 at a null, and of a mean its millionths.
fn number_in(field: Field) -> i128
    ensures { result ≡ number_in field }
{
    match field {
        Field::Null => 0,
        Field::Whole(number) => number,
        Field::Millionths(number) => number,
    }
}

/// Whether a field is a whole number.
fn is_whole(field: Field) -> bool
    ensures { result ≡ is_whole field }
{
    matches!(field, Field::Whole(_))
}

/// Whether a field is a mean.
fn is_mean(field: Field) -> bool
    ensures { result ≡ is_mean field }
{
    matches!(field, Field::Millionths(_))
}

/// The mark of a field: 1 at a value, and 0 at a null.
fn mark_of(field: Field) -> u8
    ensures { result ≡ mark_of field }
{
    match field {
        Field::Null => 0,
        Field::Whole(_) => 1,
        Field::Millionths(_) => 1,
    }
}

/// Whether a number has 64 bits at most.
fn fits(number: i128) -> bool
    ensures { result ≡ fits number }
{
    -9_223_372_036_854_775_808 <= number && number <= 9_223_372_036_854_775_807
}

/// Whether all numbers of a column have 64 bits at most.
fn all_fit(rows: &[AnswerRow], column: usize) -> bool
    ensures { result ≡ all_fit column rows.now }
{
    rows.iter()
        .all(|row| fits(number_in(field_in(row, column))))
}

/// Whether one of some rows has a whole number in a column.
fn has_whole(rows: &[AnswerRow], column: usize) -> bool
    ensures { result ≡ has_whole column rows.now }
{
    rows.iter().any(|row| is_whole(field_in(row, column)))
}

/// Whether one of some rows has a mean in a column.
fn has_mean(rows: &[AnswerRow], column: usize) -> bool
    ensures { result ≡ has_mean column rows.now }
{
    rows.iter().any(|row| is_mean(field_in(row, column)))
}

/// The kind of a column: 0 if it has no value, 1 if it has whole numbers, 2 if it has means; 3 if it has both.
pub(crate) fn kind_of(rows: &[AnswerRow], column: usize) -> u8
    ensures { result ≡ kind_of column rows.now }
{
    u8::from(has_whole(rows, column)) + 2 * u8::from(has_mean(rows, column))
}

/// Writes the marks of a column.
fn write_marks(rows: &[AnswerRow], column: usize, marks: &mut [u8])
    requires { length marks.old ≡ length rows.now }
    ensures { marks.new ≡ marks_in column rows.now }
{
    for row in 0..rows.len() {
        marks[row] = mark_of(field_in(&rows[row], column));
    }
}

/// Writes the numbers of a column.
fn write_numbers(rows: &[AnswerRow], column: usize, numbers: &mut [i64])
    requires room { length numbers.old ≡ length rows.now }
    requires short { IsTrue (all_fit column rows.now) }
    ensures { numbers.new ≡ numbers_in column rows.now }
{
    for row in 0..rows.len() {
        numbers[row] = number_in(field_in(&rows[row], column)) as i64;
    }
}

/// Writes the numbers of a column in two words.
fn write_wides(rows: &[AnswerRow], column: usize, wides: &mut [Wide])
    requires { length wides.old ≡ length rows.now }
    ensures { map wide_number wides.new ≡ numbers_in column rows.now }
{
    for row in 0..rows.len() {
        wides[row] = Wide::of(number_in(field_in(&rows[row], column)));
    }
}

/// Writes the numbers and the marks of a column at the fronts of two arrays, if both have room and all numbers have 64 bits at most. It
/// answers whether they are written.
pub(crate) fn put_numbers(
    rows: &[AnswerRow],
    column: usize,
    numbers: &mut [i64],
    marks: &mut [u8],
) -> bool
    ensures written { result ≡ (has_room rows.now numbers.old marks.old && all_fit column rows.now) }
    ensures put { Puts result column rows.now numbers.old numbers.new marks.old marks.new }
{
    let count = rows.len();
    let has_room = count <= numbers.len() && count <= marks.len();
    if !(has_room && all_fit(rows, column)) {
        return false;
    }
    let (front, _) = numbers.split_at_mut(count);
    write_numbers(rows, column, front);
    let (front, _) = marks.split_at_mut(count);
    write_marks(rows, column, front);
    true
}

/// Writes a column into an array of numbers in two words, which has room for each number, and the marks into another one. It
/// answers whether they are written.
pub(crate) fn put_wides(
    rows: &[AnswerRow],
    column: usize,
    wides: &mut [Wide],
    marks: &mut [u8],
) -> bool
    ensures written { result ≡ has_room rows.now (map wide_number wides.old) marks.old }
    ensures put { Puts result column rows.now (map wide_number wides.old) (map wide_number wides.new) marks.old marks.new }
{
    let count = rows.len();
    if !(count <= wides.len() && count <= marks.len()) {
        return false;
    }
    let (front, _) = wides.split_at_mut(count);
    write_wides(rows, column, front);
    let (front, _) = marks.split_at_mut(count);
    write_marks(rows, column, front);
    true
}
