//! The texts of answers.
ghost use Rattle.std.specs.Prelude.{◌≡◌, ◌∷◌, [], ◌++◌, ◌<◌, ◌^◌, OnOk, IfOk, map};
ghost use Rattle.std.specs.Fmt.{signed_decimal};
ghost use Rattle.std.specs.String.{string_bytes};
ghost use Rattle.std.specs.List.{flat_map};
ghost use Rattle.table_model.specs.Answer.{field_text, line_of, rows_text, answer_text, six_digits, millionths_text};

use itoa::Buffer;
use std::alloc::{AllocError, Global};
use table_model::{Answer, AnswerRow, Field};

/// What is written in front of a number with fewer than six digits.
const ZEROS: &[u8] = b"000000";

/// The text of an answer: its heading's line, and a line for each row; fields are joined by commas, and each line ends with a
/// line feed.
pub fn text(alloc: Global, answer: &Answer) -> Result<Vec<u8>, AllocError>
    ensures { IfOk result (λ written. written.items ≡ answer_text answer.now) }
{
    let mut out = Vec::new(alloc);
    write_answer(&mut out, answer)?;
    Ok(out)
}

/// Writes the text of an answer.
pub fn write_answer(out: &mut Vec<u8>, answer: &Answer) -> Result<(), AllocError>
    ensures { OnOk result (out.new.items ≡ out.old.items ++ answer_text answer.now) }
{
    write_heading(out, answer.heading())?;
    write_rows(out, answer.rows())
}

/// Writes the texts of a heading, joined by commas, and a line feed.
pub(crate) fn write_heading(out: &mut Vec<u8>, texts: &[String]) -> Result<(), AllocError>
    ensures { OnOk result (out.new.items ≡ out.old.items ++ line_of (map string_bytes texts.now)) }
{
    let Some((first, rest)) = texts.split_first() else {
        return out.extend_from_slice(b"\n");
    };
    out.extend_from_slice(first.as_bytes())?;
    write_more_texts(out, rest)?;
    out.extend_from_slice(b"\n")?;
    Ok(())
}

/// Writes each text with a comma before it.
fn write_more_texts(out: &mut Vec<u8>, texts: &[String]) -> Result<(), AllocError>
    ensures { OnOk result (out.new.items ≡ out.old.items ++ flat_map (λ text. 44 ∷ string_bytes text) texts.now) }
{
    for text in texts {
        out.extend_from_slice(b",")?;
        out.extend_from_slice(text.as_bytes())?;
    }
    Ok(())
}

/// Writes a line for each row.
fn write_rows(out: &mut Vec<u8>, rows: &[AnswerRow]) -> Result<(), AllocError>
    ensures { OnOk result (out.new.items ≡ out.old.items ++ rows_text rows.now) }
{
    for row in rows {
        write_row(out, row.fields())?;
    }
    Ok(())
}

/// Writes the fields of a row, joined by commas, and a line feed.
fn write_row(out: &mut Vec<u8>, fields: &[Field]) -> Result<(), AllocError>
    ensures { OnOk result (out.new.items ≡ out.old.items ++ line_of (map field_text fields.now)) }
{
    let Some((first, rest)) = fields.split_first() else {
        return out.extend_from_slice(b"\n");
    };
    write_field(out, *first)?;
    write_more_fields(out, rest)?;
    out.extend_from_slice(b"\n")?;
    Ok(())
}

/// Writes each field with a comma before it.
fn write_more_fields(out: &mut Vec<u8>, fields: &[Field]) -> Result<(), AllocError>
    ensures { OnOk result (out.new.items ≡ out.old.items ++ flat_map (λ field. 44 ∷ field_text field) fields.now) }
{
    for field in fields {
        out.extend_from_slice(b",")?;
        write_field(out, *field)?;
    }
    Ok(())
}

/// Writes a field.
pub(crate) fn write_field(out: &mut Vec<u8>, field: Field) -> Result<(), AllocError>
    ensures { OnOk result (out.new.items ≡ out.old.items ++ field_text field) }
{
    match field {
        Field::Null => out.extend_from_slice(b"NULL"),
        Field::Whole(value) => write_whole(out, value),
        Field::Millionths(value) => write_millionths(out, value),
    }
}

/// Writes a whole number.
fn write_whole(out: &mut Vec<u8>, value: i128) -> Result<(), AllocError>
    ensures { OnOk result (out.new.items ≡ out.old.items ++ signed_decimal value) }
{
    let mut buffer = Buffer::new();
    out.extend_from_slice(buffer.format(value).as_bytes())
}

/// Writes a number of millionths with six decimals.
fn write_millionths(out: &mut Vec<u8>, value: i128) -> Result<(), AllocError>
    ensures { OnOk result (out.new.items ≡ out.old.items ++ field_text (Field.Millionths value)) }
{
    if value < 0 {
        out.extend_from_slice(b"-")?;
        return write_decimals(out, value.unsigned_abs());
    }
    write_decimals(out, value.unsigned_abs())
}

/// Writes a number of millionths that has no sign.
fn write_decimals(out: &mut Vec<u8>, value: u128) -> Result<(), AllocError>
    ensures { OnOk result (out.new.items ≡ out.old.items ++ millionths_text value) }
{
    let mut buffer = Buffer::new();
    out.extend_from_slice(buffer.format(value / 1_000_000).as_bytes())?;
    out.extend_from_slice(b".")?;
    write_six_digits(out, (value % 1_000_000) as u64)
}

/// Writes six digits.
fn write_six_digits(out: &mut Vec<u8>, value: u64) -> Result<(), AllocError>
    requires { value < 10 ^ 6 }
    ensures { OnOk result (out.new.items ≡ out.old.items ++ six_digits value) }
{
    let mut buffer = Buffer::new();
    let digits = buffer.format(value).as_bytes();
    let (_, zeros) = ZEROS.split_at(digits.len());
    out.extend_from_slice(zeros)?;
    out.extend_from_slice(digits)?;
    Ok(())
}
