//! Answers as comma-separated values.
ghost use Rattle.std.specs.Prelude.{◌≡◌, ◌++◌, OnOk, IfOk, map, ◌∷◌, []};
ghost use Rattle.std.specs.List.{flat_map};
ghost use Rattle.table_model.specs.Answer.{line_of};
ghost use Rattle.answer_formats.specs.Formats.{csv_field, csv_rows_text, csv_answer};

use crate::answer_text::{write_field, write_heading};
use std::alloc::{AllocError, Global};
use table_model::{Answer, AnswerRow, Field};

/// The text of an answer as comma-separated values: a null is an empty field.
pub(crate) fn csv_text(alloc: Global, answer: &Answer) -> Result<Vec<u8>, AllocError>
    ensures { IfOk result (λ written. written.items ≡ csv_answer answer.now) }
{
    let mut out = Vec::new(alloc);
    write_heading(&mut out, answer.heading())?;
    write_rows(&mut out, answer.rows())?;
    Ok(out)
}

/// Writes a line for each row.
fn write_rows(out: &mut Vec<u8>, rows: &[AnswerRow]) -> Result<(), AllocError>
    ensures { OnOk result (out.new.items ≡ out.old.items ++ csv_rows_text rows.now) }
{
    for row in rows {
        write_row(out, row.fields())?;
    }
    Ok(())
}

/// Writes the fields of a row, joined by commas, and a line feed.
fn write_row(out: &mut Vec<u8>, fields: &[Field]) -> Result<(), AllocError>
    ensures { OnOk result (out.new.items ≡ out.old.items ++ line_of (map csv_field fields.now)) }
{
    let Some((first, rest)) = fields.split_first() else {
        return out.extend_from_slice(b"\n");
    };
    write_value(out, *first)?;
    write_more_values(out, rest)?;
    out.extend_from_slice(b"\n")?;
    Ok(())
}

/// Writes each field with a comma before it.
fn write_more_values(out: &mut Vec<u8>, fields: &[Field]) -> Result<(), AllocError>
    ensures { OnOk result (out.new.items ≡ out.old.items ++ flat_map (λ field. 44 ∷ csv_field field) fields.now) }
{
    for field in fields {
        out.extend_from_slice(b",")?;
        write_value(out, *field)?;
    }
    Ok(())
}

/// Writes a field; of a null nothing.
fn write_value(out: &mut Vec<u8>, field: Field) -> Result<(), AllocError>
    ensures { OnOk result (out.new.items ≡ out.old.items ++ csv_field field) }
{
    match field {
        Field::Null => Ok(()),
        Field::Whole(value) => write_field(out, Field::Whole(value)),
        Field::Millionths(value) => write_field(out, Field::Millionths(value)),
    }
}
