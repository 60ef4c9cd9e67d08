//! Answers as objects of JSON.
ghost use Rattle.std.specs.Prelude.{◌≡◌, ◌++◌, ◌∷◌, OnOk, IfOk, map, []};
ghost use Rattle.std.specs.String.{string_bytes};
ghost use Rattle.answer_formats.specs.Formats.{separated, json_value, json_member, json_members, json_object, json_rows_text, json_answer};

use crate::answer_text::write_field;
use crate::separated::separate;
use std::alloc::{AllocError, Global};
use table_model::{Answer, AnswerRow, Field};

/// The text of an answer as objects: one a row and line, whose keys are the headings.
pub(crate) fn json_text(alloc: Global, answer: &Answer) -> Result<Vec<u8>, AllocError>
    ensures { IfOk result (λ written. written.items ≡ json_answer answer.now) }
{
    let mut out = Vec::new(alloc);
    write_objects(&mut out, answer.heading(), answer.rows())?;
    Ok(out)
}

/// Writes a line for each row.
fn write_objects(
    out: &mut Vec<u8>,
    headings: &[String],
    rows: &[AnswerRow],
) -> Result<(), AllocError>
    ensures { OnOk result (out.new.items ≡ out.old.items ++ json_rows_text (map string_bytes headings.now) rows.now) }
{
    for row in rows {
        write_object(out, headings, row.fields())?;
    }
    Ok(())
}

/// Writes the object of a row, and a line feed.
fn write_object(out: &mut Vec<u8>, headings: &[String], fields: &[Field]) -> Result<(), AllocError>
    ensures { OnOk result (out.new.items ≡ out.old.items ++ json_object (map string_bytes headings.now) fields.now) }
{
    out.extend_from_slice(b"{")?;
    write_members(out, headings, fields)?;
    out.extend_from_slice(b"}\n")?;
    Ok(())
}

/// Writes the members of a row's object.
fn write_members(out: &mut Vec<u8>, headings: &[String], fields: &[Field]) -> Result<(), AllocError>
    ensures { OnOk result (out.new.items ≡ out.old.items ++ separated (44 ∷ []) (json_members (map string_bytes headings.now) fields.now)) }
{
    for index in 0..headings.len().min(fields.len()) {
        separate(out, b",", index)?;
        write_member(out, headings[index].as_str(), fields[index])?;
    }
    Ok(())
}

/// Writes a member.
fn write_member(out: &mut Vec<u8>, heading: &str, field: Field) -> Result<(), AllocError>
    ensures { OnOk result (out.new.items ≡ out.old.items ++ json_member heading.now field) }
{
    out.extend_from_slice(b"\"")?;
    out.extend_from_slice(heading.as_bytes())?;
    out.extend_from_slice(b"\":")?;
    write_value(out, field)
}

/// Writes a field as a value.
fn write_value(out: &mut Vec<u8>, field: Field) -> Result<(), AllocError>
    ensures { OnOk result (out.new.items ≡ out.old.items ++ json_value field) }
{
    match field {
        Field::Null => out.extend_from_slice(b"null"),
        Field::Whole(value) => write_field(out, Field::Whole(value)),
        Field::Millionths(value) => write_field(out, Field::Millionths(value)),
    }
}
