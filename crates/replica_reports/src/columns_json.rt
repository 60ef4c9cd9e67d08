//! Lines of cells as objects of JSON.
ghost use Rattle.std.specs.Prelude.{◌≡◌, ◌++◌, OnOk, codes, map};
ghost use Rattle.answer_formats.specs.Formats.{separated};
ghost use Rattle.replica_reports.specs.ColumnTexts.{json_cell, line_members, line_object, line_objects, member_text};

use crate::columns_text::{Line, separate};
use std::alloc::AllocError;

/// Puts a cell behind a text: `null` if it is `-`, else in quotes if it is a text, or as the number that it is.
fn push_value(out: &mut Vec<u8>, cell: &str, is_text: bool) -> Result<(), AllocError>
    ensures { OnOk result (out.new.items ≡ out.old.items ++ json_cell is_text cell.now) }
{
    if cell == "-" {
        return out.extend_from_slice(b"null");
    }
    if !is_text {
        return out.extend_from_slice(cell.as_bytes());
    }
    out.extend_from_slice(b"\"")?;
    out.extend_from_slice(cell.as_bytes())?;
    out.extend_from_slice(b"\"")
}

/// Puts a member of an object behind a text.
fn push_member(out: &mut Vec<u8>, key: &str, cell: &str, is_text: bool) -> Result<(), AllocError>
    ensures { OnOk result (out.new.items ≡ out.old.items ++ member_text is_text key.now cell.now) }
{
    out.extend_from_slice(b"\"")?;
    out.extend_from_slice(key.as_bytes())?;
    out.extend_from_slice(b"\":")?;
    push_value(out, cell, is_text)
}

/// Puts the members of a line's object behind a text.
fn push_members(out: &mut Vec<u8>, keys: &Line, line: &Line, texts: usize) -> Result<(), AllocError>
    ensures { OnOk result (out.new.items ≡ out.old.items ++ separated (codes ",") (line_members texts 0 keys.now line.now)) }
{
    for index in 0..keys.len().min(line.len()) {
        separate(out, b",", index)?;
        push_member(out, keys.cell(index), line.cell(index), index < texts)?;
    }
    Ok(())
}

/// Puts an object behind a text. The first a number of cells are texts, and the others numbers.
fn push_object(out: &mut Vec<u8>, keys: &Line, line: &Line, texts: usize) -> Result<(), AllocError>
    ensures { OnOk result (out.new.items ≡ out.old.items ++ line_object texts keys.now line.now) }
{
    out.extend_from_slice(b"{")?;
    push_members(out, keys, line, texts)?;
    out.extend_from_slice(b"}")
}

/// Puts the objects of lines behind a text, with commas between.
fn push_each(out: &mut Vec<u8>, keys: &Line, lines: &[Line], texts: usize) -> Result<(), AllocError>
    ensures { OnOk result (out.new.items ≡ out.old.items ++ separated (codes ",") (map (line_object texts keys.now) lines.now)) }
{
    for index in 0..lines.len() {
        separate(out, b",", index)?;
        push_object(out, keys, &lines[index], texts)?;
    }
    Ok(())
}

/// Puts a list of objects behind a text, one for each line.
pub(crate) fn push_objects(
    out: &mut Vec<u8>,
    keys: &Line,
    lines: &[Line],
    texts: usize,
) -> Result<(), AllocError>
    ensures { OnOk result (out.new.items ≡ out.old.items ++ line_objects texts keys.now lines.now) }
{
    out.extend_from_slice(b"[")?;
    push_each(out, keys, lines, texts)?;
    out.extend_from_slice(b"]")
}
