//! The columns of a line that makes a table.
ghost use Rattle.std.specs.Prelude.{◌≡◌, ◌∷◌, ◌<◌, ◌≤◌, map, option_map, option_and_then, IfSome};
ghost use Rattle.script_lines.specs.Reading.{ReadsPart};
ghost use Rattle.table_model.specs.Pieces.{pieces};
ghost use Rattle.script_lines.specs.Line.{columns_of, words_left, left_len};

use crate::words::{cut, some_text};
use std::alloc::Global;
use table_model::{ColType, Refusal};

/// The columns that the words of a text name: a name and a type for each.
pub fn columns<'a>(alloc: Global, text: &'a str) -> Result<Vec<(&'a str, ColType)>, Refusal>
    ensures { ReadsPart (λ columns. map (λ column. (column.0.now, column.1)) columns.items) result (columns_of (pieces 32 text.now)) }
{
    let mut columns = Vec::new(alloc);
    let mut rest = Some(text);
    while let Some(words) = rest {
        let Some((name, column_type, more)) = column(words) else {
            return Err(Refusal::BadLine);
        };
        columns.push((name, column_type))?;
        rest = more;
    }
    Ok(columns)
}

/// The column that two words begin with, and what follows them.
fn column<'a>(words: &'a str) -> Option<(&'a str, ColType, Option<&'a str>)>
    ensures column { columns_of (pieces 32 words.now)
        ≡ option_and_then (λ column. option_map (λ columns. (column.0.now, column.1) ∷ columns) (columns_of (words_left (option_map (λ rest. rest.now) column.2)))) result }
    ensures shorter { IfSome result (λ column. left_len (option_map (λ rest. rest.now) column.2) < left_len (Some words.now)) }
{
    let (name, after) = cut(words, ' ')?;
    let (word, more) = first_word(after);
    let name = some_text(name)?;
    let column_type = ColType::named(word)?;
    Some((name, column_type, more))
}

/// The first word, and what follows its space if it has one.
fn first_word<'a>(text: &'a str) -> (&'a str, Option<&'a str>)
    ensures words { pieces 32 text.now ≡ result.0.now ∷ words_left (option_map (λ rest. rest.now) result.1) }
    ensures shorter { left_len (option_map (λ rest. rest.now) result.1) ≤ left_len (Some text.now) }
{
    match cut(text, ' ') {
        None => (text, None),
        Some((word, rest)) => (word, Some(rest)),
    }
}
