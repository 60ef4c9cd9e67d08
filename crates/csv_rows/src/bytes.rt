//! Texts cut at a byte.
ghost use Rattle.std.specs.Prelude.{◌≡◌, cond, ◌∷◌, ◌≤◌, ◌+◌, ◌==◌, length, position, option_map, Some};
ghost use Rattle.csv_rows.specs.Line.{before_last, after_mark};
ghost use Rattle.table_model.specs.Pieces.{without};
ghost use Rattle.csv_rows.specs.Field.{quoted, unquoted, fields_of, fields_left, left_len};

/// What follows such a byte at the start of the text, if it starts with one.
pub fn without(text: &[u8], byte: u8) -> Option<&[u8]>
    ensures { option_map (λ rest. rest.now) result ≡ without byte text.now }
{
    let Some((first, rest)) = text.split_first() else {
        return None;
    };
    if *first == byte { Some(rest) } else { None }
}

/// What comes before such a byte at the end of the text, if it ends with one.
pub fn before_last(text: &[u8], byte: u8) -> Option<&[u8]>
    ensures { option_map (λ front. front.now) result ≡ before_last byte text.now }
{
    let Some((last, front)) = text.split_last() else {
        return None;
    };
    if *last == byte { Some(front) } else { None }
}

/// What is between double quotes, if the text begins and ends with one.
fn quoted(text: &[u8]) -> Option<&[u8]>
    ensures { option_map (λ inside. inside.now) result ≡ quoted text.now }
{
    let rest = without(text, b'"')?;
    before_last(rest, b'"')
}

/// The text without the double quotes around it, if it has them.
pub fn unquoted(text: &[u8]) -> &[u8]
    ensures { result.now ≡ unquoted text.now }
{
    match quoted(text) {
        None => text,
        Some(inside) => inside,
    }
}

/// What follows a byte order mark at the start of the text, if it starts with one.
pub fn after_mark(text: &[u8]) -> Option<&[u8]>
    ensures { option_map (λ rest. rest.now) result ≡ after_mark text.now }
{
    let rest = without(text, 0xEF)?;
    let rest = without(rest, 0xBB)?;
    without(rest, 0xBF)
}

/// The place of the first separator.
fn first_separator(text: &[u8], separator: u8) -> Option<usize>
    ensures { result ≡ position (λ byte. byte == separator) text.now }
{
    text.iter().position(|byte| *byte == separator)
}

/// The first field, and what follows its separator if it has one.
pub fn first_field(text: &[u8], separator: u8) -> (&[u8], Option<&[u8]>)
    ensures fields { fields_of separator text.now ≡ result.0.now ∷ fields_left separator (option_map (λ rest. rest.now) result.1) }
    ensures shorter { left_len (option_map (λ rest. rest.now) result.1) ≤ length text.now }
{
    match first_separator(text, separator) {
        None => (text, None),
        Some(end) => (&text[..end], Some(&text[end + 1..])),
    }
}

/// How many separators a byte is.
#[inline]
fn separators_in(byte: u8, separator: u8) -> usize
    ensures count { result ≡ cond (byte == separator) 1 0 }
    ensures bound { result ≤ 1 }
{
    if byte == separator { 1 } else { 0 }
}

/// How many fields a line has: at least one.
pub fn count_fields(line: &[u8], separator: u8) -> usize
    ensures { result ≡ length (fields_of separator line.now) }
{
    let mut separators: usize = 0;
    for byte in line {
        separators += separators_in(*byte, separator);
    }
    separators + 1
}
