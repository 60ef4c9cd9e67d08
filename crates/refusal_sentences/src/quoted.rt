//! Texts of others, as a terminal can show them.

use std::{fmt, str};

/// How many bytes of an input are quoted at most.
const QUOTED_BYTES: usize = 40;

/// The first 40 bytes of an input in double quotes, and two points behind them if it has more. A character that can be seen is written
/// as it is, each other one as [`write_letter`] does, and a byte that is of no character of UTF-8 as `\xNN`.
#[derive(Clone, Copy, Debug)]
pub struct Quoted<'a>(pub &'a [u8]);

impl<'a> fmt::Display for Quoted<'a> {
    fn fmt<W: fmt::Write>(&self, f: &mut fmt::Formatter<W>) -> fmt::Result {
        f.write_str("\"")?;
        for chunk in whole_letters(self.0).utf8_chunks() {
            write_letters(chunk.valid(), f)?;
            write_bytes(chunk.invalid(), f)?;
        }
        let is_cut = self.0.len() > QUOTED_BYTES;
        f.write_str(if is_cut { "\".." } else { "\"" })
    }
}

/// The first 40 bytes of an input, without a character that they cut.
fn whole_letters(input: &[u8]) -> &[u8] {
    let (quoted, _) = input.split_at(input.len().min(QUOTED_BYTES));
    if input.len() <= QUOTED_BYTES {
        return quoted;
    }
    match str::from_utf8(quoted) {
        Err(cut) if cut.error_len().is_none() => {
            let (whole, _) = quoted.split_at(cut.valid_up_to().min(quoted.len()));
            whole
        }
        _ => quoted,
    }
}

/// Writes characters, so that each can be seen.
fn write_letters<W: fmt::Write>(text: &str, f: &mut fmt::Formatter<W>) -> fmt::Result {
    for letter in text.chars() {
        write_letter(letter, f)?;
    }
    Ok(())
}

/// Writes bytes that are of no character.
fn write_bytes<W: fmt::Write>(bytes: &[u8], f: &mut fmt::Formatter<W>) -> fmt::Result {
    for byte in bytes {
        write!(f, "\\x{byte:02X}")?;
    }
    Ok(())
}

/// Writes a character: as it is if it can be seen, a control character of ASCII as `\xNN`, and another one as `\u{NNNN}`.
fn write_letter<W: fmt::Write>(letter: char, f: &mut fmt::Formatter<W>) -> fmt::Result {
    let number = u32::from(letter);
    if number == 0x20 || !(letter.is_control() || letter.is_whitespace() || is_unseen(number)) {
        f.write_char(letter)
    } else if number < 0x80 {
        write!(f, "\\x{number:02X}")
    } else {
        write!(f, "\\u{{{number:X}}}")
    }
}

/// Whether a character of this number takes no room, or turns the direction in which a terminal writes.
fn is_unseen(number: u32) -> bool {
    matches!(
        number,
        0xad | 0x61c | 0x180e | 0x200b..=0x200f | 0x202a..=0x202e | 0x2060..=0x206f | 0xfeff
            | 0xfff9..=0xfffb | 0xe0000..=0xe0fff
    )
}

/// A name that a person gave, each control character written as a space.
#[derive(Clone, Copy, Debug)]
pub struct Printable<'a>(pub &'a str);

impl<'a> fmt::Display for Printable<'a> {
    fn fmt<W: fmt::Write>(&self, f: &mut fmt::Formatter<W>) -> fmt::Result {
        for letter in self.0.chars() {
            f.write_char(if letter.is_control() { ' ' } else { letter })?;
        }
        Ok(())
    }
}
