//! The words and symbols of a query's text, for the words of cures.

use table_model::{is_word_byte, same_word};

/// Whether a byte is of no word.
fn is_between(byte: &u8) -> bool {
    !is_word_byte(*byte)
}

/// The word or the symbol that a text begins with; empty if the text is.
pub fn first_token(text: &[u8]) -> &[u8] {
    let length = match text {
        [b'<', b'=' | b'>', ..] | [b'>', b'=', ..] => 2,
        _ => match text.iter().position(is_between) {
            Some(0) => 1,
            Some(length) => length,
            None => text.len(),
        },
    };
    let (token, _) = text.split_at(length.min(text.len()));
    token
}

/// The word or the symbol that a text ends with, but for white space; empty if the text has none.
pub fn last_token(text: &[u8]) -> &[u8] {
    let text = text.trim_ascii_end();
    let length = match text {
        [.., b'<', b'=' | b'>'] | [.., b'>', b'='] => 2,
        _ => match text.iter().rposition(is_between) {
            Some(at) if at.saturating_add(1) == text.len() => 1,
            Some(at) => text.len().saturating_sub(at).saturating_sub(1),
            None => text.len(),
        },
    };
    let (_, token) = text.split_at(text.len().saturating_sub(length));
    token
}

/// A text without its first word or symbol, and without the white space behind it.
pub fn without_token<'a>(text: &'a [u8], token: &[u8]) -> &'a [u8] {
    let (_, rest) = text.split_at(token.len().min(text.len()));
    rest.trim_ascii_start()
}

/// Whether a word or a symbol is this symbol.
pub fn is_symbol(token: &[u8], symbol: u8) -> bool {
    match token {
        [only] => *only == symbol,
        _ => false,
    }
}

/// Whether a word is one of these, in either case.
pub fn is_one_of(word: &[u8], words: &[&[u8]]) -> bool {
    words.iter().any(|other| same_word(word, other))
}

/// Whether a word is the name of a set function.
pub fn is_function(word: &[u8]) -> bool {
    is_one_of(word, &[b"COUNT", b"SUM", b"AVG", b"MIN", b"MAX"])
}

/// Whether a symbol compares two numbers.
pub fn is_comparison(token: &[u8]) -> bool {
    matches!(token, b"=" | b"<>" | b"<" | b"<=" | b">" | b">=")
}

/// Whether a word begins with a digit.
pub fn is_numeral(word: &[u8]) -> bool {
    word.first().is_some_and(u8::is_ascii_digit)
}

/// The place of the last parenthesis in a text that is open at its end.
pub fn open_parenthesis(text: &[u8]) -> Option<usize> {
    let mut closed = 0usize;
    for (at, byte) in text.iter().enumerate().rev() {
        match *byte {
            b')' => closed = closed.saturating_add(1),
            b'(' if closed == 0 => return Some(at),
            b'(' => closed = closed.saturating_sub(1),
            _ => {}
        }
    }
    None
}
