//! Identifiers, which name tables and columns, and are compared without regard to case.
ghost use Rattle.std.specs.Prelude.{◌≡◌, IfOk};
ghost use Rattle.std.specs.List.{list_all, list_any};
ghost use Rattle.std.specs.String.{string_bytes};
ghost use Rattle.table_model.specs.Identifier.{folded, same_text, is_word, is_word_byte, is_keyword, is_identifier};

use std::alloc::{AllocError, Global};

/// How many bytes a word has at most, and so the name of a table or a column.
pub const MAX_WORD: usize = 64;

/// The words of the query language, which name no table and no column.
const KEYWORDS: [&[u8]; 24] = [
    b"ALL",
    b"AND",
    b"AS",
    b"AVG",
    b"BETWEEN",
    b"BY",
    b"COUNT",
    b"DISTINCT",
    b"FALSE",
    b"FROM",
    b"GROUP",
    b"HAVING",
    b"IN",
    b"IS",
    b"MAX",
    b"MIN",
    b"NOT",
    b"NULL",
    b"OR",
    b"SELECT",
    b"SUM",
    b"TRUE",
    b"UNKNOWN",
    b"WHERE",
];

/// Whether two texts are the same, byte for byte.
pub fn same_text(a: &[u8], b: &[u8]) -> bool
    ensures { result ≡ same_text a.now b.now }
{
    a == b
}

/// Whether two texts are the same without regard to case.
pub fn same_word(a: &[u8], b: &[u8]) -> bool
    ensures { result ≡ same_text (folded a.now) (folded b.now) }
{
    a.eq_ignore_ascii_case(b)
}

/// Whether the text is a word: a letter, and then letters, digits and `_`, at most 64 bytes in all.
fn is_word(text: &[u8]) -> bool
    ensures { result ≡ is_word text.now }
{
    match text.split_first() {
        None => false,
        Some((first, rest)) => first.is_ascii_alphabetic()
            && are_word_bytes(rest)
            && rest.len() < MAX_WORD,
    }
}

/// Whether each byte is a letter, a digit or `_`.
fn are_word_bytes(text: &[u8]) -> bool
    ensures { result ≡ list_all is_word_byte text.now }
{
    text.iter().all(|b| is_word_byte(*b))
}

/// Whether the byte is a letter, a digit or `_`.
pub fn is_word_byte(byte: u8) -> bool
    ensures { result ≡ is_word_byte byte }
{
    byte.is_ascii_alphanumeric() || byte == b'_'
}

/// Whether the text is a keyword, in either case.
pub fn is_keyword(text: &[u8]) -> bool
    ensures { result ≡ is_keyword text.now }
{
    is_one_of(text, &KEYWORDS)
}

/// Whether the text is one of the words, without regard to case.
fn is_one_of(text: &[u8], words: &[&[u8]]) -> bool
    ensures { result ≡ list_any (λ word. same_text (folded text.now) (folded word.now)) words.now }
{
    words.iter().any(|word| same_word(text, word))
}

/// Whether the text names a table or a column: a word that is no keyword.
pub fn is_identifier(text: &[u8]) -> bool
    ensures { result ≡ is_identifier text.now }
{
    is_word(text) && !is_keyword(text)
}

/// The text in upper case.
pub fn folded_copy(alloc: Global, text: &str) -> Result<String, AllocError>
    ensures { IfOk result (λ copy. string_bytes copy ≡ folded text.now) }
{
    let mut copy = String::from_str(alloc, text)?;
    copy.make_ascii_uppercase();
    Ok(copy)
}
