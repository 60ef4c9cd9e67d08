//! A text's tokens.
ghost use Rattle.std.specs.Prelude.{◌≡◌, ◌≤◌, ◌+◌, IsTrue, IfOk, take_while, length, option_map, map, nat_eq, ◌∷◌};
ghost use Rattle.std.specs.List.{list_all, starts_with};
ghost use Rattle.std.specs.Char.{is_ascii_digit};
ghost use Rattle.table_model.specs.Identifier.{is_word_byte, folded, same_text};
ghost use Rattle.query_parser.specs.Token.{first_spelling, keyword_of, symbol_of, word_kind, digits_kind, first_token, is_white, tokens_of};

use crate::token::{Kind, Sign, Token, Word};
use std::alloc::{AllocError, AllocFailed, Global};
use table_model::{MAX_WORD, is_word_byte, same_word};

/// The keywords, in upper case.
pub(crate) const KEYWORDS: [(&[u8], Sign); 24] = [
    (b"ALL", Sign::All),
    (b"AND", Sign::And),
    (b"AS", Sign::As),
    (b"AVG", Sign::Avg),
    (b"BETWEEN", Sign::Between),
    (b"BY", Sign::By),
    (b"COUNT", Sign::Count),
    (b"DISTINCT", Sign::Distinct),
    (b"FALSE", Sign::False),
    (b"FROM", Sign::From),
    (b"GROUP", Sign::Group),
    (b"HAVING", Sign::Having),
    (b"IN", Sign::In),
    (b"IS", Sign::Is),
    (b"MAX", Sign::Max),
    (b"MIN", Sign::Min),
    (b"NOT", Sign::Not),
    (b"NULL", Sign::Null),
    (b"OR", Sign::Or),
    (b"SELECT", Sign::Select),
    (b"SUM", Sign::Sum),
    (b"TRUE", Sign::True),
    (b"UNKNOWN", Sign::Unknown),
    (b"WHERE", Sign::Where),
];

/// The symbols, of two that begin alike the longer first.
pub(crate) const SYMBOLS: [(&[u8], Sign); 12] = [
    (b"<>", Sign::NotEqual),
    (b"<=", Sign::LessOrEqual),
    (b">=", Sign::GreaterOrEqual),
    (b"(", Sign::OpenParen),
    (b")", Sign::CloseParen),
    (b",", Sign::Comma),
    (b"*", Sign::Asterisk),
    (b"+", Sign::Plus),
    (b"-", Sign::Minus),
    (b"=", Sign::Equal),
    (b"<", Sign::Less),
    (b">", Sign::Greater),
];

/// The keyword that the word is, in either case.
#[tactic(auto, unfolding(crate::specs::Token::keywords))]
fn keyword(word: &[u8]) -> Option<Sign>
    ensures { result ≡ option_map (λ entry. entry.1) (keyword_of word.now) }
{
    keyword_among(word, &KEYWORDS)
}

/// The sign of the first spelling that is the word, without regard to case.
fn keyword_among(word: &[u8], entries: &[(&[u8], Sign)]) -> Option<Sign>
    ensures { result ≡ option_map (λ entry. entry.1) (first_spelling (λ spelling. same_text (folded word.now) (folded spelling)) (map (λ entry. (entry.0.now, entry.1)) entries.now)) }
{
    for &(spelling, sign) in entries {
        if same_word(word, spelling) {
            return Some(sign);
        }
    }
    None
}

/// The longest symbol that the text begins with, and its length.
#[tactic(auto, unfolding(crate::specs::Token::symbols))]
fn symbol(text: &[u8]) -> Option<(Sign, usize)>
    ensures { result ≡ option_map (λ entry. (entry.1, length entry.0)) (symbol_of text.now) }
{
    symbol_among(text, &SYMBOLS)
}

/// The first spelling that the text begins with: its sign and its length.
fn symbol_among(text: &[u8], entries: &[(&[u8], Sign)]) -> Option<(Sign, usize)>
    ensures { result ≡ option_map (λ entry. (entry.1, length entry.0)) (first_spelling (λ spelling. starts_with nat_eq text.now spelling) (map (λ entry. (entry.0.now, entry.1)) entries.now)) }
{
    for &(spelling, sign) in entries {
        if text.starts_with(spelling) {
            return Some((sign, spelling.len()));
        }
    }
    None
}

/// Whether the byte is white space: a space, a tab, a line feed or a carriage return.
fn is_white(byte: u8) -> bool
    ensures { result ≡ is_white byte }
{
    byte == b' ' || byte == b'\t' || byte == b'\n' || byte == b'\r'
}

/// The letters, digits and `_` that the text begins with.
fn leading_word(text: &[u8]) -> &[u8]
    ensures { result.now ≡ take_while is_word_byte text.now }
{
    for i in 0..text.len() {
        if !is_word_byte(text[i]) {
            return &text[..i];
        }
    }
    text
}

/// The digits that the text begins with.
fn leading_digits(text: &[u8]) -> &[u8]
    ensures { result.now ≡ take_while is_ascii_digit text.now }
{
    for i in 0..text.len() {
        if !text[i].is_ascii_digit() {
            return &text[..i];
        }
    }
    text
}

/// What a word is: a keyword, an identifier or, past 64 bytes, no token.
fn word_kind(word: &[u8]) -> Kind<'_>
    requires { IsTrue (list_all is_word_byte word.now) }
    ensures { result ≡ word_kind word.now }
{
    if word.len() > MAX_WORD {
        return Kind::Bad;
    }
    match keyword(word) {
        Some(sign) => Kind::Sign(sign),
        None => Kind::Identifier(Word::new(word)),
    }
}

/// What a run of digits is, given the rest of the text: not a token if a letter or `_` follows directly.
fn digits_kind<'a>(digits: &'a [u8], rest: &[u8]) -> Kind<'a>
    requires { IsTrue (list_all is_word_byte digits.now) }
    ensures { result ≡ digits_kind digits.now rest.now }
{
    match rest.first() {
        Some(byte) if is_word_byte(*byte) => Kind::Bad,
        _ => Kind::Digits(Word::new(digits)),
    }
}

/// The token that the text begins with, which is no white space, and how many bytes it takes.
fn first_token(first: u8, text: &[u8]) -> (Kind<'_>, usize)
    requires { (rest : _) × (text.now ≡ first ∷ rest) }
    ensures value { result ≡ first_token first text.now }
    ensures some { 1 ≤ result.1 }
    ensures most { result.1 ≤ length text.now + 1 }
{
    if first.is_ascii_alphabetic() {
        let word = leading_word(text);
        (word_kind(word), word.len())
    } else if first.is_ascii_digit() {
        let digits = leading_digits(text);
        (digits_kind(digits, &text[digits.len()..]), digits.len())
    } else {
        match symbol(text) {
            Some((sign, length)) => (Kind::Sign(sign), length),
            None => (Kind::Bad, 1),
        }
    }
}

/// The tokens of the text, in order.
pub(crate) fn tokens_of(alloc: Global, text: &[u8]) -> Result<Vec<Token<'_>>, AllocError>
    ensures { IfOk result (λ tokens. tokens.items ≡ tokens_of text.now) }
{
    let mut tokens = Vec::new(alloc);
    let mut at = 0;
    while at < text.len() {
        if is_white(text[at]) {
            at += 1;
        } else {
            let (kind, length) = first_token(text[at], &text[at..]);
            tokens.push(Token {
                kind,
                at: at as u64,
            })?;
            at += length;
        }
    }
    Ok(tokens)
}
