//! Tokens: keywords, identifiers, runs of digits and symbols, each with its place in the text.
ghost use Rattle.std.specs.Prelude.{◌≡◌, IsTrue};
ghost use Rattle.std.specs.List.{list_all};
ghost use Rattle.table_model.specs.Identifier.{is_word_byte};
ghost use Rattle.query_parser.specs.Token.{same_sign};

use std::marker::Model;

/// A token that has one spelling, but for the case of its letters: a keyword or a symbol.
#[derive(Clone, Copy, Debug)]
pub enum Sign {
    All,
    And,
    As,
    Avg,
    Between,
    By,
    Count,
    Distinct,
    False,
    From,
    Group,
    Having,
    In,
    Is,
    Max,
    Min,
    Not,
    Null,
    Or,
    Select,
    Sum,
    True,
    Unknown,
    Where,
    OpenParen,
    CloseParen,
    Comma,
    Asterisk,
    Plus,
    Minus,
    Equal,
    NotEqual,
    Less,
    LessOrEqual,
    Greater,
    GreaterOrEqual,
}

impl Sign {
    /// Whether two signs are the same.
    pub fn is(self, other: Sign) -> bool
        ensures { result ≡ same_sign self other }
    {
        self as u8 == other as u8
    }
}

/// Bytes that are letters, digits or `_`: an identifier or a run of digits. Contracts see them as that list.
#[derive(Drop)]
pub struct Word<'a> {
    bytes: &'a [u8],
}

impl<'a> Model for Word<'a> {
    ghost use Rattle.std.specs.Prelude.{List, ℕ, IsTrue};
    ghost use Rattle.std.specs.List.{list_all};
    ghost use Rattle.table_model.specs.Identifier.{is_word_byte};

    ghost Value = { List ℕ };

    ghost view = { λ word. word.bytes.now };

    ghost invariant = { λ word. IsTrue (list_all is_word_byte word.bytes.now) };
}

impl<'a> Word<'a> {
    /// The word of these bytes.
    pub fn new(bytes: &'a [u8]) -> Word<'a>
        requires { IsTrue (list_all is_word_byte bytes.now) }
        ensures { result ≡ bytes.entry.now }
    {
        Word { bytes }
    }

    /// The bytes.
    pub fn bytes(&self) -> &'a [u8]
        ensures bytes { result.now ≡ self.now }
        ensures word { IsTrue (list_all is_word_byte self.now) }
    {
        self.bytes
    }
}

/// What a token is.
#[derive(Drop)]
pub enum Kind<'a> {
    /// A keyword or a symbol.
    Sign(Sign),
    /// A name, as it is spelled.
    Identifier(Word<'a>),
    /// A run of digits.
    Digits(Word<'a>),
    /// No token of the language.
    Bad,
}

/// A token and the byte offset of its first byte in the text.
#[derive(Drop)]
pub struct Token<'a> {
    pub kind: Kind<'a>,
    pub at: u64,
}
