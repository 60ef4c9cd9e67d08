//! What the tokens that are left begin with.
ghost use Rattle.std.specs.Prelude.{◌≡◌, ◌≢◌, MatchOption, IfOk, IfErr, Some, None, ◌<◌, length, IfSome};
ghost use Rattle.table_model.specs.Identifier.{folded};
ghost use Rattle.table_model.specs.Reading.{Reads};
ghost use Rattle.query_parser.specs.Descent.{read_sign, read_name, begins_with_name};
ghost use Rattle.query_parser.specs.Token.{taken, place_of};

use crate::token::{Kind, Sign, Token, Word};
use std::alloc::{AllocError, Global};
use table_model::{ColumnMention, Name, Refusal};

/// What was read, and the tokens after it.
pub(crate) type Read<'t, 'a, X> = Result<(X, &'t [Token<'a>]), Refusal>;

/// The tokens after the sign, if they begin with it.
#[tactic(auto, unfolding(crate::specs::Token::taken))]
pub(crate) fn after<'t, 'a>(tokens: &'t [Token<'a>], sign: Sign) -> Option<&'t [Token<'a>]>
    ensures reads { MatchOption result (taken sign tokens.now ≡ None) (λ rest. taken sign tokens.now ≡ Some rest.now) }
    ensures shorter { IfSome result (λ rest. length rest.now < length tokens.now) }
{
    let (first, rest) = tokens.split_first()?;
    match &first.kind {
        Kind::Sign(other) if other.is(sign) => Some(rest),
        _ => None,
    }
}

/// The fault of tokens that the grammar does not have: the place of the first, or the text's end.
pub(crate) fn syntax(tokens: &[Token<'_>], end: u64) -> Refusal
    ensures { result ≡ Refusal.Syntax (place_of end tokens.now) }
{
    match tokens.first() {
        Some(token) => Refusal::Syntax(token.at),
        None => Refusal::Syntax(end),
    }
}

/// The tokens after the sign, which has to come.
#[tactic(auto, unfolding(crate::specs::Descent::read_sign))]
pub(crate) fn expect<'t, 'a>(
    tokens: &'t [Token<'a>],
    end: u64,
    sign: Sign,
) -> Result<&'t [Token<'a>], Refusal>
    ensures reads { Reads (λ rest. rest.now) result (read_sign sign end tokens.now) }
    ensures shorter { IfOk result (λ rest. length rest.now < length tokens.now) }
    ensures grows_nothing { IfErr result (λ e. e ≢ Refusal.Memory) }
{
    match after(tokens, sign) {
        Some(rest) => Ok(rest),
        None => Err(syntax(tokens, end)),
    }
}

/// Whether the first of the tokens is an identifier.
#[tactic(auto, unfolding(crate::specs::Token::mentioned))]
pub(crate) fn begins_with_name(tokens: &[Token<'_>]) -> bool
    ensures { result ≡ begins_with_name tokens.now }
{
    match tokens.first() {
        Some(
            Token {
                kind: Kind::Identifier(_),
                ..
            },
        ) => true,
        _ => false,
    }
}

/// The identifier that has to come, folded to upper case, and its place.
#[tactic(auto, unfolding(crate::specs::Descent::read_name, crate::specs::Token::mentioned))]
pub(crate) fn identifier<'t, 'a>(
    alloc: Global,
    tokens: &'t [Token<'a>],
    end: u64,
) -> Read<'t, 'a, ColumnMention>
    ensures reads { Reads (λ r. (r.0, r.1.now)) result (read_name end tokens.now) }
    ensures shorter { IfOk result (λ r. length r.1.now < length tokens.now) }
{
    match tokens.split_first() {
        Some(
            (
                Token {
                    kind: Kind::Identifier(word),
                    at,
                },
                rest,
            ),
        ) => {
            let name = folded_name(alloc, word)?;
            Ok((ColumnMention { name, at: *at }, rest))
        }
        _ => Err(syntax(tokens, end)),
    }
}

/// The word as a name, in upper case.
fn folded_name(alloc: Global, word: &Word<'_>) -> Result<Name, AllocError>
    ensures { IfOk result (λ name. name ≡ folded word.now) }
{
    let bytes = word.bytes();
    let mut text = String::with_capacity(alloc, bytes.len())?;
    for byte in bytes {
        text.push(char::from(byte.to_ascii_uppercase()))?;
    }
    Ok(Name::from_string(text))
}
