//! Literals: digits with or without a sign.
ghost use Rattle.std.specs.Prelude.{◌≡◌, ◌≢◌, pos, length, ◌≤◌, ◌<◌, IfOk, IfErr};
ghost use Rattle.table_model.specs.Reading.{Reads};
ghost use Rattle.query_parser.specs.Descent.{read_literal, read_digits};
ghost use Rattle.query_parser.specs.Token.{significant, digit_limit, value_of};

use crate::cursor::{Read, after, syntax};
use crate::token::{Kind, Sign, Token};
use table_model::Refusal;

/// The most digits that a literal may have after its leading zeros.
const MAX_DIGITS: usize = 30;

/// The literal that has to come: digits, with a sign or without.
#[tactic(auto, unfolding(crate::specs::Descent::read_literal))]
pub(crate) fn literal<'t, 'a>(tokens: &'t [Token<'a>], end: u64) -> Read<'t, 'a, i128>
    ensures reads { Reads (λ r. (r.0, r.1.now)) result (read_literal end tokens.now) }
    ensures shorter { IfOk result (λ r. length r.1.now < length tokens.now) }
    ensures grows_nothing { IfErr result (λ e. e ≢ Refusal.Memory) }
{
    if let Some(rest) = after(tokens, Sign::Plus) {
        return digits(rest, end, false);
    }
    match after(tokens, Sign::Minus) {
        Some(rest) => digits(rest, end, true),
        None => digits(tokens, end, false),
    }
}

/// The number of the digits that have to come, negated or not.
#[tactic(auto, unfolding(crate::specs::Descent::read_digits, crate::specs::Token::spelled_digits))]
fn digits<'t, 'a>(tokens: &'t [Token<'a>], end: u64, negative: bool) -> Read<'t, 'a, i128>
    ensures reads { Reads (λ r. (r.0, r.1.now)) result (read_digits negative end tokens.now) }
    ensures shorter { IfOk result (λ r. length r.1.now < length tokens.now) }
    ensures grows_nothing { IfErr result (λ e. e ≢ Refusal.Memory) }
{
    match tokens.split_first() {
        Some(
            (
                Token {
                    kind: Kind::Digits(word),
                    at,
                },
                rest,
            ),
        ) => {
            let digits = significant(word.bytes());
            if digits.len() > MAX_DIGITS {
                return Err(Refusal::NumberTooLarge(*at));
            }
            let value = value_of(digits);
            Ok((if negative { -value } else { value }, rest))
        }
        _ => Err(syntax(tokens, end)),
    }
}

/// The digits without their leading zeros.
fn significant(digits: &[u8]) -> &[u8]
    ensures { result.now ≡ significant digits.now }
{
    for i in 0..digits.len() {
        if digits[i] != b'0' {
            return &digits[i..];
        }
    }
    &[]
}

/// The number that the digits spell.
fn value_of(digits: &[u8]) -> i128
    requires { length digits.now ≤ digit_limit }
    ensures { result ≡ pos (value_of digits.now) }
{
    let mut value: u128 = 0;
    for digit in digits {
        value = value * 10 + u128::from(digit.saturating_sub(b'0'));
    }
    value as i128
}
