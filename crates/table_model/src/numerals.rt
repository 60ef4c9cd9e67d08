//! Whole numbers in decimal digits.
ghost use Rattle.std.specs.Prelude.{◌≡◌, ◌<◌, ◌≤◌, ◌^◌, length, option_map, IfSome, true, pos, ◌≤ℤ◌};
ghost use Rattle.std.specs.List.{list_all};
ghost use Rattle.std.specs.Char.{is_ascii_digit};
ghost use Rattle.std.specs.Str.Parse.{digits_value};
ghost use Rattle.table_model.specs.Numeral.{is_numeral, magnitude_of, value_digits};

/// The most digits that a value is written with, not counting its sign.
pub const VALUE_DIGITS: usize = 30;

/// How many digits write a number of 64 bits, whichever they are.
const WORD_DIGITS: usize = 19;

/// Whether the text is 1 digit to this many.
#[tactic(auto, unfolding(crate::specs::Numeral::is_numeral))]
pub fn is_numeral(text: &[u8], digits: usize) -> bool
    ensures { result ≡ is_numeral digits text.now }
{
    1 <= text.len() && text.len() <= digits && are_digits(text)
}

/// Whether each byte is a digit.
fn are_digits(text: &[u8]) -> bool
    ensures { result ≡ list_all is_ascii_digit text.now }
{
    text.iter().all(|c| c.is_ascii_digit())
}

/// The number that at most 30 digits write.
pub fn digits_value(text: &[u8]) -> u128
    requires digits { list_all is_ascii_digit text.now ≡ true }
    requires short { length text.now ≤ value_digits }
    ensures value { result ≡ digits_value 10 text.now }
    ensures bound { result < 10 ^ value_digits }
{
    let mut value: u128 = 0;
    for digit in text {
        value = value * 10 + u128::from(*digit - b'0');
    }
    value
}

/// A number of 1 to 19 digits. Each digit is looked at once.
fn short_magnitude(text: &[u8]) -> Option<u64>
    requires { length text.now ≤ 19 }
    ensures { result ≡ magnitude_of text.now }
{
    let mut value: u64 = 0;
    for digit in text {
        if !digit.is_ascii_digit() {
            return None;
        }
        value = value * 10 + u64::from(*digit - b'0');
    }
    if text.is_empty() { None } else { Some(value) }
}

/// The number that 1 to 30 digits write; none if the text is anything else.
#[tactic(auto, unfolding(crate::specs::Numeral::magnitude_of, crate::specs::Numeral::is_numeral))]
pub fn magnitude(text: &[u8]) -> Option<i128>
    ensures value { result ≡ option_map pos (magnitude_of text.now) }
    ensures bound { IfSome result (λ z. z ≤ℤ pos (10 ^ value_digits)) }
{
    if text.len() <= WORD_DIGITS {
        let value = short_magnitude(text)?;
        return Some(i128::from(value));
    }
    if !is_numeral(text, VALUE_DIGITS) {
        return None;
    }
    let value = digits_value(text);
    Some(value as i128)
}
