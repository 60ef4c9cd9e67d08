//! The names of temporaries.
ghost use Rattle.std.specs.Prelude.{◌≡◌};
ghost use Rattle.folder_protocol.specs.Temporary.{are_digits, is_temporary};

use folder_model::has_only_digits;

/// How the name of a temporary begins.
pub const TEMPORARY: &str = ".part-";

/// How many digits follow.
const DIGITS: usize = 16;

/// Whether these are 16 digits of `0` to `9` and `a` to `f`.
pub fn are_digits(text: &[u8]) -> bool
    ensures { result ≡ are_digits text.now }
{
    text.len() == DIGITS && has_only_digits(text)
}

/// Whether a name is that of a temporary: `.part-` and 16 digits of `0` to `9` and `a` to `f`.
pub fn is_temporary(name: &str) -> bool
    ensures { result ≡ is_temporary name.now }
{
    match name.as_bytes().strip_prefix(TEMPORARY.as_bytes()) {
        Some(digits) => are_digits(digits),
        None => false,
    }
}
