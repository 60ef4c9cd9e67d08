//! The digits in the names of parts and of temporaries.
ghost use Rattle.std.specs.Prelude.{◌≡◌};
ghost use Rattle.std.specs.List.{list_all};
ghost use Rattle.folder_model.specs.Digits.{is_digit};

/// Whether a byte is a digit of the name of a part or of a temporary: from `0` to `9`, or a letter from `a` to `f`.
fn is_digit(byte: u8) -> bool
    ensures { result ≡ is_digit byte }
{
    (48 <= byte && byte <= 57) || (97 <= byte && byte <= 102)
}

/// Whether all bytes are such digits.
pub fn has_only_digits(text: &[u8]) -> bool
    ensures { result ≡ list_all is_digit text.now }
{
    text.iter().all(|byte| is_digit(*byte))
}
