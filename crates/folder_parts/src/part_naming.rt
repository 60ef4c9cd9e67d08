//! The names of parts: a part is named by its bytes.
ghost use Rattle.std.specs.Prelude.{◌≡◌, IfOk, string_bytes, Decides};
ghost use Rattle.folder_parts.specs.PartName.{name_by, part_name, is_part_name};

use folder_model::has_only_digits;
use replica_reports::first_digits;
use sha2::{Digest, Sha512};
use std::alloc::{AllocError, Global};
use table_model::same_text;

/// How many digits a part's name has.
const DIGITS: usize = 32;

/// What a part's name ends with.
const ENDING: [u8; 6] = *b".lanes";

/// The name of a part whose bytes have this SHA-512: its first 32 hexadecimal digits, in lower case, and `.lanes`.
pub(crate) fn name_by(alloc: Global, digest: &[u8; 64]) -> Result<String, AllocError>
    ensures { IfOk result (λ name. string_bytes name ≡ name_by digest.now) }
{
    let mut name = first_digits(alloc, digest)?;
    name.push_str(".lanes")?;
    Ok(name)
}

/// The name of a part with these bytes: the first 32 hexadecimal digits of their SHA-512, in lower case, and `.lanes`.
#[tactic(auto, unfolding(crate::specs::PartName::part_name))]
pub fn part_name(alloc: Global, bytes: &[u8]) -> Result<String, AllocError>
    ensures { IfOk result (λ name. string_bytes name ≡ part_name bytes.now) }
{
    name_by(alloc, &Sha512::digest(bytes))
}

/// Whether this is the name of a part with these bytes.
pub fn is_part(alloc: Global, name: &str, bytes: &[u8]) -> Result<bool, AllocError>
    ensures { IfOk result (λ same. Decides same (name.now ≡ part_name bytes.now)) }
{
    let named = part_name(alloc, bytes)?;
    Ok(named.as_str() == name)
}

/// Whether a name is one that parts have: 32 digits, `0` to `9` and `a` to `f`, and `.lanes`. Whatever has another name is no part.
#[tactic(auto, unfolding(crate::specs::PartName::is_part_name))]
pub fn is_part_name(name: &str) -> bool
    ensures { result ≡ is_part_name name.now }
{
    let bytes = name.as_bytes();
    if bytes.len() != DIGITS + ENDING.len() {
        return false;
    }
    let (digits, ending) = bytes.split_at(DIGITS);
    has_only_digits(digits) && same_text(ending, &ENDING)
}
