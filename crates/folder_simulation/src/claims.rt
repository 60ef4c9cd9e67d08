//! What parts hold in this test: claims, each a letter. Some are dead: a forget drops them, and no part has to hold them.
ghost use Rattle.std.specs.Prelude.{◌≡◌, ◌∷◌, true, false};
ghost use Rattle.folder_model.specs.Parts.{Parts, IsNoPart};

use folder_protocol::Naming;
use std::alloc::{AllocError, Global};

/// The claims.
pub const CLAIMS: &[u8] = b"abcdefgh";

/// How a part's name begins. Its bytes follow.
const MARK: u8 = b'p';

/// Whether a claim is dead.
pub fn is_dead(claim: u8) -> bool {
    claim % 3 == 0
}

/// The name of the part with these bytes, which are letters.
pub fn name_of(alloc: Global, bytes: &[u8]) -> Result<String, AllocError> {
    let mut name = String::new(alloc);
    name.push(char::from(MARK))?;
    for byte in bytes {
        name.push(char::from(*byte))?;
    }
    Ok(name)
}

/// Whether a name is that of the part with these bytes.
pub fn is_name_of(name: &str, bytes: &[u8]) -> bool
    ensures { result ≡ true → name.now ≡ 112 ∷ bytes.now }
{
    match name.as_bytes().split_first() {
        Some((first, rest)) => *first == MARK && rest == bytes,
        None => false,
    }
}

/// The bytes of the part of a name.
pub fn bytes_of(name: &str) -> &[u8] {
    match name.as_bytes().split_first() {
        Some((_, rest)) => rest,
        None => &[],
    }
}

/// Whether bytes hold a claim.
pub fn holds(bytes: &[u8], claim: u8) -> bool {
    bytes.contains(&claim)
}

/// The claims of several parts, in ascending order, without the dead ones if they are forgotten.
pub fn join(alloc: Global, parts: &[Vec<u8>], forgets: bool) -> Result<Vec<u8>, AllocError> {
    let mut joined = Vec::new(alloc);
    for claim in CLAIMS {
        let is_held = parts.iter().any(|part| holds(part.as_slice(), *claim));
        if is_held && !(forgets && is_dead(*claim)) {
            joined.push(*claim)?;
        }
    }
    Ok(joined)
}

/// Which names are parts': a mark, and then the bytes themselves.
pub struct Marks;

impl Naming for Marks {
    ghost parts = { λ _. record { name_of = λ bytes. 112 ∷ bytes; covers = λ b a. true } };

    fn is_part_name(&self, name: &str) -> bool {
        match name.as_bytes().first() {
            Some(first) => *first == MARK,
            None => false,
        }
    }

    fn is_part(&self, name: &str, bytes: &[u8]) -> bool {
        is_name_of(name, bytes)
    }
}
