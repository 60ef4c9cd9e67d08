//! The digest of what is held.
ghost use Rattle.std.specs.Prelude.{◌≡◌, IfOk, IfErr, string_bytes};
ghost use Rattle.table_model.specs.declared.refusal.Refusal.TheVariants.{Memory};
ghost use Rattle.replica_reports.specs.Digests.{first_digits, held_digest};

use column_file::export_bytes;
use replica_store::Store;
use sha2::{Digest, Sha512};
use std::alloc::{AllocError, Global};
use table_model::Refusal;

/// How many bytes of a SHA-512 a digest has as digits.
const DIGEST_BYTES: usize = 16;

/// The first 32 hexadecimal digits of a SHA-512, in lower case.
pub fn first_digits(alloc: Global, digest: &[u8; 64]) -> Result<String, AllocError>
    ensures { IfOk result (λ digits. string_bytes digits ≡ first_digits digest.now) }
{
    hex::encode(alloc, &digest[..DIGEST_BYTES])
}

/// The digest of what a replica holds: the first 32 hexadecimal digits of the SHA-512 of its canonical file, in lower case. Replicas of
/// one table that hold the same batches and the same deletions have the same digest, however they are coded. If two digests are the
/// same, but for a collision of SHA-512 cut to 128 bits, what they are of is the same.
///
/// The canonical file is made in memory. `Memory` is refused.
#[tactic(auto, unfolding(crate::specs::Digests::held_digest))]
pub fn held_digest(alloc: Global, store: &Store) -> Result<String, Refusal>
    ensures digest { IfOk result (λ digits. string_bytes digits ≡ held_digest store.now.replica) }
    ensures refused { IfErr result (λ e. e ≡ Memory) }
{
    let file = export_bytes(alloc, store)?;
    let digits = first_digits(alloc, &Sha512::digest(file.as_slice()))?;
    Ok(digits)
}
