//! Comparing a part with its name in little memory: nothing of it is kept, and nothing is judged.
ghost use Rattle.std.specs.Prelude.{◌≡◌, ◌<◌, ◌≤◌, ℕ, List, Some, vec_len, IfOk, Decides};
ghost use Rattle.sha2.specs.Sha512.{sha512};
ghost use Rattle.column_file.specs.Input.{ReadsWhole, is_unread};
ghost use Rattle.folder_parts.specs.PartName.{name_by};
ghost use Rattle.folder_parts.specs.PartReads.{EndsPart};
ghost use Rattle.folder_parts.specs.Parts.{PartForm, IsPart, IsCompared};

use crate::fault::PartFault;
use crate::part::Part;
use crate::part_naming::name_by;
use sha2::{Digest, Sha512};
use std::alloc::{AllocError, Global};
use std::io::Read;
use table_model::{Counted, READ_CHUNK, READ_LIMIT, Refusal};

/// The most reads: each but the last reads at least a byte.
const ROUNDS: u64 = READ_LIMIT + 1;

/// The SHA-512 of what a reader has, read to its end through this buffer. `ReadFault` if a read fails or more than 2^48 bytes come.
fn digest_through<R: Read>(
    reader: &mut Counted<R>,
    mut buffer: Vec<u8>,
) -> Result<[u8; 64], Refusal>
    requires some { 0 < vec_len buffer }
    requires limit { vec_len buffer ≤ 65536 }
    ensures digest { IfOk result (λ digest. (input : List ℕ) → R.remaining reader.old.0 ≡ Some input → digest ≡ sha512 input) }
    ensures reads { ReadsWhole R.remaining is_unread reader.old reader.new result }
{
    let mut hasher = Sha512::new();
    let mut length: u64 = 0;
    for _turn in 0..ROUNDS {
        let Ok(count) = reader.read(buffer.as_mut_slice()) else {
            return Err(Refusal::ReadFault);
        };
        if count == 0 {
            return Ok(hasher.finalize());
        }
        let (chunk, _) = buffer.split_at(count);
        hasher.update(chunk);
        length += count as u64;
        if length > READ_LIMIT {
            return Err(Refusal::ReadFault);
        }
    }
    Err(Refusal::ReadFault)
}

/// The SHA-512 of what a reader has, read to its end. `ReadFault` if a read fails or more than 2^48 bytes come, and `Memory` if there is no
/// memory for a buffer.
pub(crate) fn digest_of<R: Read>(
    alloc: Global,
    reader: &mut Counted<R>,
) -> Result<[u8; 64], Refusal>
    ensures digest { IfOk result (λ digest. (input : List ℕ) → R.remaining reader.old.0 ≡ Some input → digest ≡ sha512 input) }
    ensures reads { ReadsWhole R.remaining is_unread reader.old reader.new result }
{
    let buffer = vec![in alloc; 0u8; READ_CHUNK]?;
    digest_through(reader, buffer)
}

/// Whether this is the name of a part whose bytes have this SHA-512.
fn is_named_by(alloc: Global, name: &str, digest: &[u8; 64]) -> Result<bool, AllocError>
    ensures { IfOk result (λ same. Decides same (name.now ≡ name_by digest.now)) }
{
    let named = name_by(alloc, digest)?;
    Ok(named.as_str() == name)
}

/// Compares a part's bytes with its name. They are read to their end, and nothing of them is kept.
///
/// Refused are `ReadFault`; a name of other bytes (`Damaged`); `Memory` may come in the place of either.
pub fn compare_part<R: Read>(alloc: Global, part: &mut Part<R>) -> Result<(), PartFault>
    ensures compared { (form : PartForm) → IsPart R.remaining part.old form → IsCompared result form }
    ensures ends { EndsPart R.remaining result part.old part.new }
{
    let digest = part.digest(alloc)?;
    if is_named_by(alloc, part.name(), &digest)? {
        Ok(())
    } else {
        Err(PartFault::Damaged)
    }
}
