//! Taking what a call of the libraries below has written, or its refusal.
ghost use Rattle.std.specs.Prelude.{◌≡◌, IfOk, IfErr};
ghost use Rattle.std.specs.Str.{IsUtf8};
ghost use Rattle.lanes_c.specs.Taking.{taken_of, LeftBy, NoText};
ghost use Rattle.lanes_c.specs.Rooms.{given_by};

use crate::fault::Fault;
use std::alloc::{AllocError, Global};
use table_model::{Counted, Refusal};

/// The bytes that a call has written, or its refusal.
pub(crate) fn taken(done: Result<(), Refusal>, writer: Counted<Vec<u8>>) -> Result<Vec<u8>, Fault>
    ensures { given_by result ≡ taken_of done writer.0.items }
{
    match done {
        Ok(()) => Ok(writer.into_inner()),
        Err(refusal) => Err(Fault::from(refusal)),
    }
}

/// A vector of these bytes.
fn copied(alloc: Global, bytes: &[u8]) -> Result<Vec<u8>, AllocError>
    ensures { IfOk result (λ copy. copy.items ≡ bytes.now) }
{
    let mut copy = Vec::new(alloc);
    copy.extend_from_slice(bytes)?;
    Ok(copy)
}

/// The file that a command leaves: what it has written if something changed, and else the file that it was given.
pub(crate) fn left(
    alloc: Global,
    file: &[u8],
    is_changed: bool,
    writer: Counted<Vec<u8>>,
) -> Result<Vec<u8>, Fault>
    ensures { LeftBy (given_by result) is_changed writer.0.items file.now }
{
    if is_changed {
        return Ok(writer.into_inner());
    }
    Ok(copied(alloc, file)?)
}

/// Bytes as a text; `Syntax` at the first byte that belongs to no character if they are not a text.
pub(crate) fn text_of(bytes: &[u8]) -> Result<&str, Fault>
    ensures text { IfOk result (λ text. (text.now ≡ bytes.now) × IsUtf8 bytes.now) }
    ensures fault { IfErr result (λ fault. NoText bytes.now fault) }
{
    match std::str::from_utf8(bytes) {
        Ok(text) => Ok(text),
        Err(fault) => Err(Fault::Refused(Refusal::Syntax(fault.valid_up_to() as u64))),
    }
}
