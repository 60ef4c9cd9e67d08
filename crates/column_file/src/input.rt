//! Reading a reader to its end.
ghost use Rattle.std.specs.Prelude.{◌<◌, ◌≤◌, vec_len, IfOk};
ghost use Rattle.std.specs.Io.KnownBytes.{Consumes};
ghost use Rattle.column_file.specs.Input.{ReadsWhole, is_unread};

use std::alloc::{AllocError, Global};
use std::io::Read;
use table_model::{Counted, READ_CHUNK, READ_LIMIT, Refusal};

/// How many bytes the first read asks for: a small input comes whole.
const FIRST_CHUNK: usize = 4_096;

/// The most reads: each round but the last reads at least a byte.
const ROUNDS: u64 = READ_LIMIT + 1;

/// The buffer for the next read after one that gave so many bytes: a longer one, if the read filled it.
fn after_read(alloc: Global, buffer: Vec<u8>, count: usize) -> Result<Vec<u8>, AllocError>
    requires some { 0 < vec_len buffer }
    requires limit { vec_len buffer ≤ 65536 }
    ensures some { IfOk result (λ next. 0 < vec_len next) }
    ensures limit { IfOk result (λ next. vec_len next ≤ 65536) }
{
    if count < buffer.len() || count == READ_CHUNK {
        return Ok(buffer);
    }
    vec![in alloc; 0u8; READ_CHUNK]
}

/// What a reader has, read to its end through a buffer, which grows if a read fills it. `ReadFault` if a read fails or more than 2^48
/// bytes come, and `Memory` if there is no memory for what came.
fn read_through<R: Read>(
    alloc: Global,
    reader: &mut Counted<R>,
    mut buffer: Vec<u8>,
) -> Result<Vec<u8>, Refusal>
    requires some { 0 < vec_len buffer }
    requires limit { vec_len buffer ≤ 65536 }
    ensures bytes { IfOk result (λ input. Consumes (R.remaining reader.old.0) (R.remaining reader.new.0) input.items) }
    ensures reads { ReadsWhole R.remaining is_unread reader.old reader.new result }
{
    let mut input = Vec::new(alloc);
    for _turn in 0..ROUNDS {
        let Ok(count) = reader.read(buffer.as_mut_slice()) else {
            return Err(Refusal::ReadFault);
        };
        if count == 0 {
            return Ok(input);
        }
        let (chunk, _) = buffer.split_at(count);
        input.extend_from_slice(chunk)?;
        if input.len() as u64 > READ_LIMIT {
            return Err(Refusal::ReadFault);
        }
        buffer = after_read(alloc, buffer, count)?;
    }
    Err(Refusal::ReadFault)
}

/// What a reader has, read to its end. `ReadFault` if a read fails or more than 2^48 bytes come, and `Memory` if there is no memory
/// for what came.
pub fn read_input<R: Read>(alloc: Global, reader: &mut Counted<R>) -> Result<Vec<u8>, Refusal>
    ensures bytes { IfOk result (λ input. Consumes (R.remaining reader.old.0) (R.remaining reader.new.0) input.items) }
    ensures reads { ReadsWhole R.remaining is_unread reader.old reader.new result }
{
    let buffer = vec![in alloc; 0u8; FIRST_CHUNK]?;
    read_through(alloc, reader, buffer)
}
