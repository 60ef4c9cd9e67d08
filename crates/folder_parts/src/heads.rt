//! The heads of parts: a part's schema and how many batches it has, which are at the front of its bytes.
ghost use Rattle.std.specs.Prelude.{◌≡◌};
ghost use Rattle.table_model.specs.Reading.{Reads};
ghost use Rattle.folder_parts.specs.Heads.{head_in};

use column_file::{CONTAINER, read_head, read_name_count};
use std::alloc::Global;
use table_model::{Refusal, Schema};

/// How many bytes at the front of a part have its head, whatever its schema.
pub const HEAD_BYTES: usize = 4096;

/// What is at the front of a part.
#[derive(Drop)]
pub struct Head {
    /// The table's schema.
    pub schema: Schema,
    /// How many batches the part has, at most 1,048,576.
    pub batches: u32,
}

/// The head of the part that begins with these bytes, of which the first 4,096 do.
///
/// Refused are the first fault of the bytes: `Truncated`, `BadMagic`, `BadVersion`, `BadCount`, `BadSchema`; `Memory` may come in the
/// place of any of them.
pub fn part_head(alloc: Global, bytes: &[u8]) -> Result<Head, Refusal>
    ensures { Reads (λ head. (head.schema, head.batches)) result (head_in bytes.now) }
{
    let (schema, rest) = read_head(alloc, bytes.len(), bytes, &CONTAINER)?;
    let (batches, _) = read_name_count(bytes.len(), rest)?;
    Ok(Head {
        schema,
        batches: batches as u32,
    })
}
