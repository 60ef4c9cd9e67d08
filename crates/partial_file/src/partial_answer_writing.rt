//! Writing a partial answer: what a format begins with, the query's text, the batches that were counted, the strays, and the groups.
ghost use Rattle.std.specs.Prelude.{◌≡◌, ◌++◌, codes, IsTrue, OnOk, IfOk};
ghost use Rattle.std.specs.Str.{IsUtf8};
ghost use Rattle.segment_core.specs.Format.{Format, Writes};
ghost use Rattle.column_file.specs.Files.{Exports};
ghost use Rattle.column_file.specs.SummaryBytes.{head};
ghost use Rattle.partial_file.specs.PartialAnswerBytes.{body, body_of, partial_answer_bytes, text};
ghost use Rattle.partial_file.specs.PartialAnswerReading.{has_bytes};

use crate::group_writing::push_groups;
use crate::head_writing::write_head;
use crate::number_writing::push_number;
use crate::run_writing::push_names;
use partial_answers::PartialAnswer;
use segment_core::write_whole;
use std::alloc::{AllocError, Global};
use std::io::Write;
use table_model::{Counted, Refusal, Schema};

/// What a partial answer begins with.
pub(crate) const PARTIAL: [u8; 4] = *b"FLPT";

/// Puts a text: how many bytes it has, and these.
fn push_text(bytes: &mut Vec<u8>, query: &[u8]) -> Result<(), AllocError>
    requires { IsUtf8 query.now }
    ensures put { OnOk result (bytes.new.items ≡ bytes.old.items ++ text.spell query.now) }
    ensures valid { OnOk result (IsTrue (text.valid query.now)) }
{
    push_number(bytes, query.len() as u64, 8)?;
    bytes.extend_from_slice(query)?;
    Ok(())
}

/// The bytes of a partial answer after its schema.
fn body_bytes(alloc: Global, partial: &PartialAnswer) -> Result<Vec<u8>, AllocError>
    ensures put { IfOk result (λ bytes. bytes.items ≡ body.spell (body_of partial.now)) }
    ensures valid { OnOk result (IsTrue (body.valid (body_of partial.now))) }
{
    let mut bytes = Vec::new(alloc);
    push_text(&mut bytes, partial.text().as_bytes())?;
    push_names(&mut bytes, partial.held())?;
    push_names(&mut bytes, partial.strays())?;
    push_groups(&mut bytes, partial.groups())?;
    Ok(bytes)
}

/// Writes a schema as what a partial answer begins with, and then the bytes that come after it.
fn write_both<W: Write>(
    writer: &mut Counted<W>,
    schema: &Schema,
    rest: &[u8],
) -> Result<(), Refusal>
    ensures written { Writes result (W.contents writer.old.0) (W.contents writer.new.0) writer.old.1 writer.new.1 ((head (codes "FLPT")).spell schema.now ++ rest.now) }
    ensures valid { OnOk result (IsTrue ((head (codes "FLPT")).valid schema.now)) }
{
    write_head(writer, &PARTIAL, schema)?;
    write_whole(writer, rest)
}

/// Writes a partial answer. The refusals are `Memory`, and then nothing is written, and `WriteFault`, if a write failed; a front of
/// the bytes was written then. What was written whole has the bytes of a partial answer that is read again.
pub fn write_partial_answer<W: Write>(
    alloc: Global,
    partial: &PartialAnswer,
    writer: &mut Counted<W>,
) -> Result<(), Refusal>
    ensures written { Exports result (W.contents writer.old.0) (W.contents writer.new.0) writer.old.1 writer.new.1 (partial_answer_bytes partial.now) }
    ensures valid { OnOk result (IsTrue (has_bytes partial.now)) }
{
    let body = body_bytes(alloc, partial)?;
    write_both(writer, partial.schema(), body.as_slice())
}
