//! The answer that a partial answer finishes to, written as a text.
ghost use Rattle.std.specs.Prelude.{OnOk, IfOk, IfErr};
ghost use Rattle.table_model.specs.Faults.{GaveMore};
ghost use Rattle.replica_reports.specs.ReadAndWritten.{IsReadAndWritten};
ghost use Rattle.partial_commands.specs.PartialAnswerTurns.{CountsBothErrors, IsAnswerText, IsUnfinished, WritesAnswer};

use crate::partial_answer_error::PartialAnswerError;
use answer_formats::{Format, format_answer};
use partial_answers::PartialAnswer;
use partial_file::read_partial_answer;
use std::alloc::Global;
use std::io::{Read, Write};
use table_model::Counted;

/// The text of the answer that a partial answer finishes to, in a format.
pub(crate) fn answer_text(
    alloc: Global,
    partial: PartialAnswer,
    format: Format,
) -> Result<Vec<u8>, PartialAnswerError>
    ensures text { IfOk result (λ text. IsAnswerText format partial text.items) }
    ensures refused { IfErr result (λ e. IsUnfinished e partial) }
{
    let answer = partial.finish(alloc)?;
    let text = format_answer(alloc, &answer, format)?;
    Ok(text)
}

/// Reads a partial answer and writes the answer that it finishes to, in a format.
///
/// What is refused is, in this order, what [`read_partial_answer`] refuses; what [`PartialAnswer::finish`] refuses; `Memory`;
/// `WriteFault`. Only with the last anything is written: a front.
pub fn write_finished_answer<R: Read, W: Write>(
    alloc: Global,
    reader: &mut Counted<R>,
    format: Format,
    writer: &mut Counted<W>,
) -> Result<(), PartialAnswerError>
    ensures told { WritesAnswer format result (R.remaining reader.old.0) (W.contents writer.old.0) (W.contents writer.new.0) }
    ensures whole { OnOk result (IsReadAndWritten R.remaining reader.old reader.new writer.old writer.new) }
    ensures fault { IfErr result (λ e. CountsBothErrors (GaveMore (R.remaining reader.old.0) (R.remaining reader.new.0)) e reader.old.1 reader.new.1 writer.old.1 writer.new.1) }
{
    let partial = read_partial_answer(alloc, reader)?;
    let text = answer_text(alloc, partial, format)?;
    writer.write_whole(text.as_slice())?;
    Ok(())
}
