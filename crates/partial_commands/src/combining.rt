//! Combining a partial answer with those before it.
ghost use Rattle.std.specs.Prelude.{OnOk, IfOk, IfErr};
ghost use Rattle.table_model.specs.Faults.{GaveMore};
ghost use Rattle.column_file.specs.Input.{IsReadWhole};
ghost use Rattle.partial_commands.specs.PartialAnswerTurns.{CombinesNext, CountsErrors, Follows, RefusesNext, RefusesToFollow};

use crate::partial_answer_error::PartialAnswerError;
use partial_answers::{PartialAnswer, PartialAnswerFault};
use partial_file::read_partial_answer;
use std::alloc::Global;
use std::io::Read;
use table_model::Counted;

/// Reads a partial answer and combines it with those before it, if there are any.
///
/// What is refused is, in this order, what [`read_partial_answer`] refuses, and what [`PartialAnswer::combined`] refuses.
pub fn combine_next<R: Read>(
    alloc: Global,
    before: Option<PartialAnswer>,
    reader: &mut Counted<R>,
) -> Result<PartialAnswer, PartialAnswerError>
    ensures combined { IfOk result (λ both. CombinesNext before (R.remaining reader.old.0) both) }
    ensures refused { IfErr result (λ e. RefusesNext e before (R.remaining reader.old.0)) }
    ensures whole { OnOk result (IsReadWhole R.remaining reader.old reader.new) }
    ensures fault { IfErr result (λ e. CountsErrors (GaveMore (R.remaining reader.old.0) (R.remaining reader.new.0)) e reader.old.1 reader.new.1) }
{
    let next = read_partial_answer(alloc, reader)?;
    let both = combine_with(alloc, before, next)?;
    Ok(both)
}

/// Combines a partial answer with those before it, if there are any.
///
/// What is refused is what [`PartialAnswer::combined`] refuses.
pub fn combine_with(
    alloc: Global,
    before: Option<PartialAnswer>,
    next: PartialAnswer,
) -> Result<PartialAnswer, PartialAnswerFault>
    ensures combined { IfOk result (λ both. Follows before next both) }
    ensures refused { IfErr result (λ e. RefusesToFollow e before next) }
{
    match before {
        None => Ok(next),
        Some(before) => before.combined(alloc, next),
    }
}
