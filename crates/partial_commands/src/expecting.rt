//! The answer of a partial answer that has to cover what summaries expect: each batch that one of them names was counted.
ghost use Rattle.std.specs.Prelude.{◌≡◌, IfOk, IfErr, OnOk};
ghost use Rattle.std.specs.FinSet as set;
ghost use Rattle.table_model.specs.declared.names.BatchName.{BatchName as Name};
ghost use Rattle.partial_commands.specs.Expecting.{CountsUnexpected, Covers, IsFirstMissing, IsUncovered, WritesExpected, are_of_table, is_expected};

use crate::expectation_error::ExpectationError;
use crate::finishing::answer_text;
use answer_formats::Format;
use catalogue_join::Held;
use partial_answers::PartialAnswer;
use replica_store::Summary;
use std::alloc::{AllocError, Global};
use std::io::Write;
use table_model::{BatchName, Counted, Schema};

/// Whether all of some summaries are of a table.
fn are_of_table(schema: &Schema, summaries: &[Summary]) -> bool
    ensures { result ≡ are_of_table schema.now summaries.now }
{
    summaries
        .iter()
        .all(|summary| schema.same(summary.schema()))
}

/// All names of some summaries.
fn expected_names(alloc: Global, summaries: &[Summary]) -> Result<Held, AllocError>
    ensures { IfOk result (λ names. (name : Name) → set.contains names name ≡ is_expected summaries.now name) }
{
    let mut names = Held::new(alloc);
    for summary in summaries {
        names.join(summary.names())?;
    }
    Ok(names)
}

/// The least name of some summaries that a set does not have, if there is one.
fn first_missing(
    alloc: Global,
    held: &Held,
    summaries: &[Summary],
) -> Result<Option<BatchName>, AllocError>
    ensures { IfOk result (λ first. IsFirstMissing held.now summaries.now first) }
{
    let names = expected_names(alloc, summaries)?;
    let missing = names.missing_from(held)?;
    Ok(missing.as_slice().first().copied())
}

/// Says whether a partial answer covers what summaries expect.
fn expect(
    alloc: Global,
    partial: &PartialAnswer,
    summaries: &[Summary],
) -> Result<(), ExpectationError>
    ensures covered { OnOk result (Covers partial.now summaries.now) }
    ensures refused { IfErr result (λ e. IsUncovered e partial.now summaries.now) }
{
    if !are_of_table(partial.schema(), summaries) {
        return Err(ExpectationError::SchemaDiffers);
    }
    let missing = first_missing(alloc, partial.held(), summaries)?;
    match missing {
        Some(name) => Err(ExpectationError::Missing(name)),
        None => Ok(()),
    }
}

/// Writes the answer that a partial answer finishes to, in a format, if it counted each batch that one of some summaries names.
///
/// The refusals are, in this order: `SchemaDiffers` if a summary is of another table; `Missing` with the least batch that a summary
/// names and that was not counted; what [`PartialAnswer::finish`] refuses; `Memory`, which can come in place of the last two;
/// `WriteFault`. Only with the last anything is written: a front.
pub fn write_expected_answer<W: Write>(
    alloc: Global,
    partial: PartialAnswer,
    summaries: &[Summary],
    format: Format,
    writer: &mut Counted<W>,
) -> Result<(), ExpectationError>
    ensures told { WritesExpected format result partial summaries.now (W.contents writer.old.0) (W.contents writer.new.0) }
    ensures kept { OnOk result (writer.new.1 ≡ writer.old.1) }
    ensures fault { IfErr result (λ e. CountsUnexpected e writer.old.1 writer.new.1) }
{
    expect(alloc, &partial, summaries)?;
    let text = answer_text(alloc, partial, format)?;
    writer.write_whole(text.as_slice())?;
    Ok(())
}
