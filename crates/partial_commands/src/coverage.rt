//! What a partial answer and a summary cover, as a report: the table, the query, and which batches, as runs of their names.
ghost use Rattle.std.specs.Prelude.{◌≡◌, ◌≢◌, ◌⊎◌, ◌++◌, Ok, IfOk, IfErr, OnOk};
ghost use Rattle.table_model.specs.Faults.{CountsWrites};
ghost use Rattle.table_model.specs.declared.refusal.Refusal.TheVariants.{Memory, WriteFault};
ghost use Rattle.replica_reports.specs.Asking.{WritesText};
ghost use Rattle.partial_commands.specs.Coverage.{groups_and_batches, held_and_strays, names_listed, partial_answer_coverage, summary_coverage, table_and_batches, table_and_query};

use crate::run_lists::{push_run_lines, push_run_pairs};
use crate::shown_text::{push_json, push_shown};
use answer_formats::ReportForm;
use catalogue_join::Held;
use partial_answers::PartialAnswer;
use replica_store::Summary;
use std::alloc::{AllocError, Global};
use std::io::Write;
use table_model::{Counted, Refusal};

/// Puts the table and the query of a partial answer behind a text.
fn push_table_and_query(
    out: &mut Vec<u8>,
    table: &str,
    query: &str,
    form: ReportForm,
) -> Result<(), AllocError>
    ensures { OnOk result (out.new.items ≡ out.old.items ++ table_and_query form table.now query.now) }
{
    match form {
        ReportForm::Text => {
            out.extend_from_slice(b"table ")?;
            out.extend_from_slice(table.as_bytes())?;
            out.extend_from_slice(b"\nquery ")?;
            push_shown(out, query.as_bytes())
        }
        ReportForm::Json => {
            out.extend_from_slice(b"{\"table\":\"")?;
            out.extend_from_slice(table.as_bytes())?;
            out.extend_from_slice(b"\",\"query\":\"")?;
            push_json(out, query.as_bytes())
        }
    }
}

/// How many groups a partial answer has, and how many batches were counted.
fn groups_and_batches(
    alloc: Global,
    groups: usize,
    batches: usize,
    form: ReportForm,
) -> Result<String, AllocError>
    ensures { IfOk result (λ text. text.bytes.items ≡ groups_and_batches form groups batches) }
{
    match form {
        ReportForm::Text => format!(in alloc; "\ngroups {groups}\nbatches {batches}\n"),
        ReportForm::Json => format!(in alloc;
            "\",\"groups\":{groups},\"batches\":{batches},\"runs\":"
        ),
    }
}

/// Puts which batches were counted behind a text; as JSON also of which others rows are deleted.
fn push_held_and_strays(
    alloc: Global,
    out: &mut Vec<u8>,
    held: &Held,
    strays: &Held,
    form: ReportForm,
) -> Result<(), AllocError>
    ensures { OnOk result (out.new.items ≡ out.old.items ++ held_and_strays form held.now strays.now) }
{
    match form {
        ReportForm::Text => push_run_lines(alloc, out, held),
        ReportForm::Json => {
            push_run_pairs(alloc, out, held)?;
            out.extend_from_slice(b",\"strays\":")?;
            push_run_pairs(alloc, out, strays)?;
            out.extend_from_slice(b"}\n")
        }
    }
}

/// What is told of a partial answer.
fn partial_answer_coverage(
    alloc: Global,
    partial: &PartialAnswer,
    form: ReportForm,
) -> Result<Vec<u8>, AllocError>
    ensures { IfOk result (λ text. text.items ≡ partial_answer_coverage form partial.now) }
{
    let groups = partial.groups().len();
    let batches = partial.held().len();
    let mut out = Vec::new(alloc);
    push_table_and_query(&mut out, partial.schema().table(), partial.text(), form)?;
    let counts = groups_and_batches(alloc, groups, batches, form)?;
    out.extend_from_slice(counts.as_bytes())?;
    push_held_and_strays(alloc, &mut out, partial.held(), partial.strays(), form)?;
    Ok(out)
}

/// The table of a summary, and how many batches it names.
fn table_and_batches(
    alloc: Global,
    table: &str,
    batches: usize,
    form: ReportForm,
) -> Result<String, AllocError>
    ensures { IfOk result (λ text. text.bytes.items ≡ table_and_batches form table.now batches) }
{
    match form {
        ReportForm::Text => format!(in alloc; "table {table}\nbatches {batches}\n"),
        ReportForm::Json => format!(in alloc;
            "{{\"table\":\"{table}\",\"batches\":{batches},\"runs\":"
        ),
    }
}

/// Puts which batches a summary names behind a text.
fn push_names_listed(
    alloc: Global,
    out: &mut Vec<u8>,
    names: &Held,
    form: ReportForm,
) -> Result<(), AllocError>
    ensures { OnOk result (out.new.items ≡ out.old.items ++ names_listed form names.now) }
{
    match form {
        ReportForm::Text => push_run_lines(alloc, out, names),
        ReportForm::Json => {
            push_run_pairs(alloc, out, names)?;
            out.extend_from_slice(b"}\n")
        }
    }
}

/// What is told of a summary.
fn summary_coverage(
    alloc: Global,
    summary: &Summary,
    form: ReportForm,
) -> Result<Vec<u8>, AllocError>
    ensures { IfOk result (λ text. text.items ≡ summary_coverage form summary.now) }
{
    let batches = summary.names().len();
    let mut out = table_and_batches(alloc, summary.schema().table(), batches, form)?.into_bytes();
    push_names_listed(alloc, &mut out, summary.names(), form)?;
    Ok(out)
}

/// Writes what a partial answer covers: its table, its query, how many groups it has, how many batches were counted, and a line for
/// each maximal run of their names, with the first and the last. As JSON it is an object in one line, which also has the runs of the
/// names of batches that were not counted and of which rows are deleted.
///
/// Refused are `Memory`, before anything is written, and `WriteFault`, after a front.
pub fn inspect_partial_answer<W: Write>(
    alloc: Global,
    partial: &PartialAnswer,
    form: ReportForm,
    writer: &mut Counted<W>,
) -> Result<(), Refusal>
    ensures text { WritesText result (W.contents writer.old.0) (W.contents writer.new.0) writer.old.1 writer.new.1 (Ok (partial_answer_coverage form partial.now)) }
    ensures refused { IfErr result (λ e. (e ≡ Memory) ⊎ (e ≡ WriteFault)) }
    ensures unwritten { IfErr result (λ e. e ≢ WriteFault → W.contents writer.new.0 ≡ W.contents writer.old.0) }
    ensures kept { OnOk result (writer.new.1 ≡ writer.old.1) }
    ensures fault { IfErr result (λ e. CountsWrites e writer.old.1 writer.new.1) }
{
    let text = partial_answer_coverage(alloc, partial, form)?;
    writer.write_whole(text.as_slice())
}

/// Writes which batches a summary names: its table, how many batches it names, and a line for each maximal run of their names, with
/// the first and the last. As JSON it is an object in one line.
///
/// Refused are `Memory`, before anything is written, and `WriteFault`, after a front.
pub fn inspect_summary<W: Write>(
    alloc: Global,
    summary: &Summary,
    form: ReportForm,
    writer: &mut Counted<W>,
) -> Result<(), Refusal>
    ensures text { WritesText result (W.contents writer.old.0) (W.contents writer.new.0) writer.old.1 writer.new.1 (Ok (summary_coverage form summary.now)) }
    ensures refused { IfErr result (λ e. (e ≡ Memory) ⊎ (e ≡ WriteFault)) }
    ensures unwritten { IfErr result (λ e. e ≢ WriteFault → W.contents writer.new.0 ≡ W.contents writer.old.0) }
    ensures kept { OnOk result (writer.new.1 ≡ writer.old.1) }
    ensures fault { IfErr result (λ e. CountsWrites e writer.old.1 writer.new.1) }
{
    let text = summary_coverage(alloc, summary, form)?;
    writer.write_whole(text.as_slice())
}
