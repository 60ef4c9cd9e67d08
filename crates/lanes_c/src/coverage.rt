//! The calls that tell what a partial answer and a summary cover.
ghost use Rattle.std.specs.Prelude.{Ok};
ghost use Rattle.partial_commands.specs.Coverage.{partial_answer_coverage, summary_coverage};
ghost use Rattle.lanes_c.specs.Calls.{Yields};
ghost use Rattle.lanes_c.specs.Coverage.{InspectsPartial, coverage_of_summary};
ghost use Rattle.lanes_c.specs.Rooms.{Tells, given_by};
ghost use Rattle.lanes_c.specs.TableReading.{report_form};

use crate::fault::{Fault, Place};
use crate::room::hand_out;
use crate::table_reading::report_form;
use crate::taking::taken;
use answer_formats::ReportForm;
use column_file::read_summary;
use partial_answers::PartialAnswer;
use partial_commands::{inspect_partial_answer, inspect_summary};
use partial_file::read_partial_answer;
use replica_store::Summary;
use std::alloc::Global;
use table_model::Counted;

/// What a partial answer covers.
fn covered(alloc: Global, partial: &PartialAnswer, form: ReportForm) -> Result<Vec<u8>, Fault>
    ensures { Yields (given_by result) (Ok (partial_answer_coverage form partial.now)) }
{
    let mut writer = Counted::new(Vec::new(alloc));
    let done = inspect_partial_answer(alloc, partial, form, &mut writer);
    taken(done, writer)
}

/// What a partial answer in bytes covers.
fn partial_inspected(alloc: Global, partial: &[u8], form: ReportForm) -> Result<Vec<u8>, Fault>
    ensures { InspectsPartial (given_by result) form partial.now }
{
    let partial = read_partial_answer(alloc, &mut Counted::new(partial))?;
    covered(alloc, &partial, form)
}

/// Which batches a summary names.
fn named(alloc: Global, summary: &Summary, form: ReportForm) -> Result<Vec<u8>, Fault>
    ensures { Yields (given_by result) (Ok (summary_coverage form summary.now)) }
{
    let mut writer = Counted::new(Vec::new(alloc));
    let done = inspect_summary(alloc, summary, form, &mut writer);
    taken(done, writer)
}

/// Which batches a summary in bytes names.
fn summary_inspected(alloc: Global, summary: &[u8], form: ReportForm) -> Result<Vec<u8>, Fault>
    ensures { Yields (given_by result) (coverage_of_summary form summary.now) }
{
    let summary = read_summary(alloc, &mut Counted::new(summary))?;
    named(alloc, &summary, form)
}

/// Gives what a partial answer covers, as `lanes inspect` writes it: its table, its query, how many groups it has, and which batches
/// were counted; in the format of a number, 2 for JSON and each other for a text. Refused is the partial answer's first fault.
#[unsafe(no_mangle)]
pub extern "C" fn lanes_inspect_partial(
    alloc: Global,
    partial: &[u8],
    format: u8,
    room: &mut [u8],
    length: &mut usize,
    place: &mut Place,
) -> u8
    ensures { Tells (λ given. InspectsPartial given (report_form format) partial.now) result room.old room.new length.new place.new }
{
    let given = partial_inspected(alloc, partial, report_form(format));
    hand_out(given, room, length, place)
}

/// Gives which batches a summary names, as `lanes inspect` writes it: its table, and the runs of the names; in the format of a number,
/// 2 for JSON and each other for a text. Refused is the summary's first fault.
#[unsafe(no_mangle)]
pub extern "C" fn lanes_inspect_summary(
    alloc: Global,
    summary: &[u8],
    format: u8,
    room: &mut [u8],
    length: &mut usize,
    place: &mut Place,
) -> u8
    ensures { Tells (λ given. Yields given (coverage_of_summary (report_form format) summary.now)) result room.old room.new length.new place.new }
{
    let given = summary_inspected(alloc, summary, report_form(format));
    hand_out(given, room, length, place)
}
