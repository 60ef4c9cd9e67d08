//! Runs of the names of batches as texts: a line for each, or a list of JSON.
ghost use Rattle.std.specs.Prelude.{◌≡◌, ◌++◌, ◌==◌, [], codes, cond, map, IfOk, OnOk};
ghost use Rattle.std.specs.List.{flat_map};
ghost use Rattle.answer_formats.specs.Formats.{separated};
ghost use Rattle.partial_commands.specs.Coverage.{last_of, pair_list, run_line, run_lines, run_pair, run_pairs};

use catalogue_join::{Held, Run};
use std::alloc::{AllocError, Global};
use table_model::BatchName;

/// The last name of a run.
fn last_name(run: Run) -> BatchName
    ensures { result ≡ last_of run }
{
    BatchName {
        origin: run.first.origin,
        number: run.last,
    }
}

/// The line of a run: its first name and its last.
fn run_line(alloc: Global, run: Run) -> Result<String, AllocError>
    ensures { IfOk result (λ line. line.bytes.items ≡ run_line run) }
{
    let first = run.first;
    let last = last_name(run);
    format!(in alloc; "run {first} {last}\n")
}

/// A run as a list of JSON: its first name and its last.
fn run_pair(alloc: Global, run: Run) -> Result<String, AllocError>
    ensures { IfOk result (λ pair. pair.bytes.items ≡ run_pair run) }
{
    let first = run.first;
    let last = last_name(run);
    format!(in alloc; "[\"{first}\",\"{last}\"]")
}

/// Puts the lines of runs behind a text.
fn push_lines(alloc: Global, out: &mut Vec<u8>, runs: &[Run]) -> Result<(), AllocError>
    ensures { OnOk result (out.new.items ≡ out.old.items ++ flat_map run_line runs.now) }
{
    for run in runs {
        let line = run_line(alloc, *run)?;
        out.extend_from_slice(line.as_bytes())?;
    }
    Ok(())
}

/// Puts the lines of the maximal runs of a set of names behind a text.
pub(crate) fn push_run_lines(
    alloc: Global,
    out: &mut Vec<u8>,
    names: &Held,
) -> Result<(), AllocError>
    ensures { OnOk result (out.new.items ≡ out.old.items ++ run_lines names.now) }
{
    push_lines(alloc, out, names.runs())
}

/// Puts a comma behind a text, unless nothing is before it in its list.
fn separate(out: &mut Vec<u8>, index: usize) -> Result<(), AllocError>
    ensures { OnOk result (out.new.items ≡ out.old.items ++ cond (index == 0) [] (codes ",")) }
{
    if index == 0 {
        return Ok(());
    }
    out.extend_from_slice(b",")
}

/// Puts runs as lists of JSON behind a text, with commas between.
fn push_pairs(alloc: Global, out: &mut Vec<u8>, runs: &[Run]) -> Result<(), AllocError>
    ensures { OnOk result (out.new.items ≡ out.old.items ++ separated (codes ",") (map run_pair runs.now)) }
{
    for index in 0..runs.len() {
        separate(out, index)?;
        let pair = run_pair(alloc, runs[index])?;
        out.extend_from_slice(pair.as_bytes())?;
    }
    Ok(())
}

/// Puts runs as a list of JSON behind a text.
fn push_pair_list(alloc: Global, out: &mut Vec<u8>, runs: &[Run]) -> Result<(), AllocError>
    ensures { OnOk result (out.new.items ≡ out.old.items ++ pair_list runs.now) }
{
    out.extend_from_slice(b"[")?;
    push_pairs(alloc, out, runs)?;
    out.extend_from_slice(b"]")
}

/// Puts the maximal runs of a set of names as a list of JSON behind a text.
pub(crate) fn push_run_pairs(
    alloc: Global,
    out: &mut Vec<u8>,
    names: &Held,
) -> Result<(), AllocError>
    ensures { OnOk result (out.new.items ≡ out.old.items ++ run_pairs names.now) }
{
    push_pair_list(alloc, out, names.runs())
}
