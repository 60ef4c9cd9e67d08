//! The program `lanes`: replicas of a table in files, queries over them, and scripts of a whole cluster.
#![tactic(auto)]

mod commands;
mod folder_reports;
mod inspecting;
mod merging;
mod opening;
mod queries;
mod query_partial_answers;
mod reports;
mod scripts;
mod spreading;
mod typed;

use command_line::{Queries, Query, Request, not_for_a_terminal};
use program_failures::Failure;
use program_inputs::{Host, Progress};
use std::io::{IsTerminal, Write};
use std::process::ExitCode;
use std::rt::Env;

/// Which of the standard streams a person reads or types.
#[derive(Clone, Copy, Debug)]
struct Terminals {
    input: bool,
    output: bool,
    errors: bool,
}

fn main(rt: HostRuntime) -> ExitCode {
    let terminals = Terminals {
        input: rt.stdin().is_terminal(),
        output: rt.stdout().is_terminal(),
        errors: rt.stderr().is_terminal(),
    };
    let mut notes = rt.stderr();
    match run(&rt, terminals, &mut notes) {
        Ok(status) => status,
        Err(failure) => failure.report(&rt, terminals.errors, &mut notes),
    }
}

/// Does what the command line asks for, and answers the status. What else is said goes to the notes.
fn run<R: Host + Env, N: Write>(
    rt: &R,
    terminals: Terminals,
    notes: &mut N,
) -> Result<ExitCode, Failure> {
    let words = command_line::arguments(rt)?;
    let request = command_line::read_request(rt.alloc(), words.as_slice())?;
    let is_told = terminals.errors && is_told(&request, terminals.output);
    let progress = Progress::new(rt, is_told, terminals.input);
    let (command, name) = (request.command(), request.subject());
    let outcome = answer(rt, request, terminals, &progress, notes);
    progress.clear();
    match outcome {
        Ok(status) => Ok(status),
        Err(failure) => Err(failure.about(rt.alloc(), command, name)),
    }
}

/// Whether it is said at a terminal how far the reading is: unless it is to be quiet, or other lines come there meanwhile.
fn is_told(request: &Request<'_>, is_shown: bool) -> bool {
    match request {
        Request::Run(asked) => !asked.is_explained && !is_shown,
        Request::Create(_) | Request::Pack(_) => true,
        _ => !request.is_quiet(),
    }
}

/// Does what a request asks for.
fn answer<R: Host, N: Write>(
    rt: &R,
    request: Request<'_>,
    terminals: Terminals,
    progress: &Progress<'_, R>,
    notes: &mut N,
) -> Result<ExitCode, Failure> {
    if terminals.output {
        if let Some(fault) = not_for_a_terminal(rt.alloc(), &request) {
            return Err(Failure::from(fault));
        }
    }
    match request {
        Request::Run(asked) => scripts::run(rt, progress, &asked, terminals.input, notes)?,
        Request::Query(asked) => return query(rt, progress, &asked, terminals, notes),
        Request::Partial(asked) => query_partial_answers::partial(rt, progress, &asked)?,
        Request::Combine(asked) => query_partial_answers::combine(rt, progress, &asked)?,
        Request::Finish(asked) => query_partial_answers::finish(rt, progress, &asked)?,
        Request::Create(asked) => commands::create(rt, progress, &asked)?,
        Request::Import(asked) => commands::import(rt, progress, &asked)?,
        Request::Delete(asked) => commands::delete(rt, progress, &asked)?,
        Request::DeleteRows(asked) => commands::delete_rows(rt, progress, &asked)?,
        Request::Apply(asked) => commands::apply(rt, progress, &asked)?,
        Request::Forget(asked) => commands::forget(rt, progress, &asked)?,
        Request::Dump(asked) => reports::dump(rt, progress, &asked)?,
        Request::Inspect(asked) => inspecting::inspect(rt, progress, &asked)?,
        Request::Summary(asked) => reports::summary(rt, progress, asked.file)?,
        Request::Offer(asked) => reports::offer(rt, progress, &asked)?,
        Request::Check(asked) => reports::check(rt, progress, &asked)?,
        Request::Merge(asked) => merging::merge(rt, progress, &asked)?,
        Request::Spread(asked) => spreading::spread(rt, progress, &asked)?,
        Request::Pack(asked) => program_folders::pack(
            rt,
            asked.folder,
            asked.is_all,
            asked.is_quiet,
        )?,
    }
    Ok(ExitCode::SUCCESS)
}

/// Answers queries, and ends with the status of a refusal if a line was refused and passed over.
fn query<R: Host, N: Write>(
    rt: &R,
    progress: &Progress<'_, R>,
    asked: &Query<'_>,
    terminals: Terminals,
    notes: &mut N,
) -> Result<ExitCode, Failure> {
    let Query {
        file,
        queries,
        format,
    } = asked;
    let is_whole = match queries {
        Queries::Texts(texts) => {
            queries::answer_texts(rt, progress, *file, texts.as_slice(), *format)?;
            true
        }
        Queries::Lines => queries::answer_typed(
            rt,
            progress,
            *file,
            *format,
            terminals.input,
            terminals.errors,
            notes,
        )?,
    };
    Ok(if is_whole {
        ExitCode::SUCCESS
    } else {
        ExitCode::FAILURE
    })
}
