//! Scripts.

use crate::opening::drawn_hash_key;
use command_line::{Run, Source};
use lanes_main::script_with_notes;
use program_failures::{Failure, unread};
use program_inputs::{Host, Progress, Watched, source_of};
use refusal_sentences::CommandRefusal;
use std::io::{self, Write};
use table_model::{Counted, Refusal};

/// What a person at a terminal reads.
const WAITING: &str =
    "lanes: reading a script's lines; lanes run --help shows some, and an end of input ends it\n";

/// Runs a script to its end, and writes its replies to standard output, and if that is asked for its notes. If a person would
/// have to type it, the notes say that lines are waited for.
pub fn run<R: Host, N: Write>(
    rt: &R,
    progress: &Progress<'_, R>,
    asked: &Run<'_>,
    is_typed: bool,
    notes: &mut N,
) -> Result<(), Failure> {
    let source = asked.source;
    if is_typed && source == Source::Input {
        let _ = notes.write_all(WAITING.as_bytes());
    }
    let hash_key = drawn_hash_key(rt);
    let mut reader = source_of(rt, progress, source);
    let mut writer = Counted::new(Watched::new(io::writer(rt)));
    let outcome = if asked.is_explained {
        script_with_notes(rt.alloc(), hash_key, &mut reader, &mut writer, notes)
    } else {
        script_with_notes(
            rt.alloc(),
            hash_key,
            &mut reader,
            &mut writer,
            &mut io::sink(),
        )
    };
    match writer.into_inner().ended(outcome) {
        Ok(()) => Ok(()),
        Err(cause) if cause.refusal == Refusal::WriteFault => {
            Err(Failure::of_output(rt.alloc(), cause))
        }
        Err(cause) => Err(unread(rt, CommandRefusal::from(cause.refusal), source, &[])),
    }
}
