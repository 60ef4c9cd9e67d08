//! Why inputs are refused, said of the source of each.

use crate::failure::Failure;
use command_line::Source;
use program_inputs::{Host, SourceReader};
use refusal_sentences::CommandRefusal;
use std::fs::Files;
use table_model::{Refusal, Schema};

/// A refusal of what was read from a source, by its reader.
pub fn unread_by<R: Host>(
    rt: &R,
    refusal: CommandRefusal,
    source: Source<'_>,
    reader: SourceReader<'_, '_, R>,
) -> Failure {
    unread(
        rt,
        refusal,
        source,
        reader.into_inner().into_inner().beginning(),
    )
}

/// A refusal of what was read from a source, which begins with these bytes.
pub fn unread<R: Files + AllocGlobal>(
    rt: &R,
    refusal: CommandRefusal,
    source: Source<'_>,
    beginning: &[u8],
) -> Failure {
    match source {
        Source::File(name) => Failure::of_input(rt, refusal, name, beginning),
        Source::Input => Failure::of_standard_input(rt.alloc(), refusal, beginning),
    }
}

/// A refusal of one of some messages, which were read from these sources: its table, if it is known, is another one than that of a file
/// or a partial answer, which has this name.
pub fn of_other_table<R: Files + AllocGlobal>(
    rt: &R,
    name: &str,
    wanted: &Schema,
    found: Option<(usize, &Schema)>,
    sources: &[Source<'_>],
) -> Failure {
    match found {
        Some((index, found)) => {
            Failure::of_tables(rt.alloc(), name_at(sources, index), found, name, wanted)
        }
        None => Failure::of_file(rt, CommandRefusal::from(Refusal::SchemaDiffers), name),
    }
}

/// What a source is called in a sentence, by its index.
fn name_at<'a>(sources: &[Source<'a>], index: usize) -> &'a str {
    match sources.get(index) {
        Some(source) => source.name(),
        None => "",
    }
}
