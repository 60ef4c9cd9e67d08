//! Queries over a file.
ghost use Rattle.std.specs.Prelude.{◌≡◌, map, Err};
ghost use Rattle.table_model.specs.declared.refusal.Refusal.TheVariants.{ReadFault};
ghost use Rattle.lanes_main.specs.FileReport.{queries_report, is_refusal_of_querying, Reports, EndsReport};

use answer_formats::Format;
use replica_reports::{OpenFile, answer_all};
use std::alloc::Global;
use std::io::{Read, Write};
use table_model::{Counted, Refusal};

/// Writes the answers of queries over a canonical file, one after another.
///
/// The refusals are, in this order, those of [`OpenFile::read`]; then those of one query after another, with the answers before it
/// written; `Memory`; `WriteFault`. `ReadFault` is answered only if the reader's count of failures rose or it gave more than 2^48
/// bytes, and then nothing is written. `WriteFault` is answered only if the writer's count rose. Then, and after `Memory`, what was
/// written is a beginning of the answers.
pub fn query_file<R: Read, W: Write>(
    alloc: Global,
    reader: &mut Counted<R>,
    queries: &[&str],
    writer: &mut Counted<W>,
) -> Result<(), Refusal>
    ensures told { Reports result (R.remaining reader.old.0) (W.contents writer.old.0) (W.contents writer.new.0) (queries_report (map (λ query. query.now) queries.now)) }
    ensures unread { result ≡ Err ReadFault → writer.new ≡ writer.old }
    ensures ends { EndsReport R.remaining is_refusal_of_querying reader.old reader.new writer.old writer.new result }
{
    let file = OpenFile::read(alloc, reader)?;
    match answer_all(alloc, &file, queries, Format::Text, writer) {
        Ok(()) => Ok(()),
        Err(stopped) => Err(stopped.refusal),
    }
}
