//! Checks of canonical files.
ghost use Rattle.std.specs.Prelude.{◌≡◌, ◌≢◌, IfErr};
ghost use Rattle.table_model.specs.declared.refusal.Refusal.TheVariants.{WriteFault};
ghost use Rattle.lanes_main.specs.FileReport.{check_report, is_refusal_of_checking, Reports, EndsReport};

use replica_reports::{OpenFile, check};
use std::alloc::Global;
use std::io::{Read, Write};
use table_model::{Counted, Refusal};

/// Checks a canonical file, and writes how many batches and maximal ranges it has: `ok batches=B ranges=R` and a line feed.
///
/// The refusals are the faults of [`OpenFile::read`], and then a write that fails (`WriteFault`). After that, what was written is
/// a beginning of the line; before any other refusal nothing is written. `ReadFault` is answered only if the reader's count of
/// failures rose or it gave more than 2^48 bytes, and `WriteFault` only if the writer's count rose.
pub fn check_file<R: Read, W: Write>(
    alloc: Global,
    reader: &mut Counted<R>,
    writer: &mut Counted<W>,
) -> Result<(), Refusal>
    ensures told { Reports result (R.remaining reader.old.0) (W.contents writer.old.0) (W.contents writer.new.0) check_report }
    ensures unwritten { IfErr result (λ e. e ≢ WriteFault → writer.new ≡ writer.old) }
    ensures ends { EndsReport R.remaining is_refusal_of_checking reader.old reader.new writer.old writer.new result }
{
    let file = OpenFile::read(alloc, reader)?;
    check(alloc, &file, writer)
}
