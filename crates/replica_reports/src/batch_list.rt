//! The list of a file's batches: their names, how many rows they have and how many of them are live, and their digests.
ghost use Rattle.std.specs.Prelude.{◌≡◌, ◌⊎◌, ◌≢◌, ◌<◌, Ok, Some, slice_get, IfOk, IfErr, OnOk};
ghost use Rattle.std.specs.FinMap as map;
ghost use Rattle.table_model.specs.Faults.{CountsWrites};
ghost use Rattle.table_model.specs.State.{Batch};
ghost use Rattle.table_model.specs.declared.names.BatchName.{BatchName};
ghost use Rattle.table_model.specs.declared.refusal.Refusal.TheVariants.{Memory, WriteFault};
ghost use Rattle.replica_store.specs.Replica.{entries_of};
ghost use Rattle.replica_reports.specs.Asking.{WritesText};
ghost use Rattle.replica_reports.specs.BatchDigests.{digest_line, digest_list, digest_part};
ghost use Rattle.replica_reports.specs.Counts.{batch_line, batch_list, list_heading};

use crate::batch_counts::{BatchCounts, counts_at};
use crate::batch_digest::batch_digest;
use crate::open_file::OpenFile;
use answer_formats::ReportForm;
use replica_store::Store;
use std::alloc::{AllocError, Global};
use std::io::Write;
use table_model::{Counted, Refusal};

/// The headings of the list as text.
const HEADINGS: &str = "BATCH,ROWS,LIVE\n";

/// The headings of the list with digests as text.
const HEADINGS_WITH_DIGESTS: &str = "BATCH,ROWS,LIVE,DIGEST\n";

/// The line of a batch, with more behind its counts.
fn batch_line(
    alloc: Global,
    form: ReportForm,
    counts: BatchCounts,
    more: &str,
) -> Result<String, AllocError>
    ensures { IfOk result (λ line. line.bytes.items ≡ batch_line form counts more.now) }
{
    let BatchCounts { name, rows, live } = counts;
    match form {
        ReportForm::Text => format!(in alloc; "{name},{rows},{live}{more}\n"),
        ReportForm::Json => format!(in alloc;
            "{{\"batch\":\"{name}\",\"rows\":{rows},\"live\":{live}{more}}}\n"
        ),
    }
}

/// The list before its first batch: as text these headings.
fn empty_list(alloc: Global, form: ReportForm, headings: &str) -> Result<Vec<u8>, AllocError>
    ensures { IfOk result (λ list. list.items ≡ list_heading form headings.now) }
{
    let mut out = Vec::new(alloc);
    if form == ReportForm::Text {
        out.extend_from_slice(headings.as_bytes())?;
    }
    Ok(out)
}

/// The lines of all batches, in ascending order of name.
fn list(alloc: Global, store: &Store, form: ReportForm) -> Result<Vec<u8>, AllocError>
    ensures { IfOk result (λ list. list.items ≡ batch_list form store.now.replica.state) }
{
    let mut out = empty_list(alloc, form, HEADINGS)?;
    for index in 0..store.batches() {
        let line = batch_line(alloc, form, counts_at(store, index), "")?;
        out.extend_from_slice(line.as_bytes())?;
    }
    Ok(out)
}

/// What a line tells of a batch's digest, behind the counts.
fn digest_part(alloc: Global, form: ReportForm, digest: &str) -> Result<String, AllocError>
    ensures { IfOk result (λ part. part.bytes.items ≡ digest_part form digest.now) }
{
    match form {
        ReportForm::Text => format!(in alloc; ",{digest}"),
        ReportForm::Json => format!(in alloc; ",\"digest\":\"{digest}\""),
    }
}

/// The line of the batch at this place with its digest.
fn digest_line(
    alloc: Global,
    store: &Store,
    form: ReportForm,
    index: usize,
) -> Result<String, Refusal>
    requires { index < map.len store.now.replica.state.batches }
    ensures line { IfOk result (λ line. (e : BatchName × Batch) → slice_get (entries_of store.now.replica) index ≡ Some e → line.bytes.items ≡ digest_line form store.now.replica e) }
    ensures refused { IfErr result (λ e. e ≡ Memory) }
{
    let digest = batch_digest(alloc, store, index)?;
    let part = digest_part(alloc, form, digest.as_str())?;
    let line = batch_line(alloc, form, counts_at(store, index), part.as_str())?;
    Ok(line)
}

/// The list of a store's batches with their digests, as [`list_batches_with_digests`] writes it. Refused is only `Memory`.
pub fn batch_digests(alloc: Global, store: &Store, form: ReportForm) -> Result<Vec<u8>, Refusal>
    ensures list { IfOk result (λ list. list.items ≡ digest_list form store.now.replica) }
    ensures refused { IfErr result (λ e. e ≡ Memory) }
{
    let mut out = empty_list(alloc, form, HEADINGS_WITH_DIGESTS)?;
    for place in 0..store.batches() {
        let line = digest_line(alloc, store, form, place)?;
        out.extend_from_slice(line.as_bytes())?;
    }
    Ok(out)
}

/// Writes a line for each of a file's batches, in ascending order of name: its name, how many rows it has, and how many of them are
/// live. As text it begins with a line of headings, and fields are separated by commas; as JSON each line is an object.
///
/// Refused are `Memory`, before anything is written, and `WriteFault`, after a front.
pub fn list_batches<W: Write>(
    alloc: Global,
    file: &OpenFile,
    form: ReportForm,
    writer: &mut Counted<W>,
) -> Result<(), Refusal>
    ensures text { WritesText result (W.contents writer.old.0) (W.contents writer.new.0) writer.old.1 writer.new.1 (Ok (batch_list form file.now.replica.state)) }
    ensures refused { IfErr result (λ e. (e ≡ Memory) ⊎ (e ≡ WriteFault)) }
    ensures unwritten { IfErr result (λ e. e ≢ WriteFault → W.contents writer.new.0 ≡ W.contents writer.old.0) }
    ensures kept { OnOk result (writer.new.1 ≡ writer.old.1) }
    ensures fault { IfErr result (λ e. CountsWrites e writer.old.1 writer.new.1) }
{
    let text = list(alloc, file.store(), form)?;
    writer.write_whole(text.as_slice())
}

/// Writes the list of a file's batches with a digest behind the counts of each: as text in a column `DIGEST`, and as JSON under the key
/// `digest`. A batch's digest is the first 32 hexadecimal digits of the SHA-512 of the canonical file of the table that has this batch
/// alone, with all its rows and no deletions. So it does not depend on what is deleted, and replicas of one table that hold the same rows
/// under a name have the same digest there. But for a collision, others don't.
///
/// A copy of one batch and its file are in memory at a time. Refused are `Memory`, before anything is written, and `WriteFault`, after a
/// front.
pub fn list_batches_with_digests<W: Write>(
    alloc: Global,
    file: &OpenFile,
    form: ReportForm,
    writer: &mut Counted<W>,
) -> Result<(), Refusal>
    ensures text { WritesText result (W.contents writer.old.0) (W.contents writer.new.0) writer.old.1 writer.new.1 (Ok (digest_list form file.now.replica)) }
    ensures refused { IfErr result (λ e. (e ≡ Memory) ⊎ (e ≡ WriteFault)) }
    ensures unwritten { IfErr result (λ e. e ≢ WriteFault → W.contents writer.new.0 ≡ W.contents writer.old.0) }
    ensures kept { OnOk result (writer.new.1 ≡ writer.old.1) }
    ensures fault { IfErr result (λ e. CountsWrites e writer.old.1 writer.new.1) }
{
    let list = batch_digests(alloc, file.store(), form)?;
    writer.write_whole(list.as_slice())
}
