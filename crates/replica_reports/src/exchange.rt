//! Messages of a replica in a file: its summary, and its offer to another's.
ghost use Rattle.std.specs.Prelude.{◌≡◌, OnOk, Ok};
ghost use Rattle.replica_reports.specs.Held.{summarizing};
ghost use Rattle.column_file.specs.Files.{offer_bytes, offer_read};
ghost use Rattle.replica_store.specs.Exchange.{OfferForm};
ghost use Rattle.replica_reports.specs.Asking.{WritesText, offer_of, offer_text};

use crate::open_file::OpenFile;
use column_file::{write_offer, write_summary};
use replica_store::Summary;
use std::alloc::Global;
use std::io::Write;
use table_model::{Counted, Refusal};

/// Writes the summary of what a file holds: the names of its batches.
///
/// Refused are `Memory`, before anything is written, and `WriteFault`, after a front.
pub fn summary<W: Write>(
    alloc: Global,
    file: &OpenFile,
    writer: &mut Counted<W>,
) -> Result<(), Refusal>
    ensures text { WritesText result (W.contents writer.old.0) (W.contents writer.new.0) writer.old.1 writer.new.1 (summarizing file.now.replica) }
{
    let summary = file.store().summary(alloc)?;
    write_summary(&summary, writer)
}

/// Writes the offer of what a file holds to a summary: the batches whose names the summary does not list, as they are coded, and all deletions.
///
/// Refused are, in this order, `SchemaDiffers`; `Memory`; `WriteFault`. Only with the last anything is written: a front.
pub fn offer<W: Write>(
    alloc: Global,
    file: &OpenFile,
    summary: &Summary,
    writer: &mut Counted<W>,
) -> Result<(), Refusal>
    ensures text { WritesText result (W.contents writer.old.0) (W.contents writer.new.0) writer.old.1 writer.new.1 (offer_text file.now summary.now) }

    // What was written is read as that offer.
    ensures again { OnOk result ((o : OfferForm) → offer_of file.now summary.now ≡ Ok o → offer_read (offer_bytes o) ≡ Ok o) }
{
    let offer = file.store().offer(alloc, summary)?;
    write_offer(&offer, writer)
}
