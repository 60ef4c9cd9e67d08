//! The calls of an exchange: a summary, an offer to it, and taking an offer.
ghost use Rattle.std.specs.Prelude.{◌≡◌};
ghost use Rattle.lanes_c.specs.Calls.{Yields, summary_of, apply_of, OffersAt, OffersTo};
ghost use Rattle.lanes_c.specs.Rooms.{Tells, given_by};
ghost use Rattle.replica_reports.specs.Held.{summarizing};

use crate::fault::{Fault, Place};
use crate::file_changes::changed;
use crate::opening::opened_file;
use crate::room::hand_out;
use crate::taking::taken;
use column_file::{read_offer, read_summary};
use replica_changes::Command;
use replica_reports::{OpenFile, offer, summary};
use replica_store::Summary;
use std::alloc::Global;
use table_model::Counted;

/// The summary of what is open.
fn message_of(alloc: Global, file: &OpenFile) -> Result<Vec<u8>, Fault>
    ensures { Yields (given_by result) (summarizing file.now.replica) }
{
    let mut writer = Counted::new(Vec::new(alloc));
    let done = summary(alloc, file, &mut writer);
    taken(done, writer)
}

/// The summary of what a file holds.
fn summarized(alloc: Global, file: &[u8]) -> Result<Vec<u8>, Fault>
    ensures { Yields (given_by result) (summary_of file.now) }
{
    let open = opened_file(alloc, file)?;
    message_of(alloc, &open)
}

/// The offer of what is open to a summary.
fn reply_of(alloc: Global, file: &OpenFile, summary: &Summary) -> Result<Vec<u8>, Fault>
    ensures { OffersAt (given_by result) file.now summary.now }
{
    let mut writer = Counted::new(Vec::new(alloc));
    let done = offer(alloc, file, summary, &mut writer);
    taken(done, writer)
}

/// The offer of what a file holds to a summary.
fn offered(alloc: Global, file: &[u8], summary: &[u8]) -> Result<Vec<u8>, Fault>
    ensures { OffersTo (given_by result) summary.now file.now }
{
    let summary = read_summary(alloc, &mut Counted::new(summary))?;
    let open = opened_file(alloc, file)?;
    reply_of(alloc, &open, &summary)
}

/// The file that has what an offer brings.
fn applied(alloc: Global, file: &[u8], offer: &[u8]) -> Result<Vec<u8>, Fault>
    ensures { Yields (given_by result) (apply_of offer.now file.now) }
{
    let offer = read_offer(alloc, &mut Counted::new(offer))?;
    let offers = vec![in alloc; offer]?;
    changed(alloc, file, Command::Apply { offers })
}

/// Gives the summary of what a file holds: the names of its batches. Refused is the file's first fault.
#[unsafe(no_mangle)]
pub extern "C" fn lanes_summary(
    alloc: Global,
    file: &[u8],
    room: &mut [u8],
    length: &mut usize,
    place: &mut Place,
) -> u8
    ensures { Tells (λ given. Yields given (summary_of file.now)) result room.old room.new length.new place.new }
{
    hand_out(summarized(alloc, file), room, length, place)
}

/// Gives the offer of what a file holds to another's summary: the batches that the other does not have, and all deletions.
///
/// Refused are, in this order, the summary's first fault, the file's, and `SchemaDiffers`.
#[unsafe(no_mangle)]
pub extern "C" fn lanes_offer(
    alloc: Global,
    file: &[u8],
    summary: &[u8],
    room: &mut [u8],
    length: &mut usize,
    place: &mut Place,
) -> u8
    ensures { Tells (λ given. OffersTo given summary.now file.now) result room.old room.new length.new place.new }
{
    hand_out(offered(alloc, file, summary), room, length, place)
}

/// Applies an offer to a file. It gives the canonical file that has both, which is the file itself if the offer brings nothing.
///
/// Refused are, in this order, the offer's first fault, the file's, `SchemaDiffers`, `Conflict` with the least name that has two lists
/// of rows, and `Full`.
#[unsafe(no_mangle)]
pub extern "C" fn lanes_apply(
    alloc: Global,
    file: &[u8],
    offer: &[u8],
    room: &mut [u8],
    length: &mut usize,
    place: &mut Place,
) -> u8
    ensures { Tells (λ given. Yields given (apply_of offer.now file.now)) result room.old room.new length.new place.new }
{
    hand_out(applied(alloc, file, offer), room, length, place)
}
