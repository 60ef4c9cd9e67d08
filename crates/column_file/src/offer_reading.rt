//! Reading an offer from bytes.
ghost use Rattle.std.specs.Prelude.{◌≡◌, ◌≤◌, IsTrue, IfOk};
ghost use Rattle.std.specs.List.{All};
ghost use Rattle.table_model.specs.Name.{is_proper_name};
ghost use Rattle.catalogue_join.specs.RowRange.{RowRange, rows_in};
ghost use Rattle.table_model.specs.Reading.{Reads};
ghost use Rattle.column_file.specs.Files.{IsRangeGiven, offer_read};
ghost use Rattle.column_file.specs.Input.{Judges, ReadsWhole, is_refusal_of_offer};

use crate::container_reading::read_container;
use crate::input::read_input;
use crate::ranges::tombs_of;
use replica_store::Offer;
use std::alloc::Global;
use std::io::Read;
use table_model::{Counted, Refusal};

/// The offer that bytes are. The refusal is their first fault, or `Memory`, which can come in place of any of them.
pub(crate) fn offer_in(alloc: Global, bytes: &[u8]) -> Result<Offer, Refusal>
    ensures { Reads (λ x. x) result (offer_read bytes.now) }
{
    let (schema, batches, ranges) = read_container(alloc, bytes, false)?;
    let tombs = tombs_of(alloc, ranges.as_slice())?;
    Ok(Offer::from_parts(schema, batches, tombs))
}

/// The offer that a reader has, which is read to its end first.
///
/// The refusals are `ReadFault` if a read fails or more than 2^48 bytes come, and then the first fault of the bytes, with its place
/// if it has one. It grows as it reads, so `Memory` can come in place of any of them. The memory it takes is in proportion to the
/// bytes that are there.
pub fn read_offer<R: Read>(alloc: Global, reader: &mut Counted<R>) -> Result<Offer, Refusal>
    ensures read { Judges (λ x. x) result (R.remaining reader.old.0) offer_read }
    ensures reads { ReadsWhole R.remaining is_refusal_of_offer reader.old reader.new result }
{
    let input = read_input(alloc, reader)?;
    offer_in(alloc, input.as_slice())
}
