//! The call that merges two files.
ghost use Rattle.std.specs.Prelude.{◌≡◌};
ghost use Rattle.lanes_c.specs.Calls.{Yields, merge_of};
ghost use Rattle.lanes_c.specs.Rooms.{Tells, given_by};

use crate::fault::{Fault, Place};
use crate::room::hand_out;
use crate::taking::taken;
use replica_changes::merge;
use std::alloc::Global;
use table_model::Counted;

/// The canonical file of what two files hold.
fn merged<'a>(alloc: Global, one: &'a [u8], other: &'a [u8]) -> Result<Vec<u8>, Fault>
    ensures { Yields (given_by result) (merge_of one.now other.now) }
{
    let mut writer = Counted::new(Vec::new(alloc));
    let done = merge(
        alloc,
        &mut Counted::new(one),
        &mut [Counted::new(other)],
        &mut writer,
    );
    taken(done, writer)
}

/// Merges two files. It gives the canonical file of what both hold, whichever comes first.
///
/// Refused are, in this order, the first fault of the one file, that of the other, `SchemaDiffers`, `Conflict` with the least name that
/// has two lists of rows, and `Full`.
#[unsafe(no_mangle)]
pub extern "C" fn lanes_merge(
    alloc: Global,
    one: &[u8],
    other: &[u8],
    room: &mut [u8],
    length: &mut usize,
    place: &mut Place,
) -> u8
    ensures { Tells (λ given. Yields given (merge_of one.now other.now)) result room.old room.new length.new place.new }
{
    hand_out(merged(alloc, one, other), room, length, place)
}
