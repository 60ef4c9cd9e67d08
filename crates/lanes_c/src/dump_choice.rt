//! The call that gives some rows and columns of a file as comma-separated values.
ghost use Rattle.std.specs.Prelude.{◌≡◌};
ghost use Rattle.lanes_c.specs.ChosenDumps.{Dumps, DumpsFile};
ghost use Rattle.lanes_c.specs.Rooms.{Tells, given_by};

use crate::columns::asked_for;
use crate::fault::{Fault, Place};
use crate::opening::opened_file;
use crate::room::hand_out;
use crate::taking::taken;
use replica_reports::{OpenFile, dump_where};
use std::alloc::Global;
use table_model::Counted;

/// The rows and the columns of what is open that are asked for, as comma-separated values.
fn chosen_rows(
    alloc: Global,
    file: &OpenFile,
    names: &[u8],
    condition: &[u8],
    has_names: bool,
) -> Result<Vec<u8>, Fault>
    ensures { Dumps (given_by result) has_names names.now condition.now file.now.replica }
{
    let choice = asked_for(alloc, file.schema(), names, condition)?;
    let mut writer = Counted::new(Vec::new(alloc));
    let done = dump_where(alloc, file, &choice, has_names, &mut writer);
    taken(done, writer)
}

/// The rows and the columns of a file that are asked for, as comma-separated values.
fn dumped_where(
    alloc: Global,
    file: &[u8],
    names: &[u8],
    condition: &[u8],
    has_names: bool,
) -> Result<Vec<u8>, Fault>
    ensures { DumpsFile (given_by result) has_names names.now condition.now file.now }
{
    let open = opened_file(alloc, file)?;
    chosen_rows(alloc, &open, names, condition, has_names)
}

/// Gives the live rows of a file at which a condition is true, in some columns, as comma-separated values below a heading, in order of row
/// name: every live row if the condition is empty, and all columns if there are no names; with `has_names` the columns `BATCH` and
/// `ORDINAL` come first.
///
/// Refused are, in this order, the file's first fault, and what `lanes_columns` refuses of the names and the condition.
#[unsafe(no_mangle)]
pub extern "C" fn lanes_dump_where(
    alloc: Global,
    file: &[u8],
    names: &[u8],
    condition: &[u8],
    has_names: bool,
    room: &mut [u8],
    length: &mut usize,
    place: &mut Place,
) -> u8
    ensures { Tells (λ given. DumpsFile given has_names names.now condition.now file.now) result room.old room.new length.new place.new }
{
    let given = dumped_where(alloc, file, names, condition, has_names);
    hand_out(given, room, length, place)
}
