//! The call that spreads a table: it gives the files of its shares.
ghost use Rattle.std.specs.Prelude.{◌≡◌, ◌≤◌, IfOk, IfErr};
ghost use Rattle.std.specs.declared.option.Option.TheVariants.{None as Closed};
ghost use Rattle.column_file.specs.Files.{canonical_file};
ghost use Rattle.table_model.specs.declared.refusal.Refusal.TheVariants.{Memory};
ghost use Rattle.table_spread.specs.Spread.{share_of};
ghost use Rattle.lanes_c.specs.PartialAnswers.{IsSpelled};
ghost use Rattle.lanes_c.specs.Rooms.{given_by};
ghost use Rattle.lanes_c.specs.Spreading.{AreJoined, Spreads, share_files};
ghost use Rattle.lanes_c.specs.TableReading.{ReadsOpen};
ghost use Rattle.lanes_c.specs.declared.fault.Fault.TheVariants.{Refused};

use crate::fault::{Fault, Place};
use crate::handle::Table;
use crate::joined::Joined;
use crate::room::{fill, hand_out};
use replica_store::Store;
use std::alloc::Global;
use std::mem::replace;
use table_spread::NameRuns;

/// The file of one share.
fn share_file(alloc: Global, runs: &NameRuns, store: &Store, index: usize) -> Result<Vec<u8>, Fault>
    ensures { IsSpelled (given_by result) (canonical_file store.now.replica.schema (share_of runs.now index store.now.replica.state)) }
{
    Ok(runs.share_bytes(alloc, store, index)?)
}

/// The files of the first shares, one after another, and the place at which each of them ends.
fn share_files(
    alloc: Global,
    runs: &NameRuns,
    store: &Store,
    shares: usize,
) -> Result<Joined, Fault>
    ensures files { IfOk result (λ files. AreJoined (share_files runs.now store.now.replica shares) files.bytes.items files.ends.items) }
    ensures refused { IfErr result (λ fault. fault ≡ Refused Memory) }
{
    let mut files = Joined::new(alloc);
    for index in 0..shares {
        let file = share_file(alloc, runs, store, index)?;
        files.push(file.as_slice())?;
    }
    Ok(files)
}

/// The files of as many shares of a store as there are ends.
fn spread_over(alloc: Global, store: &Store, ends: &mut [usize]) -> Result<Vec<u8>, Fault>
    ensures { Spreads (given_by result) store.now.replica ends.old ends.new }
{
    let shares = ends.len();
    if shares == 0 {
        return Ok(Vec::new(alloc));
    }
    let runs = NameRuns::of(alloc, store, shares)?;
    let files = share_files(alloc, &runs, store, shares)?;
    fill(files.ends.as_slice(), ends);
    Ok(files.bytes)
}

/// Spreads the table of a handle over as many shares as there is room for ends: each batch goes to one share, in runs of names, with the
/// deletions that name it. It gives the canonical files of the shares, one after another; file `i` ends at `ends[i]`. Merged they are the
/// table, and their partial answers are combined. Refused is `NotOpen` if the handle is closed.
#[unsafe(no_mangle)]
pub extern "C" fn lanes_spread(
    alloc: Global,
    table: &mut Table,
    ends: &mut [usize],
    room: &mut [u8],
    length: &mut usize,
    place: &mut Place,
) -> u8
    ensures spread { ReadsOpen (λ r given. Spreads given r ends.old ends.new) result table.old table.new room.old room.new length.new place.new }
    ensures closed { table.old.replica ≡ Closed → ends.new ≡ ends.old }
{
    let Some(shared) = replace(table, Table::closed()).into_box(alloc) else {
        return hand_out(Err(Fault::NotOpen), room, length, place);
    };
    let given = spread_over(alloc, &shared.store, ends);
    drop(replace(table, Table::of_box(shared)).into_box(alloc));
    hand_out(given, room, length, place)
}
