//! The calls that say what a table brings to a folder: whether a part has one of its batches, and the part of an offer.
ghost use Rattle.std.specs.Prelude.{◌≡◌, false, IfOk};
ghost use Rattle.lanes_c.specs.Bringing.{BringsOpen, BringsPart, MeetsNone, MeetsNoneOpen, batches_new, part_by};

use crate::fault::{Fault, Place};
use crate::handle::Table;
use crate::room::hand_out;
use column_file::read_offer;
use folder_commands::Reliance;
use folder_parts::part_of;
use replica_changes::{Answer, Command};
use replica_store::Store;
use std::alloc::Global;
use std::mem::replace;
use table_model::{Counted, Refusal};

/// How many batches an offer brings, and the bytes of its part.
struct OfferPart {
    batches: u64,
    bytes: Vec<u8>,
}

/// Whether a part with these bytes may have a batch of a name that a store has.
fn may_meet(alloc: Global, store: &Store, bytes: &[u8]) -> Result<bool, Refusal>
    ensures { IfOk result (λ meets. meets ≡ false → MeetsNone store.now.replica bytes.now) }
{
    let summary = store.summary(alloc)?;
    let names = summary.names().copy(alloc)?;
    Reliance::Batches(names).is_on(alloc, bytes)
}

/// Answers whether a part with these bytes may have a batch of a name that the table of a handle has. Only the names of the part's batches
/// are read. If false is answered it has none. True is answered, too, if the bytes are no part, if the handle is closed, and if memory runs
/// out.
#[unsafe(no_mangle)]
pub extern "C" fn lanes_table_meets(alloc: Global, table: &mut Table, bytes: &[u8]) -> bool
    ensures none { result ≡ false → MeetsNoneOpen table.old.replica bytes.now }
    ensures table { table.new.replica ≡ table.old.replica }
{
    let Some(shared) = replace(table, Table::closed()).into_box(alloc) else {
        return true;
    };
    let meets = may_meet(alloc, &shared.store, bytes);
    drop(replace(table, Table::of_box(shared)).into_box(alloc));
    match meets {
        Ok(meets) => meets,
        Err(_) => true,
    }
}

/// How many batches an answer says that are new.
fn batches_new(answer: &Answer) -> u64
    ensures { result ≡ batches_new answer.now }
{
    match answer {
        Answer::Applied(done) => u64::from(done.new),
        _ => 0,
    }
}

/// The part of an offer, given what a store has.
fn part_bringing(alloc: Global, store: &Store, offer: &[u8]) -> Result<OfferPart, Fault>
    ensures { BringsPart (part_by result) offer.now store.now.replica }
{
    let offer = read_offer(alloc, &mut Counted::new(offer))?;
    let offers = vec![in alloc; offer]?;
    let mut writer = Counted::new(Vec::new(alloc));
    let answer = part_of(alloc, store, Command::Apply { offers }, &mut writer)?;
    Ok(OfferPart {
        batches: batches_new(&answer),
        bytes: writer.into_inner(),
    })
}

/// Makes the part of an offer, given the table of a handle, which is what the parts of a folder hold together: the file of the offer's
/// batches that the table does not have, and of the offer's deletions. It tells how many batches these are. If the offer brings nothing new,
/// no bytes are given. The handle stays as it was.
///
/// Refused are, in this order, `NotOpen` if the handle is closed, the offer's first fault, `SchemaDiffers`, `Conflict` with the least name that
/// has two lists of rows, and `Full`.
#[unsafe(no_mangle)]
pub extern "C" fn lanes_table_bring(
    alloc: Global,
    table: &mut Table,
    offer: &[u8],
    batches: &mut u64,
    room: &mut [u8],
    length: &mut usize,
    place: &mut Place,
) -> u8
    ensures brings { BringsOpen offer.now table.old.replica result batches.new room.old room.new length.new place.new }
    ensures table { table.new.replica ≡ table.old.replica }
{
    *batches = 0;
    let Some(shared) = replace(table, Table::closed()).into_box(alloc) else {
        return hand_out(Err(Fault::NotOpen), room, length, place);
    };
    let made = part_bringing(alloc, &shared.store, offer);
    drop(replace(table, Table::of_box(shared)).into_box(alloc));
    match made {
        Ok(
            OfferPart {
                batches: new,
                bytes,
            },
        ) => {
            *batches = new;
            hand_out(Ok(bytes), room, length, place)
        }
        Err(fault) => hand_out(Err(fault), room, length, place),
    }
}
