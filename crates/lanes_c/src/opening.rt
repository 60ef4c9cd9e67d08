//! The calls on a file that stays open: opening it, a second handle of it, a query, and closing the handle.
ghost use Rattle.std.specs.Prelude.{◌≡◌, IfOk, IfErr, List, Ok, Some, ℕ};
ghost use Rattle.lanes_c.specs.Calls.{Yields, Asks, query_of};
ghost use Rattle.lanes_c.specs.Opened.{IsWhyNotOpened, Opens, AsksOpen, Shares, TakesKey, IsClosed, answered_at};
ghost use Rattle.lanes_c.specs.Rooms.{given_by};
ghost use Rattle.replica_reports.specs.Held.{held_in};

use crate::fault::{Fault, NOT_OPEN, Place};
use crate::handle::Table;
use crate::room::hand_out;
use crate::shared::Shared;
use crate::taking::text_of;
use column_file::open;
use query_eval::{HashKey, text};
use replica_reports::OpenFile;
use replica_store::Store;
use std::alloc::Global;
use std::boxed::Box;
use std::mem::replace;
use store_view::ask;
use table_model::{Counted, Origin, Refusal};

/// The store of a file.
pub(crate) fn store_of(alloc: Global, file: &[u8]) -> Result<Store, Fault>
    ensures held { IfOk result (λ store. held_in file.now ≡ Ok store.replica) }
    ensures fault { IfErr result (λ fault. IsWhyNotOpened fault file.now) }
{
    Ok(open(alloc, &mut Counted::new(file), Origin(1))?)
}

/// What a file holds, to be asked.
pub(crate) fn opened_file(alloc: Global, file: &[u8]) -> Result<OpenFile, Fault>
    ensures held { IfOk result (λ opened. held_in file.now ≡ Ok opened.replica) }
    ensures fault { IfErr result (λ fault. IsWhyNotOpened fault file.now) }
{
    Ok(OpenFile::read(alloc, &mut Counted::new(file))?)
}

/// The first share of a file's store.
fn opened(alloc: Global, file: &[u8]) -> Result<Box<Shared>, Fault>
    ensures held { IfOk result (λ shared. held_in file.now ≡ Ok shared.value.store.value.replica) }
    ensures fault { IfErr result (λ fault. IsWhyNotOpened fault file.now) }
{
    let store = store_of(alloc, file)?;
    Ok(Shared::new(alloc, HashKey::fixed(), store)?)
}

/// The text of a query's answer over a store.
fn answer_text(alloc: Global, store: &Store, hash_key: HashKey, sql: &str) -> Result<Vec<u8>, Fault>
    ensures { Yields (given_by result) (answered_at store.now.replica sql.now) }
{
    let answer = ask(alloc, store, hash_key, sql)?;
    Ok(text(alloc, &answer)?)
}

/// The text of the answer of a query in bytes over a store.
pub(crate) fn answered_over(
    alloc: Global,
    store: &Store,
    hash_key: HashKey,
    sql: &[u8],
) -> Result<Vec<u8>, Fault>
    ensures { Asks (given_by result) sql.now (answered_at store.now.replica sql.now) }
{
    let sql = text_of(sql)?;
    answer_text(alloc, store, hash_key, sql)
}

/// The text of the answer of a query in bytes over what is open, as it is said of a file that holds it.
fn asked_of(alloc: Global, shared: &Shared, sql: &[u8]) -> Result<Vec<u8>, Fault>
    ensures { (file : List ℕ) → held_in file ≡ Ok shared.now.store.value.replica → Asks (given_by result) sql.now (query_of sql.now file) }
{
    answered_over(alloc, &shared.store, shared.hash_key, sql)
}

/// Puts a share into a handle. What the handle had is closed, and its key is kept: it is the share's from then on.
pub(crate) fn put(alloc: Global, table: &mut Table, shared: Box<Shared>)
    ensures { table.new.replica ≡ Some shared.value.store.value.replica }
{
    let mut shared = shared;
    if let Some(old) = replace(table, Table::closed()).into_box(alloc) {
        shared.set_hash_key(old.hash_key);
        drop(old);
    }
    drop(replace(table, Table::of_box(shared)).into_box(alloc));
}

/// Opens a file: it is judged once, and what it holds is kept until the last handle of it is closed. The bytes may go then.
///
/// Refused is the file's first fault, and then the handle stays as it was. A handle that is open is closed first if 0 is answered; its key
/// stays.
#[unsafe(no_mangle)]
pub extern "C" fn lanes_open(alloc: Global, file: &[u8], table: &mut Table, place: &mut Place) -> u8
    ensures { Opens result file.now table.old table.new place.new }
{
    match opened(alloc, file) {
        Ok(shared) => {
            put(alloc, table, shared);
            *place = Place::nowhere();
            0
        }
        Err(fault) => {
            *place = fault.place();
            fault.number()
        }
    }
}

/// Gives a second handle of what a first one has, for another thread. What the second one had before is closed.
///
/// Refused are `NotOpen` if the first one is closed, and `Memory`.
#[unsafe(no_mangle)]
pub extern "C" fn lanes_share(alloc: Global, table: &mut Table, other: &mut Table) -> u8
    ensures { Shares result table.old table.new other.old other.new }
{
    let Some(shared) = replace(table, Table::closed()).into_box(alloc) else {
        return NOT_OPEN;
    };
    let again = shared.again(alloc);
    drop(replace(table, Table::of_box(shared)).into_box(alloc));
    match again {
        Ok(again) => {
            drop(replace(other, Table::of_box(again)).into_box(alloc));
            0
        }
        Err(_) => Refusal::Memory.number(),
    }
}

/// Answers a query over the file that a handle is of. It gives what `lanes_query` gives of that file, and refuses what that refuses.
///
/// Refused is `NotOpen` if the handle is closed.
#[unsafe(no_mangle)]
pub extern "C" fn lanes_ask(
    alloc: Global,
    table: &mut Table,
    sql: &[u8],
    room: &mut [u8],
    length: &mut usize,
    place: &mut Place,
) -> u8
    ensures { AsksOpen result sql.now table.old table.new room.old room.new length.new place.new }
{
    let Some(shared) = replace(table, Table::closed()).into_box(alloc) else {
        return hand_out(Err(Fault::NotOpen), room, length, place);
    };
    let given = asked_of(alloc, &shared, sql);
    drop(replace(table, Table::of_box(shared)).into_box(alloc));
    hand_out(given, room, length, place)
}

/// Gives the two words of a key, drawn at random, by whose hashes the queries of a handle find groups from now on, and those of each
/// handle that is shared from it. No answer depends on them.
///
/// Refused is `NotOpen` if the handle is closed.
#[unsafe(no_mangle)]
pub extern "C" fn lanes_hash_key(alloc: Global, table: &mut Table, first: u64, second: u64) -> u8
    ensures { TakesKey result table.old table.new }
{
    let Some(mut shared) = replace(table, Table::closed()).into_box(alloc) else {
        return NOT_OPEN;
    };
    shared.set_hash_key(HashKey::new(first, second));
    drop(replace(table, Table::of_box(shared)).into_box(alloc));
    0
}

/// Closes a handle. A closed one may be closed again.
#[unsafe(no_mangle)]
pub extern "C" fn lanes_close(alloc: Global, table: &mut Table)
    ensures { IsClosed table.new }
{
    drop(replace(table, Table::closed()).into_box(alloc));
}
