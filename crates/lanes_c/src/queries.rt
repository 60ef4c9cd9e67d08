//! The call that answers several queries of one opening.
ghost use Rattle.std.specs.Prelude.{◌≡◌, map, IfOk, IfErr};
ghost use Rattle.lanes_c.specs.Opened.{answered_at};
ghost use Rattle.lanes_c.specs.Queries.{AsksAll, AreAnswered, IsWhyNotAnswered, queries_in};
ghost use Rattle.lanes_c.specs.Rooms.{Tells, given_by};

use crate::fault::{Fault, Place};
use crate::joined::Joined;
use crate::opening::{answered_over, store_of};
use crate::room::{fill, hand_out};
use query_eval::HashKey;
use replica_store::Store;
use std::alloc::{AllocError, Global};

/// The queries of a text, as the line feeds between them cut it.
fn queries_in(alloc: Global, sqls: &[u8]) -> Result<Vec<&[u8]>, AllocError>
    ensures { IfOk result (λ queries. map (λ query. query.now) queries.items ≡ queries_in sqls.now) }
{
    sqls.split(|byte| *byte == b'\n').collect(alloc)
}

/// The answers of queries over a store, up to the first that is refused.
fn answers_over(alloc: Global, store: &Store, queries: &[&[u8]]) -> Result<Joined, Fault>
    ensures answered { IfOk result (λ answers. AreAnswered (answered_at store.now.replica) (map (λ query. query.now) queries.now) answers.bytes.items answers.ends.items) }
    ensures refused { IfErr result (λ fault. IsWhyNotAnswered (answered_at store.now.replica) (map (λ query. query.now) queries.now) fault) }
{
    let mut answers = Joined::new(alloc);
    for query in 0..queries.len() {
        match answered_over(alloc, store, HashKey::fixed(), queries[query]) {
            Ok(text) => answers.push(text.as_slice())?,
            Err(fault) => return Err(fault.of_query(query as u64)),
        }
    }
    Ok(answers)
}

/// The answers of the queries of a text over a file, and the place at which each ends.
fn answered_all(
    alloc: Global,
    file: &[u8],
    sqls: &[u8],
    ends: &mut [usize],
) -> Result<Vec<u8>, Fault>
    ensures { AsksAll (given_by result) sqls.now file.now ends.old ends.new }
{
    let store = store_of(alloc, file)?;
    let queries = queries_in(alloc, sqls)?;
    let answers = answers_over(alloc, &store, queries.as_slice())?;
    fill(answers.ends.as_slice(), ends);
    Ok(answers.bytes)
}

/// Answers several queries over a file that is opened once: the queries of a text, which has a line feed between each two. It gives the
/// answers' texts, one after another; answer `i` ends at `ends[i]`, if there is room for all ends.
///
/// Refused are, in this order, the file's first fault, and the first query that `lanes_query` refuses; then the place has that query,
/// from 0, next to the byte.
#[unsafe(no_mangle)]
pub extern "C" fn lanes_queries(
    alloc: Global,
    file: &[u8],
    sqls: &[u8],
    room: &mut [u8],
    ends: &mut [usize],
    length: &mut usize,
    place: &mut Place,
) -> u8
    ensures { Tells (λ given. AsksAll given sqls.now file.now ends.old ends.new) result room.old room.new length.new place.new }
{
    hand_out(answered_all(alloc, file, sqls, ends), room, length, place)
}
