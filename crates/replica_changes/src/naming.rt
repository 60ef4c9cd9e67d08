//! The names of an import's batches.
ghost use Rattle.std.specs.Prelude.{◌≡◌, not};
ghost use Rattle.std.specs.List.{list_all};
ghost use Rattle.std.specs.FinMap as map;
ghost use Rattle.column_file.specs.Files.{ranges_of};
ghost use Rattle.replica_store.specs.Segments.{Entry};
ghost use Rattle.replica_changes.specs.Loads.{is_one_of, first_name, first_free, is_free, named_by, chosen_name};

use replica_store::Store;
use segment_core::Segment;
use table_model::{BatchName, Number, Origin, Refusal, RowName};

/// The greatest number that a batch may have, and one more.
const NUMBERS: u64 = 4_294_967_296;

/// The name of a random word: its high 32 bits are the origin, and its low 31 bits, with 1 added, the number.
fn named_by(word: u64) -> BatchName
    ensures { result ≡ named_by word }
{
    BatchName {
        origin: Origin((word / 4_294_967_296) as u32),
        number: Number((word % 2_147_483_648) as u32 + 1),
    }
}

/// Whether a name is one of a number of consecutive names from a first one on.
pub fn is_one_of(first: BatchName, count: u32, name: BatchName) -> bool
    ensures { result ≡ is_one_of first count name }
{
    name.origin.0 == first.origin.0
        && first.number.0 <= name.number.0
        && u64::from(name.number.0) < u64::from(first.number.0) + u64::from(count)
}

/// Whether none of the batches has one of a number of consecutive names from a first one on.
fn are_others(entries: &[(BatchName, Segment)], first: BatchName, count: u32) -> bool
    ensures { result ≡ list_all (λ (e : Entry). not (is_one_of first count e.0)) entries.now }
{
    entries
        .iter()
        .all(|entry| !is_one_of(first, count, entry.0))
}

/// Whether none of the ranges of rows is of one of a number of consecutive names from a first one on.
fn are_of_others(ranges: &[(RowName, u16)], first: BatchName, count: u32) -> bool
    ensures { result ≡ list_all (λ range. not (is_one_of first count range.0.batch)) ranges.now }
{
    ranges
        .iter()
        .all(|range| !is_one_of(first, count, range.0.batch))
}

/// Whether none of the batches of a store has one of a number of consecutive names from a first one on.
fn holds_none(store: &Store, first: BatchName, count: u32) -> bool
    ensures { result ≡ list_all (λ e. not (is_one_of first count e.0)) (map.entries store.now.replica.state.batches) }
{
    let (up_to, past) = store.parts();
    are_others(up_to, first, count) && are_others(past, first, count)
}

/// Whether no deleted row of a store is of one of a number of consecutive names from a first one on.
fn deletes_none(store: &Store, first: BatchName, count: u32) -> bool
    ensures { result ≡ list_all (λ range. not (is_one_of first count range.0.batch)) (ranges_of store.now.replica.state.deleted) }
{
    are_of_others(store.tombs().ranges(), first, count)
}

/// Whether a number of consecutive names from a first one on are proper, and none of them is held by a store or has a deleted row there.
#[tactic(auto, unfolding(crate::specs::Loads::is_free))]
fn is_free(store: &Store, first: BatchName, count: u32) -> bool
    ensures { result ≡ is_free store.now.replica.state first count }
{
    first.is_proper()
        && u64::from(first.number.0) + u64::from(count) <= NUMBERS
        && holds_none(store, first, count)
        && deletes_none(store, first, count)
}

/// The name of the first of some random words from which that number of names are free.
fn first_free(store: &Store, count: u32, words: &[u64]) -> Option<BatchName>
    ensures { result ≡ first_free store.now.replica.state count words.now }
{
    for word in words {
        let name = named_by(*word);
        if is_free(store, name, count) {
            return Some(name);
        }
    }
    None
}

/// The name, if that number of consecutive names from it on may be.
#[tactic(auto, unfolding(crate::specs::Loads::first_name))]
fn checked_name(first: BatchName, count: u32) -> Result<BatchName, Refusal>
    ensures { result ≡ first_name first count }
{
    if count == 0 {
        return Ok(first);
    }
    if !first.is_proper() {
        return Err(Refusal::BadName);
    }
    if u64::from(first.number.0) + u64::from(count) > NUMBERS {
        return Err(Refusal::NumbersSpent);
    }
    Ok(first)
}

/// The first name of an import of a number of batches: the one that is given, or that of the first of some random words from which that
/// many names are free.
///
/// Refused are a given name that isn't proper (`BadName`) and numbers past 4,294,967,295 (`NumbersSpent`), unless there is no batch;
/// and words none of which serves (`NumbersSpent`).
#[tactic(auto, unfolding(crate::specs::Loads::chosen_name))]
pub(crate) fn choose_name(
    store: &Store,
    given: Option<BatchName>,
    words: &[u64],
    count: u32,
) -> Result<BatchName, Refusal>
    ensures { result ≡ chosen_name store.now.replica.state given words.now count }
{
    match given {
        Some(name) => checked_name(name, count),
        None => match first_free(store, count, words) {
            Some(name) => Ok(name),
            None => Err(Refusal::NumbersSpent),
        },
    }
}
