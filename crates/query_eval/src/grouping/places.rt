//! Places of groups by their keys, and of the rows of a vector by their groups.
ghost use Rattle.std.specs.Prelude.{◌≡◌, ◌∷◌, [], ◌⊎◌, ℕ, cond, length, slice_index_or, None, Some, IfOk};
ghost use Rattle.std.specs.List.Sorted.{IsStrictlySortedBy};
ghost use Rattle.std.specs.Map.{keys_of};
ghost use Rattle.table_model.specs.Group.{key_cmp};
ghost use Rattle.table_model.specs.State.{Cells};
ghost use Rattle.query_eval.specs.Entries.{place_in};
ghost use Rattle.query_eval.specs.Places.{IsIndex, IsTakenIn};

use crate::grouping::index::Index;
use crate::grouping::key::Key;
use crate::hash_key::HashKey;
use std::alloc::{AllocError, Global};

/// How many values are remembered with the places of their groups.
const REMEMBERED: usize = 1024;

/// The key that was looked up last, and the place of its group, for GROUP BY one column.
#[derive(Clone, Copy, Debug)]
pub struct Recent {
    value: i64,
    place: usize,
}

/// The places of groups by their keys, from 0 on, in the order in which the keys came.
///
/// If one column groups, the places of values are also remembered by the values' low bits, and so is that of null, so that few rows
/// need a search.
#[derive(Drop)]
pub struct Places {
    index: Index,
    recent: Vec<Option<Recent>>,
    null: Option<usize>,
}

/// The slot in which a value's place is remembered, below 1024.
fn slot_of(value: i64) -> usize {
    let [low, high, ..] = value.to_le_bytes();
    usize::from(low) + 256 * usize::from(high % 4)
}

/// Remembers a value's place, replacing what was remembered there.
fn remember(recent: &mut Vec<Option<Recent>>, slot: usize, entry: Recent)
    ensures { (i : ℕ) (r : Recent) → slice_index_or recent.new.items i None ≡ Some r → (r ≡ entry) ⊎ (slice_index_or recent.old.items i None ≡ Some r) }
{
    if slot < recent.len() {
        recent[slot] = Some(entry);
    }
}

impl Places {
    /// No places, which hashes of this key will find.
    pub fn new(alloc: Global, hash_key: HashKey) -> Result<Places, AllocError>
        ensures index { IfOk result (λ places. IsIndex places) }
        ensures empty { IfOk result (λ places. places.index.entries ≡ []) }
        ensures hash_key { IfOk result (λ places. places.index.hash_key ≡ hash_key) }
    {
        Ok(Places {
            index: Index::new(alloc, hash_key),
            recent: vec![in alloc; None; REMEMBERED]?,
            null: None,
        })
    }

    /// How many groups there are.
    pub fn len(&self) -> usize
        ensures { result ≡ length self.now.index.entries }
    {
        self.index.len()
    }

    /// The keys in ascending order, with their places.
    pub fn into_entries(self, alloc: Global) -> Result<Vec<(Key, usize)>, AllocError>
        ensures ordered { IfOk result (λ entries. IsStrictlySortedBy key_cmp (keys_of entries.items)) }
        ensures places { IfOk result (λ entries. (key : Cells) → place_in entries.items key ≡ place_in self.index.entries key) }
        ensures len { IfOk result (λ entries. length entries.items ≡ length self.index.entries) }
    {
        self.index.into_entries(alloc)
    }

    /// The place of a key's group, which is a new one if the key is new.
    pub fn of_key(&mut self, alloc: Global, key: &Key) -> Result<usize, AllocError>
        ensures index { IfOk result (λ place. IsIndex self.old → IsIndex self.new) }
        ensures taken { IfOk result (λ place. IsTakenIn key.now place self.old.index.entries self.new.index.entries) }
    {
        if let Some(place) = self.index.get(key) {
            return Ok(place);
        }
        let place = self.index.len();
        self.index.insert(key.copy(alloc)?, place)?;
        Ok(place)
    }

    /// The place of the group of a cell in the one grouping column, by a search.
    #[inline(never)]
    fn of_cell(&mut self, alloc: Global, cell: Option<i128>) -> Result<usize, AllocError>
        ensures index { IfOk result (λ place. IsIndex self.old → IsIndex self.new) }
        ensures taken { IfOk result (λ place. IsTakenIn (cell ∷ []) place self.old.index.entries self.new.index.entries) }
    {
        let mut key = Key::empty(alloc);
        key.push(cell)?;
        self.of_key(alloc, &key)
    }

    /// The place of the group of a value in the one grouping column, which is a new one if the value is new.
    fn of_value(&mut self, alloc: Global, value: i64) -> Result<usize, AllocError>
        ensures index { IfOk result (λ place. IsIndex self.old → IsIndex self.new) }
        ensures taken { IfOk result (λ place. IsIndex self.old → IsTakenIn (Some value ∷ []) place self.old.index.entries self.new.index.entries) }
    {
        let slot = slot_of(value);
        if let Some(Some(recent)) = self.recent.get(slot) {
            if recent.value == value {
                return Ok(recent.place);
            }
        }
        let place = self.of_cell(alloc, Some(i128::from(value)))?;
        remember(&mut self.recent, slot, Recent { value, place });
        Ok(place)
    }

    /// The place of the group of null in the one grouping column, which is a new one if there was no null before.
    fn of_null(&mut self, alloc: Global) -> Result<usize, AllocError>
        ensures index { IfOk result (λ place. IsIndex self.old → IsIndex self.new) }
        ensures taken { IfOk result (λ place. IsIndex self.old → IsTakenIn (None ∷ []) place self.old.index.entries self.new.index.entries) }
    {
        if let Some(place) = self.null {
            return Ok(place);
        }
        let place = self.of_cell(alloc, None)?;
        self.null = Some(place);
        Ok(place)
    }

    /// The place of the group of a cell, null or a value, in the one grouping column; it is a new one if the cell is new.
    pub fn of_row(&mut self, alloc: Global, null: bool, value: i64) -> Result<usize, AllocError>
        ensures index { IfOk result (λ place. IsIndex self.old → IsIndex self.new) }
        ensures taken { IfOk result (λ place. IsIndex self.old → IsTakenIn (cond null None (Some value) ∷ []) place self.old.index.entries self.new.index.entries) }
    {
        if null {
            let place = self.of_null(alloc)?;
            return Ok(place);
        }
        let place = self.of_value(alloc, value)?;
        Ok(place)
    }
}
