//! Keys with the places of their groups, found by the keys' hashes.
ghost use Rattle.std.specs.Prelude.{◌≡◌, [], ◌+◌, cond, List, None, Some, length, IfOk, OnOk};
ghost use Rattle.std.specs.Cmp.Lexicographic.{pointwise};
ghost use Rattle.std.specs.List.{IsDistinct};
ghost use Rattle.std.specs.List.Sorted.{IsStrictlySortedBy};
ghost use Rattle.std.specs.Map.{keys_of};
ghost use Rattle.std.specs.Option.{option_eq};
ghost use Rattle.std.specs.Ordering.{int_eq};
ghost use Rattle.table_model.specs.Group.{key_cmp};
ghost use Rattle.table_model.specs.State.{Cells, same_cells};
ghost use Rattle.query_eval.specs.Entries.{place_in};

use crate::grouping::key::Key;
use crate::hash_key::HashKey;
use std::alloc::{AllocError, Global};
use std::collections::HashMap;
use std::marker::Model;

/// Keys with the places of their groups, each key once. Contracts see it as a list of these pairs, in any order, with the key of
/// the hashes that find them.
#[derive(Drop)]
pub struct Index {
    places: HashMap<Key, usize, HashKey>,
}

impl Model for Index {
    ghost use Rattle.std.specs.HashMap.{hasher_of};
    ghost use Rattle.query_eval.specs.Entries.{Indexed};

    ghost Value = { Indexed };

    ghost view = { λ index. record { entries = index.places.entries; hash_key = hasher_of index.places } };
}

impl Index {
    /// No keys, which a hash of this key will find. It takes no memory yet.
    pub fn new(alloc: Global, hash_key: HashKey) -> Index
        ensures empty { result.entries ≡ [] }
        ensures hash_key { result.hash_key ≡ hash_key }
    {
        Index {
            places: HashMap::with_hasher(alloc, hash_key),
        }
    }

    /// How many keys there are.
    pub fn len(&self) -> usize
        ensures { result ≡ length self.now.entries }
    {
        self.places.len()
    }

    /// The place of a key's group, if it has one.
    pub fn get(&self, key: &Key) -> Option<usize>
        ensures { result ≡ place_in self.now.entries key.now }
    {
        self.places.get(key).copied()
    }

    /// Takes in a key with the place of its group. A key that has a place gets this one.
    pub fn insert(&mut self, key: Key, place: usize) -> Result<(), AllocError>
        ensures places { OnOk result ((other : Cells) → place_in self.new.entries other ≡ cond (same_cells key other) (Some place) (place_in self.old.entries other)) }
        ensures len { OnOk result (place_in self.old.entries key ≡ None → length self.new.entries ≡ length self.old.entries + 1) }
        ensures hash_key { self.new.hash_key ≡ self.old.hash_key }
    {
        self.places.insert(key, place)?;
        Ok(())
    }

    /// The keys with their places, in any order.
    fn into_pairs(self, alloc: Global) -> Result<Vec<(Key, usize)>, AllocError>
        ensures pairs { IfOk result (λ pairs. pairs.items ≡ self.entries) }
        ensures apart { IsDistinct (pointwise (option_eq int_eq)) (keys_of self.entries) }
    {
        self.places.into_iter().collect(alloc)
    }

    /// The keys in ascending order, with their places.
    pub fn into_entries(self, alloc: Global) -> Result<Vec<(Key, usize)>, AllocError>
        ensures ordered { IfOk result (λ entries. IsStrictlySortedBy key_cmp (keys_of entries.items)) }
        ensures places { IfOk result (λ entries. (key : Cells) → place_in entries.items key ≡ place_in self.entries key) }
        ensures len { IfOk result (λ entries. length entries.items ≡ length self.entries) }
    {
        let mut entries = self.into_pairs(alloc)?;
        entries.sort_unstable();
        Ok(entries)
    }
}
