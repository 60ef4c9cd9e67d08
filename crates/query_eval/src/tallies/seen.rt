//! The values of a group under DISTINCT, each once: a few in a list, more of them in a set.
ghost use Rattle.std.specs.Prelude.{◌≡◌, [], cond, true, None, ℤ, IfOk, OnOk};
ghost use Rattle.std.specs.Option.{IfSome};
ghost use Rattle.std.specs.HashSet.{contains, hasher_of};
ghost use Rattle.std.specs.List.{list_any, IsDistinct};
ghost use Rattle.std.specs.Ordering.{int_eq};

use crate::hash_key::HashKey;
use smallvec::SmallVec;
use std::alloc::{AllocError, Global};
use std::collections::HashSet;
use std::marker::Model;

/// How many values a list takes before they go into a set.
const MOST_IN_LIST: usize = 16;

/// The values of a group, each once: two of them in place, up to 16 in a list, and more in a set.
#[derive(Drop)]
pub enum Content {
    List(SmallVec<i64, 2>),
    Set(Box<HashSet<i64, HashKey>>),
}

/// The values of a group, each once. Contracts see them as a list, in any order, with the key of the hashes that find them.
#[derive(Drop)]
pub struct Seen {
    content: Content,
    hash_key: HashKey,
}

impl Model for Seen {
    ghost use Rattle.query_eval.specs.Seen.{seen_in, AreApart, AreHashedBy, SeenValues};

    ghost Value = { SeenValues };

    ghost view = { λ seen. record { values = seen_in seen.content; hash_key = seen.hash_key } };

    ghost invariant = { λ seen. AreApart seen.content × AreHashedBy seen.hash_key seen.content };
}

/// The set of some values and one more.
fn set_of(
    alloc: Global,
    hash_key: HashKey,
    values: &[i64],
    more: i64,
) -> Result<HashSet<i64, HashKey>, AllocError>
    ensures values { IfOk result (λ set. (z : ℤ) → contains int_eq set z ≡ cond (int_eq more z) true (list_any (int_eq z) values.now)) }
    ensures hasher { IfOk result (λ set. hasher_of set ≡ hash_key) }
{
    let mut set = HashSet::with_hasher(alloc, hash_key);
    for value in values {
        set.insert(*value)?;
    }
    set.insert(more)?;
    Ok(set)
}

/// Adds a value to a list that does not have it. If the list has its most values already, it stays as it is, and all go into a set.
fn add_to_list(
    list: &mut SmallVec<i64, 2>,
    hash_key: HashKey,
    value: i64,
) -> Result<Option<Box<HashSet<i64, HashKey>>>, AllocError>
    ensures list { IfOk result (λ grown. grown ≡ None → (z : ℤ) → list_any (int_eq z) list.new.items ≡ cond (int_eq value z) true (list_any (int_eq z) list.old.items)) }
    ensures apart { IsDistinct int_eq list.old.items → IsDistinct int_eq list.new.items }
    ensures set { IfOk result (λ grown. IfSome grown (λ set. (z : ℤ) → contains int_eq set.value z ≡ cond (int_eq value z) true (list_any (int_eq z) list.old.items))) }
    ensures hasher { IfOk result (λ grown. IfSome grown (λ set. hasher_of set.value ≡ hash_key)) }
{
    if list.as_slice().contains(&value) {
        return Ok(None);
    }
    if list.len() < MOST_IN_LIST {
        list.push(value)?;
        return Ok(None);
    }
    let alloc = *list.allocator();
    let set = set_of(alloc, hash_key, list.as_slice(), value)?;
    Ok(Some(Box::new(alloc, set)?))
}

impl Seen {
    /// No values. It takes no memory. If there are many, hashes of this key will find them.
    pub fn new(alloc: Global, hash_key: HashKey) -> Seen
        ensures none { result.values ≡ [] }
        ensures hash_key { result.hash_key ≡ hash_key }
    {
        Seen {
            content: Content::List(SmallVec::new(alloc)),
            hash_key,
        }
    }

    /// Adds a value, if it is new.
    pub fn insert(&mut self, value: i64) -> Result<(), AllocError>
        ensures values { OnOk result ((z : ℤ) → list_any (int_eq z) self.new.values ≡ cond (int_eq value z) true (list_any (int_eq z) self.old.values)) }
        ensures hash_key { self.new.hash_key ≡ self.old.hash_key }
    {
        let grown = match &mut self.content {
            Content::List(list) => add_to_list(list, self.hash_key, value)?,
            Content::Set(set) => {
                set.insert(value)?;
                None
            }
        };
        if let Some(set) = grown {
            self.content = Content::Set(set);
        }
        Ok(())
    }

    /// The values, in any order.
    pub fn values(&self, alloc: Global) -> Result<Vec<i64>, AllocError>
        ensures values { IfOk result (λ values. values.items ≡ self.now.values) }
        ensures apart { IsDistinct int_eq self.now.values }
    {
        match &self.content {
            Content::List(list) => Vec::from_slice(alloc, list.as_slice()),
            Content::Set(set) => set.iter().copied().collect(alloc),
        }
    }
}
