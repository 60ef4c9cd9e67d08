//! Reading the groups of a partial answer, in ascending order of their keys.
ghost use Rattle.std.specs.Prelude.{◌≡◌, ◌++◌, ◌∷◌, List, [], true, map, IfOk, OnOk};
ghost use Rattle.table_model.specs.Reading.{Reads};
ghost use Rattle.segment_core.specs.Format.{Format, all};
ghost use Rattle.partial_answers.specs.declared.kept.Kept.{Kept};
ghost use Rattle.partial_file.specs.PartialAnswerBytes.{entry_of, group, groups, is_after};

use crate::kept_reading::{read_key, read_measures};
use crate::number_reading::read_count;
use partial_answers::Kept;
use query_eval::Key;
use segment_core::place_of;
use std::alloc::{AllocError, Global};
use std::collections::BTreeMap;
use table_model::Refusal;

/// Whether keys come after those of the last group, if there are groups.
fn is_after(groups: &BTreeMap<Key, Vec<Kept>>, key: &Key) -> bool
    ensures { (measures : List Kept) → result ≡ is_after (map entry_of groups.now.entries) (key.now, measures) }
{
    match groups.last_key_value() {
        None => true,
        Some((last, _)) => last.cmp(key).is_lt(),
    }
}

/// The group at the front, after the groups before it, and what comes after it.
#[tactic(auto, unfolding(crate::specs::PartialAnswerBytes::group))]
fn read_group<'a>(
    alloc: Global,
    total: usize,
    bytes: &'a [u8],
    groups: &BTreeMap<Key, Vec<Kept>>,
) -> Result<(Key, Vec<Kept>, &'a [u8]), Refusal>
    ensures read { Reads (λ x. ((x.0, x.1.items), x.2.now)) result ((group (map entry_of groups.now.entries)).read total bytes.now) }
    ensures after { IfOk result (λ x. is_after (map entry_of groups.now.entries) (x.0, []) ≡ true) }
{
    let (key, after_key) = read_key(alloc, total, bytes)?;
    let (measures, rest) = read_measures(alloc, total, after_key)?;
    if !is_after(groups, &key) {
        return Err(Refusal::BadOrder(place_of(total, bytes)));
    }
    Ok((key, measures, rest))
}

/// Puts a group after the others.
fn put_last(
    groups: &mut BTreeMap<Key, Vec<Kept>>,
    key: Key,
    measures: Vec<Kept>,
) -> Result<(), AllocError>
    requires { is_after (map entry_of groups.old.entries) (key, []) ≡ true }
    ensures { OnOk result (map entry_of groups.new.entries ≡ map entry_of groups.old.entries ++ (key, measures.items) ∷ []) }
{
    groups.insert(key, measures)?;
    Ok(())
}

/// This many groups at the front, and what comes after them. It grows as it reads.
fn read_group_list(
    alloc: Global,
    total: usize,
    bytes: &[u8],
    count: u64,
) -> Result<(BTreeMap<Key, Vec<Kept>>, &[u8]), Refusal>
    ensures { Reads (λ x. (map entry_of x.0.entries, x.1.now)) result ((all count group).read total bytes.now) }
{
    let mut groups = BTreeMap::new(alloc);
    let mut rest = bytes;
    for _ in 0..count {
        let (key, measures, after) = read_group(alloc, total, rest, &groups)?;
        put_last(&mut groups, key, measures)?;
        rest = after;
    }
    Ok((groups, rest))
}

/// The groups at the front, and what comes after them.
#[tactic(auto, unfolding(crate::specs::PartialAnswerBytes::groups, crate::specs::PartialAnswerBytes::counted))]
pub fn read_groups(
    alloc: Global,
    total: usize,
    bytes: &[u8],
) -> Result<(BTreeMap<Key, Vec<Kept>>, &[u8]), Refusal>
    ensures { Reads (λ x. (map entry_of x.0.entries, x.1.now)) result (groups.read total bytes.now) }
{
    let (count, rest) = read_count(total, bytes)?;
    read_group_list(alloc, total, rest, count)
}
