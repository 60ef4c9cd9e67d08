//! The groups of a partial answer put at the end of bytes.
ghost use Rattle.std.specs.Prelude.{◌≡◌, ◌++◌, [], map, IsTrue, OnOk};
ghost use Rattle.std.specs.List.{flat_map, list_all};
ghost use Rattle.segment_core.specs.Format.{Format};
ghost use Rattle.partial_file.specs.PartialAnswerBytes.{entry_of, group, groups};

use crate::kept_writing::{push_key, push_measures};
use crate::number_writing::push_number;
use partial_answers::Kept;
use query_eval::Key;
use std::alloc::AllocError;
use std::collections::BTreeMap;

/// Puts a group: its keys, and what is kept for each measure.
fn push_group(bytes: &mut Vec<u8>, key: &Key, measures: &[Kept]) -> Result<(), AllocError>
    ensures put { OnOk result (bytes.new.items ≡ bytes.old.items ++ (group []).spell (key.now, measures.now)) }
    ensures valid { OnOk result (IsTrue ((group []).valid (key.now, measures.now))) }
{
    push_key(bytes, key.cells())?;
    push_measures(bytes, measures)?;
    Ok(())
}

/// Puts groups in ascending order of their keys.
fn push_group_list(bytes: &mut Vec<u8>, all: &BTreeMap<Key, Vec<Kept>>) -> Result<(), AllocError>
    ensures put { OnOk result (bytes.new.items ≡ bytes.old.items ++ flat_map (group []).spell (map entry_of all.now.entries)) }
    ensures valid { OnOk result (IsTrue (list_all (group []).valid (map entry_of all.now.entries))) }
{
    for (key, measures) in all.iter() {
        push_group(bytes, key, measures.as_slice())?;
    }
    Ok(())
}

/// Puts groups in ascending order of their keys: how many there are, and these.
pub fn push_groups(bytes: &mut Vec<u8>, all: &BTreeMap<Key, Vec<Kept>>) -> Result<(), AllocError>
    ensures put { OnOk result (bytes.new.items ≡ bytes.old.items ++ groups.spell (map entry_of all.now.entries)) }
    ensures valid { OnOk result (IsTrue (groups.valid (map entry_of all.now.entries))) }
{
    push_number(bytes, all.len() as u64, 8)?;
    push_group_list(bytes, all)?;
    Ok(())
}
