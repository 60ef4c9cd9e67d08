//! The groups of a partial answer, and those of two partial answers together.
ghost use Rattle.std.specs.Prelude.{◌≡◌, ℕ, List, cond, false, map, Some, OnOk, IfOk, IfErr};
ghost use Rattle.std.specs.BTreeMap.{get};
ghost use Rattle.std.specs.Ordering.{eq_by_cmp};
ghost use Rattle.table_model.specs.Group.{key_cmp};
ghost use Rattle.table_model.specs.State.{Cells};
ghost use Rattle.query_eval.specs.Finished.{PlanShape};
ghost use Rattle.partial_answers.specs.Kept.{tallies_in};
ghost use Rattle.partial_answers.specs.Groups.{partial_answer_in, tallies_at};
ghost use Rattle.partial_answers.specs.Kinds.{AllKeep};
ghost use Rattle.partial_answers.specs.PartialAnswer.{combine, either};
ghost use Rattle.partial_answers.specs.Refusing.{RefusesGroups, RefusesTaking, kept_kind};
ghost use Rattle.partial_answers.specs.Shape.{FitPlan};

use crate::fault::PartialAnswerFault;
use crate::kept::{Kept, group_of_both};
use query_eval::Key;
use std::alloc::{AllocError, Global};
use std::collections::BTreeMap;

/// Puts what is kept of a group at its keys.
pub fn put_group(
    groups: &mut BTreeMap<Key, Vec<Kept>>,
    key: Key,
    kept: Vec<Kept>,
) -> Result<(), AllocError>
    ensures put { OnOk result ((k : Cells) → tallies_at groups.new k ≡ cond (eq_by_cmp key_cmp key k) (Some (tallies_in kept.items)) (tallies_at groups.old k)) }
    ensures others { OnOk result ((k : Cells) → eq_by_cmp key_cmp key k ≡ false → get key_cmp groups.new k ≡ get key_cmp groups.old k) }
    ensures kinds { OnOk result ((kinds : List ℕ) → AllKeep kinds groups.old → map kept_kind kept.items ≡ kinds → AllKeep kinds groups.new) }
{
    groups.insert(key, kept)?;
    Ok(())
}

/// Takes one group more into the groups of a partial answer.
fn take_group(
    alloc: Global,
    groups: &mut BTreeMap<Key, Vec<Kept>>,
    key: Key,
    kept: Vec<Kept>,
) -> Result<(), PartialAnswerFault>
    ensures taken { OnOk result ((k : Cells) → tallies_at groups.new k ≡ cond (eq_by_cmp key_cmp key k) (either (tallies_at groups.old key) (Some (tallies_in kept.items))) (tallies_at groups.old k)) }
    ensures others { OnOk result ((k : Cells) → eq_by_cmp key_cmp key k ≡ false → get key_cmp groups.new k ≡ get key_cmp groups.old k) }
    ensures kinds { OnOk result ((kinds : List ℕ) → AllKeep kinds groups.old → map kept_kind kept.items ≡ kinds → AllKeep kinds groups.new) }
    ensures refused { IfErr result (λ e. RefusesTaking e groups.old key kept.items) }
{
    match groups.remove(&key) {
        None => Ok(put_group(groups, key, kept)?),
        Some(mine) => {
            let both = group_of_both(alloc, mine.as_slice(), kept.as_slice())?;
            Ok(put_group(groups, key, both)?)
        }
    }
}

/// The groups of both partial answers, those with the same keys as one.
fn groups_of_both(
    alloc: Global,
    one: BTreeMap<Key, Vec<Kept>>,
    other: BTreeMap<Key, Vec<Kept>>,
) -> Result<BTreeMap<Key, Vec<Kept>>, PartialAnswerFault>
    ensures both { IfOk result (λ both. (k : Cells) → tallies_at both k ≡ either (tallies_at one k) (tallies_at other k)) }
    ensures kinds { IfOk result (λ both. (kinds : List ℕ) → AllKeep kinds one → AllKeep kinds other → AllKeep kinds both) }
    ensures refused { IfErr result (λ e. RefusesGroups e one other) }
{
    let mut all = one;
    let mut rest = other;
    let end = rest.len();
    for count in 0..end {
        match rest.pop_first() {
            None => {}
            Some((key, kept)) => take_group(alloc, &mut all, key, kept)?,
        }
    }
    Ok(all)
}

/// Two partial answers combined.
pub(crate) fn combined_groups(
    alloc: Global,
    one: BTreeMap<Key, Vec<Kept>>,
    other: BTreeMap<Key, Vec<Kept>>,
) -> Result<BTreeMap<Key, Vec<Kept>>, PartialAnswerFault>
    ensures both { IfOk result (λ both. partial_answer_in both ≡ combine (partial_answer_in one) (partial_answer_in other)) }
    ensures shape { IfOk result (λ both. (plan : PlanShape) → FitPlan plan one → FitPlan plan other → FitPlan plan both) }
    ensures refused { IfErr result (λ e. RefusesGroups e one other) }
{
    let both = groups_of_both(alloc, one, other)?;
    Ok(both)
}
