//! What the evaluator keeps of the groups of a query, as a partial answer has it.
ghost use Rattle.std.specs.Prelude.{◌≡◌, ◌∷◌, [], ◌++◌, ◌<◌, ℕ, List, length, map, slice_index_or, cond, Some, None, IfOk, OnOk};
ghost use Rattle.std.specs.Ordering.{eq_by_cmp};
ghost use Rattle.std.specs.List.Sorted.{IsStrictlySortedBy};
ghost use Rattle.std.specs.Map.{keys_of};
ghost use Rattle.std.specs.Global.{Vec as Items};
ghost use Rattle.table_model.specs.Group.{key_cmp};
ghost use Rattle.table_model.specs.State.{Cells};
ghost use Rattle.table_model.specs.Table.{Table};
ghost use Rattle.query_eval.specs.Entries.{place_in};
ghost use Rattle.query_eval.specs.Finished.{PlanShape};
ghost use Rattle.query_eval.specs.Kept.{AreFew};
ghost use Rattle.query_eval.specs.Taken.{AreTaken};
ghost use Rattle.query_eval.specs.declared.tallies.tally.Tally.{Tally as Running};
ghost use Rattle.partial_answers.specs.Evaluated.{told, told_at, told_places, AreWithin};
ghost use Rattle.partial_answers.specs.Kept.{tally_in, tallies_in};
ghost use Rattle.partial_answers.specs.Kinds.{AllKeep, AreOfKinds, kinds_at, running_kind};
ghost use Rattle.partial_answers.specs.Groups.{partial_answer_in, tallies_at};
ghost use Rattle.partial_answers.specs.PartialAnswer.{partial_answer_over};
ghost use Rattle.partial_answers.specs.Refusing.{kept_kind};
ghost use Rattle.partial_answers.specs.Shape.{FitPlan};

use crate::groups::put_group;
use crate::kept::{Kept, Sums};
use crate::values::Values;
use query_eval::{Groups, Key, Taken, Tally};
use std::alloc::{AllocError, Global};
use std::collections::BTreeMap;
use table_model::Extreme;

/// What the evaluator keeps of a set function, as a partial answer has it.
fn kept_of_tally(alloc: Global, tally: &Tally) -> Result<Kept, AllocError>
    ensures value { IfOk result (λ kept. tally_in kept ≡ told tally.now) }
    ensures kind { IfOk result (λ kept. kept_kind kept ≡ running_kind tally.now) }
{
    match tally {
        Tally::Count(count) => Ok(Kept::Count(*count)),
        Tally::Sum(sums) => Ok(Kept::Sum(Sums {
            count: sums.count(),
            sum: sums.sum(),
        })),
        Tally::Extreme(Extreme::Least, value) => Ok(Kept::Least(*value)),
        Tally::Extreme(Extreme::Greatest, value) => Ok(Kept::Greatest(*value)),
        Tally::Distinct(seen) => Ok(Kept::Distinct(Values::of_seen(alloc, seen)?)),
    }
}

/// What the evaluator keeps of some set functions.
fn kept_of_tallies(alloc: Global, tallies: &[Tally]) -> Result<Vec<Kept>, AllocError>
    ensures value { IfOk result (λ all. tallies_in all.items ≡ map told tallies.now) }
    ensures kinds { IfOk result (λ all. map kept_kind all.items ≡ map running_kind tallies.now) }
{
    let mut all = Vec::with_capacity(alloc, tallies.len())?;
    for tally in tallies {
        all.push(kept_of_tally(alloc, tally)?)?;
    }
    Ok(all)
}

/// Adds what is kept at a place of a column of tallies.
fn push_at(
    alloc: Global,
    all: &mut Vec<Kept>,
    column: &[Tally],
    place: usize,
) -> Result<(), AllocError>
    ensures value { OnOk result ((t : Running) → place < length column.now → tallies_in all.new.items ≡ tallies_in all.old.items ++ told (slice_index_or column.now place t) ∷ []) }
    ensures kind { OnOk result ((t : Running) → place < length column.now → map kept_kind all.new.items ≡ map kept_kind all.old.items ++ running_kind (slice_index_or column.now place t) ∷ []) }
{
    if let Some(tally) = column.get(place) {
        all.push(kept_of_tally(alloc, tally)?)?;
    }
    Ok(())
}

/// What the evaluator keeps of the group at a place.
fn kept_at(alloc: Global, tallies: &[Vec<Tally>], place: usize) -> Result<Vec<Kept>, AllocError>
    ensures value { IfOk result (λ all. (t : Running) → ((i : ℕ) (c : Items Running) → i < length tallies.now → place < length (slice_index_or tallies.now i c).items) → tallies_in all.items ≡ told_at tallies.now t place) }
    ensures kinds { IfOk result (λ all. (t : Running) → ((i : ℕ) (c : Items Running) → i < length tallies.now → place < length (slice_index_or tallies.now i c).items) → map kept_kind all.items ≡ kinds_at tallies.now t place) }
{
    let mut all = Vec::with_capacity(alloc, tallies.len())?;
    for column in tallies {
        push_at(alloc, &mut all, column.as_slice(), place)?;
    }
    Ok(all)
}

/// What the evaluator keeps of each group, at the groups' keys, of which each has its place.
fn groups_at(
    alloc: Global,
    entries: Vec<(Key, usize)>,
    tallies: &[Vec<Tally>],
) -> Result<BTreeMap<Key, Vec<Kept>>, AllocError>
    requires { IsStrictlySortedBy key_cmp (keys_of entries.items) }
    ensures value { IfOk result (λ made. (t : Running) → AreWithin entries.items tallies.now → (k : Cells) → tallies_at made k ≡ told_places tallies.now t (place_in entries.items k)) }
    ensures kinds { IfOk result (λ made. (kinds : List ℕ) → AreWithin entries.items tallies.now → AreOfKinds kinds entries.items tallies.now → AllKeep kinds made) }
{
    let mut made = BTreeMap::new(alloc);
    for (key, place) in entries {
        let kept = kept_at(alloc, tallies, place)?;
        put_group(&mut made, key, kept)?;
    }
    Ok(made)
}

/// The groups with what is kept of a query with GROUP BY.
fn of_groups(alloc: Global, groups: Groups) -> Result<BTreeMap<Key, Vec<Kept>>, AllocError>
    ensures value { IfOk result (λ made. (t : Running) → AreWithin groups.places.index.entries groups.tallies.items → (k : Cells) → tallies_at made k ≡ told_places groups.tallies.items t (place_in groups.places.index.entries k)) }
    ensures kinds { IfOk result (λ made. (kinds : List ℕ) → AreWithin groups.places.index.entries groups.tallies.items → AreOfKinds kinds groups.places.index.entries groups.tallies.items → AllKeep kinds made) }
{
    let entries = groups.places.into_entries(alloc)?;
    let made = groups_at(alloc, entries, groups.tallies.as_slice())?;
    Ok(made)
}

/// The one group of a query without GROUP BY.
fn of_whole(alloc: Global, tallies: &[Tally]) -> Result<BTreeMap<Key, Vec<Kept>>, AllocError>
    ensures value { IfOk result (λ made. (k : Cells) → tallies_at made k ≡ cond (eq_by_cmp key_cmp [] k) (Some (map told tallies.now)) None) }
    ensures kinds { IfOk result (AllKeep (map running_kind tallies.now)) }
{
    let mut made = BTreeMap::new(alloc);
    let kept = kept_of_tallies(alloc, tallies)?;
    put_group(&mut made, Key::empty(alloc), kept)?;
    Ok(made)
}

/// What was taken in of some rows, as a partial answer of them.
pub fn groups_taken(alloc: Global, taken: Taken) -> Result<BTreeMap<Key, Vec<Kept>>, AllocError>
    ensures value { IfOk result (λ made. (table : Table) (plan : PlanShape) (rows : List Cells) → AreFew table rows → AreTaken plan rows taken → partial_answer_in made ≡ partial_answer_over plan rows) }
    ensures shape { IfOk result (λ made. (plan : PlanShape) (rows : List Cells) → AreTaken plan rows taken → FitPlan plan made) }
{
    match taken {
        Taken::Whole(tallies) => {
            let made = of_whole(alloc, tallies.as_slice())?;
            Ok(made)
        }
        Taken::Grouped(groups) => {
            let made = of_groups(alloc, groups)?;
            Ok(made)
        }
    }
}
