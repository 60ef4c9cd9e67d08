//! Groups under way, vector by vector.
ghost use Rattle.std.specs.Prelude.{◌≡◌, ◌≤◌, ◌+◌, [], ℕ, List, length, IfOk, OnOk};
ghost use Rattle.query_eval.specs.Read.{IsSame};
ghost use Rattle.query_eval.specs.Grouping.{AreEmpty, AreGroups, GroupMore, plan_mentions};
ghost use Rattle.query_eval.specs.Kept.{rows_at};
ghost use Rattle.query_eval.specs.Places.{IsIndex};
ghost use Rattle.query_eval.specs.Vector.{IsThere, vector_of};

use crate::columns::Columns;
use crate::filter::KeptVector;
use crate::grouping::{Places, Room, place_rows};
use crate::hash_key::HashKey;
use crate::tallies::aggregate::Aggregate;
use crate::tallies::plan::Plan;
use crate::tallies::split_tallies::add_columns;
use crate::tallies::tally::Tally;
use std::alloc::{AllocError, Global};

/// Groups under way: their places, and for each aggregate the groups' tallies by their places.
#[derive(Drop)]
pub struct Groups {
    pub places: Places,
    pub tallies: Vec<Vec<Tally>>,
}

/// No tallies yet, for each aggregate.
fn no_tallies(alloc: Global, aggregates: &[Aggregate]) -> Result<Vec<Vec<Tally>>, AllocError>
    ensures { IfOk result (λ tallies. AreEmpty (length aggregates.now) tallies.items) }
{
    let mut tallies = Vec::new(alloc);
    for _ in aggregates {
        tallies.push(Vec::new(alloc))?;
    }
    Ok(tallies)
}

impl Groups {
    /// No groups.
    pub(crate) fn none(
        alloc: Global,
        hash_key: HashKey,
        aggregates: &[Aggregate],
    ) -> Result<Groups, AllocError>
        ensures index { IfOk result (λ groups. IsIndex groups.places) }
        ensures hash_key { IfOk result (λ groups. groups.places.index.hash_key ≡ hash_key) }
        ensures groups { IfOk result (λ groups. (by : List ℕ) → AreGroups by aggregates.now [] groups.places.index.entries groups.tallies.items) }
    {
        let places = Places::new(alloc, hash_key)?;
        let tallies = no_tallies(alloc, aggregates)?;
        Ok(Groups { places, tallies })
    }
}

/// Takes a vector's kept rows into their groups. Each mention of a column takes at most one pass.
pub fn group_vector<C: Columns>(
    alloc: Global,
    columns: &mut C,
    plan: &Plan,
    groups: &mut Groups,
    kept: &KeptVector,
    room: &mut Room,
) -> Result<(), AllocError>
    requires { IsThere (C.seen columns.old).state kept.now.id.batch kept.now.id.vector }
    ensures index { OnOk result (IsIndex groups.old.places → IsIndex groups.new.places) }
    ensures groups { OnOk result (GroupMore plan.now (rows_at (vector_of (C.seen columns.old).state kept.now.id) kept.now.rows) groups.old groups.new) }
    ensures same { IsSame (C.seen columns.old) (C.seen columns.new) }
    ensures passes { OnOk result ((C.seen columns.new).passes ≤ (C.seen columns.old).passes + plan_mentions plan.now) }
{
    place_rows(
        alloc,
        columns,
        kept,
        plan.grouping(),
        &mut groups.places,
        room,
    )?;
    let count = groups.places.len();
    add_columns(
        alloc,
        columns,
        kept,
        plan.aggregates(),
        &mut groups.tallies,
        count,
        &room.split,
        &mut room.values,
        &mut room.packed,
    )?;
    Ok(())
}
