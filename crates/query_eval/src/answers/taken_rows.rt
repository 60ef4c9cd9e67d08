//! What a query asks of its rows, taken in vector by vector: no list of the rows that are kept is made.
ghost use Rattle.std.specs.Prelude.{◌≡◌, ◌<◌, ◌≤◌, ◌+◌, ◌*◌, [], List, cond, IfOk, OnOk};
ghost use Rattle.table_model.specs.State.{Cells};
ghost use Rattle.table_model.specs.Table.{Table};
ghost use Rattle.query_eval.specs.Read.{IsSame};
ghost use Rattle.query_eval.specs.Finished.{finished_by};
ghost use Rattle.query_eval.specs.Grouping.{plan_mentions};
ghost use Rattle.query_eval.specs.Kept.{has_live, live_vectors_in, live_vectors, rows_alive, batch_alive, rows_kept, rows_at, vector_kept, AreFew};
ghost use Rattle.query_eval.specs.Taken.{AreTaken, TakesIn, all_mentions};
ghost use Rattle.query_eval.specs.Vector.{IsThere, batch_count, vector_of};

use crate::columns::{Columns, VectorId};
use crate::filter::{KeptVector, has_rows, kept_mask};
use crate::grouping::Room;
use crate::hash_key::HashKey;
use crate::tallies::{
    FinishedGroup, Groups, Plan, Tally, group_vector, grouped_table, no_tallies, tally_vector,
    whole_group,
};
use std::alloc::{AllocError, Global};
use table_model::Condition;

/// What is known of the rows that were taken in.
#[derive(Drop)]
pub enum Taken {
    /// Without GROUP BY: a tally of all rows for each aggregate.
    Whole(Vec<Tally>),
    /// With GROUP BY: the groups.
    Grouped(Groups),
}

impl Taken {
    /// What is known of no rows.
    fn none(alloc: Global, hash_key: HashKey, plan: &Plan) -> Result<Taken, AllocError>
        ensures { IfOk result (λ taken. AreTaken plan.now [] taken) }
    {
        if plan.grouping().is_empty() {
            Ok(Taken::Whole(no_tallies(alloc, hash_key, plan.aggregates())?))
        } else {
            Ok(Taken::Grouped(Groups::none(alloc, hash_key, plan.aggregates())?))
        }
    }

    /// Takes in the kept rows of a vector. Each mention of a column takes at most one pass.
    fn take<C: Columns>(
        &mut self,
        alloc: Global,
        columns: &mut C,
        plan: &Plan,
        kept: &KeptVector,
        room: &mut Room,
    ) -> Result<(), AllocError>
        requires { IsThere (C.seen columns.old).state kept.now.id.batch kept.now.id.vector }
        ensures taken { OnOk result (TakesIn plan.now (rows_at (vector_of (C.seen columns.old).state kept.now.id) kept.now.rows) self.old self.new) }
        ensures same { IsSame (C.seen columns.old) (C.seen columns.new) }
        ensures passes { OnOk result ((C.seen columns.new).passes ≤ (C.seen columns.old).passes + plan_mentions plan.now) }
    {
        match self {
            Taken::Whole(tallies) => {
                tally_vector(columns, kept, plan.aggregates(), tallies, &mut room.values)?;
            }
            Taken::Grouped(groups) => group_vector(alloc, columns, plan, groups, kept, room)?,
        }
        Ok(())
    }

    /// The groups of the rows that were taken in, when they are finished: one of all rows without GROUP BY.
    pub fn finish(self, alloc: Global, plan: &Plan) -> Result<Vec<FinishedGroup>, AllocError>
        ensures { IfOk result (λ groups. (table : Table) (rows : List Cells) → AreFew table rows → AreTaken plan.now rows self → groups.items ≡ finished_by plan.now rows) }
    {
        match self {
            Taken::Whole(tallies) => whole_group(alloc, plan.aggregates(), tallies.as_slice()),
            Taken::Grouped(groups) => grouped_table(alloc, plan, groups),
        }
    }
}

/// Takes in the rows of a vector that a query keeps. A vector without a live row takes no pass, and a vector without a kept row
/// adds nothing.
fn take_vector<C: Columns>(
    alloc: Global,
    columns: &mut C,
    plan: &Plan,
    condition: &Option<Condition>,
    id: VectorId,
    taken: &mut Taken,
    room: &mut Room,
) -> Result<(), AllocError>
    requires { IsThere (C.seen columns.old).state id.batch id.vector }
    ensures taken { OnOk result (TakesIn plan.now (vector_kept (C.seen columns.old).table condition.now (vector_of (C.seen columns.old).state id)) taken.old taken.new) }
    ensures same { IsSame (C.seen columns.old) (C.seen columns.new) }
    ensures passes { OnOk result ((C.seen columns.new).passes ≤ (C.seen columns.old).passes + cond (has_live (vector_of (C.seen columns.old).state id)) (all_mentions condition.now plan.now) 0) }
{
    let rows = kept_mask(columns, id, condition);
    if !has_rows(&rows) {
        return Ok(());
    }
    let kept = KeptVector { id, rows };
    taken.take(alloc, columns, plan, &kept, room)?;
    Ok(())
}

/// Takes in the rows of a batch that a query keeps, vector by vector.
fn take_batch<C: Columns>(
    alloc: Global,
    columns: &mut C,
    plan: &Plan,
    condition: &Option<Condition>,
    batch: usize,
    taken: &mut Taken,
    room: &mut Room,
) -> Result<(), AllocError>
    requires { batch < batch_count (C.seen columns.old).state }
    ensures taken { OnOk result (TakesIn plan.now (rows_kept (C.seen columns.old).table condition.now (batch_alive (C.seen columns.old).state batch)) taken.old taken.new) }
    ensures same { IsSame (C.seen columns.old) (C.seen columns.new) }
    ensures passes { OnOk result ((C.seen columns.new).passes ≤ (C.seen columns.old).passes + all_mentions condition.now plan.now * live_vectors_in (C.seen columns.old).state batch) }
{
    for vector in 0..columns.vectors(batch) {
        take_vector(
            alloc,
            columns,
            plan,
            condition,
            VectorId { batch, vector },
            taken,
            room,
        )?;
    }
    Ok(())
}

/// Takes in all rows that a query keeps, batch by batch. Each mention of a column takes at most one pass over each vector that
/// has a live row.
pub fn take_rows<C: Columns>(
    alloc: Global,
    columns: &mut C,
    plan: &Plan,
    condition: &Option<Condition>,
) -> Result<Taken, AllocError>
    ensures taken { IfOk result (λ taken. AreTaken plan.now (rows_kept (C.seen columns.old).table condition.now (rows_alive (C.seen columns.old).state)) taken) }
    ensures few { IfOk result (λ _. AreFew (C.seen columns.old).table (rows_kept (C.seen columns.old).table condition.now (rows_alive (C.seen columns.old).state))) }
    ensures same { IsSame (C.seen columns.old) (C.seen columns.new) }
    ensures passes { IfOk result (λ _. (C.seen columns.new).passes ≤ (C.seen columns.old).passes + all_mentions condition.now plan.now * live_vectors (C.seen columns.old).state) }
{
    let mut taken = Taken::none(alloc, columns.hash_key(), plan)?;
    let mut room = Room::new(alloc);
    for batch in 0..columns.batches() {
        take_batch(
            alloc, columns, plan, condition, batch, &mut taken, &mut room,
        )?;
    }
    Ok(taken)
}
