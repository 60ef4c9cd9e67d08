//! What the rows of some columns give to the answer of a query.
ghost use Rattle.std.specs.Prelude.{◌≡◌, ◌≤◌, ◌+◌, ◌*◌, IfOk};
ghost use Rattle.query_eval.specs.Read.{IsSame};
ghost use Rattle.query_eval.specs.Kept.{live_vectors};
ghost use Rattle.query_eval.specs.QueryMentions.{query_mentions};
ghost use Rattle.partial_answers.specs.Groups.{partial_answer_in};
ghost use Rattle.partial_answers.specs.PartialAnswer.{partial_answer_of};
ghost use Rattle.partial_answers.specs.Shape.{HaveShape};

use crate::kept::Kept;
use crate::measures::measured;
use crate::told::groups_taken;
use query_eval::{Columns, Key, Plan, take_rows};
use std::alloc::{AllocError, Global};
use std::collections::BTreeMap;
use table_model::Query;

/// The groups of a query over the rows that aren't deleted, with what is kept of each: a partial answer of the answer. HAVING is
/// not applied. It changes only the number of passes.
///
/// Each mention of a column in the query takes at most one pass over each of the column's vectors that has a live row. It is
/// refused only if memory runs out, and can then have taken passes.
pub fn partial_answer_groups<C: Columns>(
    alloc: Global,
    columns: &mut C,
    query: &Query,
) -> Result<BTreeMap<Key, Vec<Kept>>, AllocError>
    ensures value { IfOk result (λ groups. partial_answer_in groups ≡ partial_answer_of (C.seen columns.old).table query.now (C.seen columns.old).state) }
    ensures shape { IfOk result (HaveShape (C.seen columns.old).table query.now) }
    ensures same { IsSame (C.seen columns.old) (C.seen columns.new) }
    ensures passes { IfOk result (λ groups. (C.seen columns.new).passes ≤ (C.seen columns.old).passes + query_mentions query.now * live_vectors (C.seen columns.old).state) }
{
    let asked = Plan::of(alloc, columns.schema(), query)?;
    let plan = measured(alloc, &asked)?;
    let taken = take_rows(alloc, columns, &plan, &query.filter)?;
    let groups = groups_taken(alloc, taken)?;
    Ok(groups)
}
