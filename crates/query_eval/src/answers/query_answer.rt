//! Answers of queries.
ghost use Rattle.std.specs.Prelude.{◌≡◌, ◌≤◌, ◌+◌, ◌*◌, IfOk};
ghost use Rattle.table_model.specs.Meaning.{answer_of};
ghost use Rattle.query_eval.specs.Read.{IsSame};
ghost use Rattle.query_eval.specs.Kept.{live_vectors};
ghost use Rattle.query_eval.specs.Once.{once_mentions};

use crate::answers::answer_rows::finish;
use crate::answers::taken_rows::take_rows;
use crate::columns::Columns;
use crate::tallies::Plan;
use std::alloc::{AllocError, Global};
use table_model::{Answer, Query};

/// The answer of a query: that of its meaning over the rows that aren't deleted. It changes only the number of passes.
///
/// Each mention of a column in WHERE takes at most one pass over each of the column's vectors that has a live row, and so does each
/// different set function and each different grouping column, however often it is mentioned. It is refused only if memory runs
/// out, and can then have taken passes.
pub fn answer<C: Columns>(
    alloc: Global,
    columns: &mut C,
    query: &Query,
) -> Result<Answer, AllocError>
    ensures value { IfOk result (λ answer. answer ≡ answer_of (C.seen columns.old).table query.now (C.seen columns.old).state) }
    ensures same { IsSame (C.seen columns.old) (C.seen columns.new) }
    ensures passes { IfOk result (λ _. (C.seen columns.new).passes ≤ (C.seen columns.old).passes + once_mentions (C.seen columns.old).table.columns query.now * live_vectors (C.seen columns.old).state) }
{
    let asked = Plan::of(alloc, columns.schema(), query)?;
    let plan = asked.once(alloc)?;
    let taken = take_rows(alloc, columns, &plan, &query.filter)?;
    let finished = taken.finish(alloc, &plan)?;
    let answer = finish(alloc, columns.schema(), query, &plan, finished.as_slice())?;
    Ok(answer)
}
