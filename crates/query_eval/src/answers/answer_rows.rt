//! Answers from finished groups.
ghost use Rattle.std.specs.Prelude.{◌≡◌, List, IfOk, map};
ghost use Rattle.table_model.specs.Meaning.{answer_over, item_text, rows_where};
ghost use Rattle.table_model.specs.State.{Cells};
ghost use Rattle.query_eval.specs.FieldPlaces.{field_in};
ghost use Rattle.query_eval.specs.Finished.{groups_kept, seen_items};
ghost use Rattle.query_eval.specs.Once.{asked_once, groups_over};

use crate::answers::field_places::{FieldPlace, item_places};
use crate::answers::group_masks::{has_group, kept_groups};
use crate::answers::heading::heading;
use crate::tallies::{FinishedGroup, Plan};
use std::alloc::{AllocError, Global};
use table_model::{Answer, AnswerRow, Condition, Item, Query, Schema};

/// The answer's row of a group: the field at the place of each select item.
fn row_of(
    alloc: Global,
    group: &FinishedGroup,
    places: &[FieldPlace],
) -> Result<AnswerRow, AllocError>
    ensures { IfOk result (λ row. row ≡ map (field_in group.now) places.now) }
{
    let mut fields = Vec::with_capacity(alloc, places.len())?;
    for place in places {
        fields.push(place.of_group(group))?;
    }
    Ok(AnswerRow::from_fields(fields))
}

/// The rows of the groups that HAVING keeps, in the order of the groups.
fn kept_rows(
    alloc: Global,
    schema: &Schema,
    plan: &Plan,
    groups: &[FinishedGroup],
    items: &[Item],
    having: &Option<Condition>,
) -> Result<Vec<AnswerRow>, AllocError>
    ensures { IfOk result (λ rows. rows.items ≡ map (seen_items schema.now.columns plan.now items.now) (groups_kept schema.now.columns plan.now having.now groups.now)) }
{
    let kept = kept_groups(alloc, schema, plan, groups, having)?;
    let places = item_places(alloc, schema, plan, items)?;
    let mut rows = Vec::new(alloc);
    for index in 0..groups.len() {
        if has_group(kept.as_slice(), index) {
            rows.push(row_of(alloc, &groups[index], places.as_slice())?)?;
        }
    }
    Ok(rows)
}

/// The answer of a query with these finished groups: its heading, and a row of each group that HAVING keeps, in the order of the
/// groups.
pub fn answer_of_groups(
    alloc: Global,
    schema: &Schema,
    query: &Query,
    plan: &Plan,
    groups: &[FinishedGroup],
) -> Result<Answer, AllocError>
    ensures heading { IfOk result (λ answer. answer.heading ≡ map item_text query.now.items) }
    ensures rows { IfOk result (λ answer. answer.rows ≡ map (seen_items schema.now.columns plan.now query.now.items) (groups_kept schema.now.columns plan.now query.now.having groups.now)) }
{
    let texts = heading(alloc, query.items.as_slice())?;
    let rows = kept_rows(
        alloc,
        schema,
        plan,
        groups,
        query.items.as_slice(),
        &query.having,
    )?;
    Ok(Answer::new(texts, rows))
}

/// The answer of a query whose groups are finished.
pub fn finish(
    alloc: Global,
    schema: &Schema,
    query: &Query,
    plan: &Plan,
    groups: &[FinishedGroup],
) -> Result<Answer, AllocError>
    requires { plan.now ≡ asked_once schema.now.columns query.now }
    ensures { IfOk result (λ answer. (rows : List Cells) → groups.now ≡ groups_over schema.now query.now rows → answer ≡ answer_over schema.now query.now rows) }
{
    let answer = answer_of_groups(alloc, schema, query, plan, groups)?;
    Ok(answer)
}
