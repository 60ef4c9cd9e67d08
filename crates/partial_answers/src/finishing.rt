//! Finishing a partial answer: the values of the set functions, and then HAVING and the select list.
ghost use Rattle.std.specs.Prelude.{◌≡◌, ◌≢◌, ◌⊎◌, ◌++◌, ◌∷◌, [], Ok, IfOk, IfErr, OnOk, map};
ghost use Rattle.std.specs.BTreeMap.{IsOrdered};
ghost use Rattle.std.specs.FinMap as finite;
ghost use Rattle.std.specs.List.{position, position_or_len};
ghost use Rattle.std.specs.List.Sorted.{IsStrictlySortedBy};
ghost use Rattle.std.specs.Ordering.{int_cmp};
ghost use Rattle.table_model.specs.Answer.{millionths, whole};
ghost use Rattle.table_model.specs.Group.{key_cmp};
ghost use Rattle.table_model.specs.Meaning.{fold_value};
ghost use Rattle.query_eval.specs.Aggregate.{same_aggregate};
ghost use Rattle.query_parser.specs.Descent.{query_of};
ghost use Rattle.partial_answers.specs.Groups.{partial_answer_in, shown_entries};
ghost use Rattle.partial_answers.specs.Kept.{tally_in, tallies_in};
ghost use Rattle.partial_answers.specs.Measures.{measures_of};
ghost use Rattle.partial_answers.specs.PartialAnswer.{field_of, field_at, fields_from, finish, mean_kept, set_of, sum_kept};
ghost use Rattle.partial_answers.specs.Refusing.{RefusesUnless};
ghost use Rattle.partial_answers.specs.Shape.{AllCanFinish, AreOfShape, CanFinish, EachCanFinish, HaveShape, IsOfShape, IsQueryOf, RefusesText};

use crate::fault::PartialAnswerFault;
use crate::kept::Kept;
use crate::means::mean_of;
use crate::measures::{measure_of, measures_of};
use crate::shape::is_of_shape;
use query_eval::{Aggregate, FinishedGroup, Key, Plan, answer_of_groups, values_field};
use query_parser::{parse, resolve};
use std::alloc::Global;
use std::collections::BTreeMap;
use table_model::{Answer, Field, Fold, MAX_STATE_ROWS, Query, Refusal, Schema};

/// A whole number, or null.
fn whole_field(value: Option<i64>) -> Field
    ensures { result ≡ whole value }
{
    match value {
        None => Field::Null,
        Some(value) => Field::Whole(i128::from(value)),
    }
}

/// SUM: null of no values.
fn sum_field(kept: &Kept) -> Field
    ensures { result ≡ sum_kept (tally_in kept.now) }
{
    if kept.count() == 0 {
        Field::Null
    } else {
        Field::Whole(kept.sum())
    }
}

/// AVG, in millionths and truncated toward zero: null of no values.
fn mean_field(kept: &Kept) -> Result<Field, PartialAnswerFault>
    ensures value { IfOk result (λ field. field ≡ mean_kept (tally_in kept.now)) }
    ensures refused { IfErr result (λ e. (e ≡ PartialAnswerFault.TooMany) × (CanFinish kept.now → ⊥)) }
{
    let count = kept.count();
    if count == 0 {
        return Ok(Field::Null);
    }
    match mean_of(count, kept.sum()) {
        None => Err(PartialAnswerFault::TooMany),
        Some(mean) => Ok(Field::Millionths(mean)),
    }
}

/// A set function under DISTINCT.
fn distinct_field(fold: Fold, kept: &Kept) -> Result<Field, PartialAnswerFault>
    ensures value { IfOk result (λ field. field ≡ fold_value fold (finite.keys (tally_in kept.now).seen)) }
    ensures refused { IfErr result (λ e. (e ≡ PartialAnswerFault.TooMany) × (CanFinish kept.now → ⊥)) }
{
    let values = kept.values();
    if values.len() > MAX_STATE_ROWS {
        return Err(PartialAnswerFault::TooMany);
    }
    Ok(values_field(fold, values))
}

/// A set function's value, from what is kept of its measure.
fn field_of(aggregate: Aggregate, kept: &Kept) -> Result<Field, PartialAnswerFault>
    ensures value { IfOk result (λ field. field ≡ field_of aggregate (tally_in kept.now)) }
    ensures refused { IfErr result (λ e. (e ≡ PartialAnswerFault.TooMany) × (CanFinish kept.now → ⊥)) }
{
    match aggregate {
        Aggregate::Rows => Ok(Field::Whole(i128::from(kept.count()))),
        Aggregate::Folded {
            fold,
            distinct: true,
            ..
        } => distinct_field(fold, kept),
        Aggregate::Folded {
            fold,
            distinct: false,
            ..
        } => match fold {
            Fold::Count => Ok(Field::Whole(i128::from(kept.count()))),
            Fold::Sum => Ok(sum_field(kept)),
            Fold::Avg => mean_field(kept),
            Fold::Min => Ok(whole_field(kept.least())),
            Fold::Max => Ok(whole_field(kept.greatest())),
        },
    }
}

/// Which of some measures is the same first.
fn find_measure(measures: &[Aggregate], measure: Aggregate) -> Option<usize>
    ensures { result ≡ position (same_aggregate measure) measures.now }
{
    measures.iter().position(|other| measure.same(*other))
}

/// The first of some measures that is the same, or how many there are.
fn measure_among(measures: &[Aggregate], measure: Aggregate) -> usize
    ensures { result ≡ position_or_len (same_aggregate measure) measures.now }
{
    match find_measure(measures, measure) {
        None => measures.len(),
        Some(at) => at,
    }
}

/// A set function's value, from what is kept of some measures.
fn field_at(
    measures: &[Aggregate],
    kept: &[Kept],
    aggregate: Aggregate,
) -> Result<Field, PartialAnswerFault>
    ensures value { IfOk result (λ field. field ≡ field_at measures.now (tallies_in kept.now) aggregate) }
    ensures refused { IfErr result (λ e. (e ≡ PartialAnswerFault.TooMany) × (EachCanFinish kept.now → ⊥)) }
{
    let field = match kept.get(measure_among(measures, measure_of(aggregate))) {
        None => field_of(aggregate, &Kept::Count(0))?,
        Some(one) => field_of(aggregate, one)?,
    };
    Ok(field)
}

/// The values of some set functions, from what is kept of their measures.
fn fields_from(
    alloc: Global,
    aggregates: &[Aggregate],
    measures: &[Aggregate],
    kept: &[Kept],
) -> Result<Vec<Field>, PartialAnswerFault>
    ensures value { IfOk result (λ fields. fields.items ≡ map (field_at measures.now (tallies_in kept.now)) aggregates.now) }
    ensures refused { IfErr result (RefusesUnless Unit (EachCanFinish kept.now)) }
{
    let mut fields = Vec::with_capacity(alloc, aggregates.len())?;
    for aggregate in aggregates {
        fields.push(field_at(measures, kept, *aggregate)?)?;
    }
    Ok(fields)
}

/// A group of a partial answer when it is finished.
fn finished_group(
    alloc: Global,
    columns: usize,
    aggregates: &[Aggregate],
    measures: &[Aggregate],
    key: Key,
    kept: &[Kept],
) -> Result<FinishedGroup, PartialAnswerFault>
    ensures key { IfOk result (λ group. group.key ≡ key) }
    ensures fields { IfOk result (λ group. group.fields ≡ map (field_at measures.now (tallies_in kept.now)) aggregates.now) }
    ensures shaped { IfOk result (λ _. IsOfShape columns measures.now key kept.now) }
    ensures refused { IfErr result (RefusesUnless (IsOfShape columns measures.now key kept.now) (EachCanFinish kept.now)) }
{
    if !is_of_shape(&key, kept, columns, measures) {
        return Err(PartialAnswerFault::QueryDiffers);
    }
    let fields = fields_from(alloc, aggregates, measures, kept)?;
    Ok(FinishedGroup::new(key, fields))
}

/// The groups of a partial answer when they are finished, in ascending order of their keys.
fn finished(
    alloc: Global,
    columns: usize,
    aggregates: &[Aggregate],
    measures: &[Aggregate],
    groups: &mut BTreeMap<Key, Vec<Kept>>,
) -> Result<Vec<FinishedGroup>, PartialAnswerFault>
    ensures ordered { IsOrdered key_cmp groups.old }
    ensures value { IfOk result (λ all. all.items ≡ shown_entries measures.now aggregates.now groups.old.entries) }
    ensures shaped { IfOk result (λ _. AreOfShape columns measures.now groups.old) }
    ensures refused { IfErr result (RefusesUnless (AreOfShape columns measures.now groups.old) (AllCanFinish groups.old)) }
{
    let mut all = Vec::new(alloc);
    for _ in 0..groups.len() {
        match groups.pop_first() {
            None => {}
            Some((key, kept)) => {
                let group = finished_group(
                    alloc,
                    columns,
                    aggregates,
                    measures,
                    key,
                    kept.as_slice(),
                )?;
                all.push(group)?;
            }
        }
    }
    Ok(all)
}

/// The answer of the groups of a partial answer to the query that the partial answer is of.
///
/// The refusals are `QueryDiffers` if there is no group without GROUP BY, and then, group by group in the order of the keys,
/// `QueryDiffers` if a group is not of the shape that the query asks for, and `TooMany` if what it keeps can't be finished. `Memory`
/// can come in place of each but the first.
pub(crate) fn finish_groups(
    alloc: Global,
    schema: &Schema,
    query: &Query,
    groups: BTreeMap<Key, Vec<Kept>>,
) -> Result<Answer, PartialAnswerFault>
    ensures answer { IfOk result (λ answer. answer ≡ finish schema.now query.now (partial_answer_in groups)) }
    ensures shaped { IfOk result (λ _. HaveShape schema.now query.now groups) }
    ensures refused { IfErr result (RefusesUnless (HaveShape schema.now query.now groups) (AllCanFinish groups)) }
{
    let columns = query.grouping.len();
    if columns == 0 && groups.is_empty() {
        return Err(PartialAnswerFault::QueryDiffers);
    }
    let asked = Plan::of(alloc, schema, query)?;
    let measures = measures_of(alloc, asked.aggregates())?;
    let plan = asked.functions_once(alloc)?;
    let mut rest = groups;
    let all = finished(
        alloc,
        columns,
        plan.aggregates(),
        measures.as_slice(),
        &mut rest,
    )?;
    let answer = answer_of_groups(alloc, schema, query, &plan, all.as_slice())?;
    Ok(answer)
}

/// What a partial answer's text is refused as.
fn text_fault(refusal: Refusal) -> PartialAnswerFault
    ensures { (result ≡ PartialAnswerFault.Memory) ⊎ ((result ≡ PartialAnswerFault.Query refusal) × (refusal ≢ Refusal.Memory)) }
{
    match refusal {
        Refusal::Memory => PartialAnswerFault::Memory,
        other => PartialAnswerFault::Query(other),
    }
}

/// The query that a partial answer's text is, if its names are those of the table.
pub fn text_query(alloc: Global, schema: &Schema, text: &str) -> Result<Query, PartialAnswerFault>
    ensures query { IfOk result (λ query. query_of text.now ≡ Ok query) }
    ensures asked { IfOk result (λ _. IsQueryOf schema.now text.now) }
    ensures refused { IfErr result (RefusesText schema.now text.now) }
{
    match parse(alloc, text) {
        Err(refusal) => Err(text_fault(refusal)),
        Ok(query) => match resolve(&query, schema) {
            Err(refusal) => Err(PartialAnswerFault::Query(refusal)),
            Ok(()) => Ok(query),
        },
    }
}
