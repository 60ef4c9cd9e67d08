//! The places of operands and of select items in finished groups. They are looked for once, and not at each group.
ghost use Rattle.std.specs.Prelude.{◌≡◌, ◌==◌, None, map, slice_index_or, IfOk};
ghost use Rattle.std.specs.List.{position, position_or_len};
ghost use Rattle.table_model.specs.Answer.{whole};
ghost use Rattle.table_model.specs.Meaning.{place_of};
ghost use Rattle.table_model.specs.declared.answer.Field.TheVariants.{Null};
ghost use Rattle.query_eval.specs.Aggregate.{same_aggregate};
ghost use Rattle.query_eval.specs.FieldPlaces.{field_in, group_at, item_place, no_group, operand_place, predicate_places};

use crate::tallies::{Aggregate, FinishedGroup, Plan, place_or_end};
use std::alloc::{AllocError, Global};
use table_model::{Field, Item, ItemValue, Operand, Predicate, Schema};

/// Which of some places is the column's first.
fn find_place(places: &[usize], column: usize) -> Option<usize>
    ensures { result ≡ position (λ place. place == column) places.now }
{
    places.iter().position(|place| *place == column)
}

/// Which of some aggregates is the same first.
fn find_aggregate(aggregates: &[Aggregate], aggregate: Aggregate) -> Option<usize>
    ensures { result ≡ position (same_aggregate aggregate) aggregates.now }
{
    aggregates.iter().position(|other| aggregate.same(*other))
}

/// The first of some places that is the column's, or how many there are.
fn place_among(places: &[usize], column: usize) -> usize
    ensures { result ≡ position_or_len (λ place. place == column) places.now }
{
    match find_place(places, column) {
        None => places.len(),
        Some(at) => at,
    }
}

/// The first of some aggregates that is the same, or how many there are.
fn aggregate_among(aggregates: &[Aggregate], aggregate: Aggregate) -> usize
    ensures { result ≡ position_or_len (same_aggregate aggregate) aggregates.now }
{
    match find_aggregate(aggregates, aggregate) {
        None => aggregates.len(),
        Some(at) => at,
    }
}

/// A whole number, or null.
fn number_field(number: Option<i128>) -> Field
    ensures { result ≡ whole number }
{
    match number {
        Some(value) => Field::Whole(value),
        None => Field::Null,
    }
}

/// A cell of a group's key, or null past the last one.
fn cell_at(group: &FinishedGroup, place: usize) -> Field
    ensures { result ≡ whole (slice_index_or group.now.key place None) }
{
    match group.cells().get(place) {
        Some(cell) => number_field(cell.number()),
        None => Field::Null,
    }
}

/// A field of a group, or null past the last one.
fn field_at(group: &FinishedGroup, place: usize) -> Field
    ensures { result ≡ slice_index_or group.now.fields place Null }
{
    match group.fields().get(place) {
        Some(field) => *field,
        None => Field::Null,
    }
}

/// The place of a value in a finished group.
#[derive(Clone, Copy, Debug)]
pub enum FieldPlace {
    /// In a cell of its key.
    Cell(usize),
    /// In the field of a set function.
    Computed(usize),
    /// Nowhere: the value is this number in each group.
    Fixed(i128),
}

impl FieldPlace {
    /// The place of an operand of HAVING.
    fn of_operand(schema: &Schema, plan: &Plan, operand: &Operand) -> FieldPlace
        ensures { result ≡ operand_place schema.now.columns plan.now operand.now }
    {
        match operand {
            Operand::Column(column) => {
                FieldPlace::Cell(place_among(plan.grouping(), place_or_end(schema, column)))
            }
            Operand::Literal(number) => FieldPlace::Fixed(*number),
            Operand::Function(function) => FieldPlace::Computed(aggregate_among(
                plan.aggregates(),
                Aggregate::of(schema, function),
            )),
        }
    }

    /// The place of a select item.
    fn of_item(schema: &Schema, plan: &Plan, value: &ItemValue) -> FieldPlace
        ensures { result ≡ item_place schema.now.columns plan.now value.now }
    {
        match value {
            ItemValue::Grouped(column) => {
                FieldPlace::Cell(place_among(plan.grouping(), place_or_end(schema, column)))
            }
            ItemValue::Computed(function) => FieldPlace::Computed(aggregate_among(
                plan.aggregates(),
                Aggregate::of(schema, function),
            )),
        }
    }

    /// The value there in a group.
    pub fn of_group(self, group: &FinishedGroup) -> Field
        ensures { result ≡ field_in group.now self }
    {
        match self {
            FieldPlace::Cell(place) => cell_at(group, place),
            FieldPlace::Computed(place) => field_at(group, place),
            FieldPlace::Fixed(number) => Field::Whole(number),
        }
    }

    /// The value there past the last group: null, but for a number that is the same in each.
    fn past_the_end(self) -> Field
        ensures { result ≡ field_in no_group self }
    {
        match self {
            FieldPlace::Cell(_) | FieldPlace::Computed(_) => Field::Null,
            FieldPlace::Fixed(number) => Field::Whole(number),
        }
    }

    /// The value there in one of some groups.
    pub fn at(self, groups: &[FinishedGroup], row: usize) -> Field
        ensures { result ≡ field_in (group_at groups.now row) self }
    {
        match groups.get(row) {
            Some(group) => self.of_group(group),
            None => self.past_the_end(),
        }
    }
}

/// The places of a predicate's operands, from the left; of fewer than three the last is there again.
#[derive(Clone, Copy, Debug)]
pub struct PredicatePlaces {
    pub first: FieldPlace,
    pub second: FieldPlace,
    pub third: FieldPlace,
}

impl PredicatePlaces {
    /// The places of the operands of a predicate of HAVING.
    pub fn of(schema: &Schema, plan: &Plan, predicate: &Predicate) -> PredicatePlaces
        ensures { result ≡ predicate_places schema.now.columns plan.now predicate.now }
    {
        let (first, second, third) = match predicate {
            Predicate::Compare { left, right, .. } => (left, right, right),
            Predicate::Between {
                operand,
                low,
                high,
                ..
            } => (operand, low, high),
            Predicate::In { operand, .. } | Predicate::IsNull { operand, .. } => {
                (operand, operand, operand)
            }
        };
        PredicatePlaces {
            first: FieldPlace::of_operand(schema, plan, first),
            second: FieldPlace::of_operand(schema, plan, second),
            third: FieldPlace::of_operand(schema, plan, third),
        }
    }
}

/// The places of select items.
pub fn item_places(
    alloc: Global,
    schema: &Schema,
    plan: &Plan,
    items: &[Item],
) -> Result<Vec<FieldPlace>, AllocError>
    ensures { IfOk result (λ places. places.items ≡ map (λ item. item_place schema.now.columns plan.now item.value) items.now) }
{
    let mut places = Vec::with_capacity(alloc, items.len())?;
    for item in items {
        places.push(FieldPlace::of_item(schema, plan, &item.value))?;
    }
    Ok(places)
}
