//! What a query asks of its groups, by places in the table's schema.
ghost use Rattle.std.specs.Prelude.{◌≡◌, ◌++◌, ◌==◌, IfOk, OnOk, map};
ghost use Rattle.std.specs.List.{flat_map, list_any};
ghost use Rattle.table_model.specs.Meaning.{grouping_of, place_of};
ghost use Rattle.table_model.specs.Query.{formula_of_factor, formula_of_primary, formula_of_term, formula_of_test};
ghost use Rattle.query_eval.specs.Aggregate.{aggregate_of, aggregates_of, condition_functions, having_functions, item_functions, operand_functions, predicate_functions, same_aggregate};
ghost use Rattle.query_eval.specs.Finished.{plan_of};
ghost use Rattle.query_eval.specs.Once.{aggregates_once, functions_once, once_plan, places_once, with_aggregate, with_place};

use crate::tallies::aggregate::{Aggregate, place_or_end};
use std::alloc::{AllocError, Global};
use std::marker::Model;
use table_model::{
    ColumnMention, Condition, Factor, Item, ItemValue, Operand, Predicate, Primary, Query, Schema,
    Term, Test,
};

/// The places of a query's grouping columns, and the set functions that its select list and HAVING name.
#[derive(Drop)]
pub struct Plan {
    grouping: Vec<usize>,
    aggregates: Vec<Aggregate>,
}

impl Model for Plan {
    ghost use Rattle.query_eval.specs.Finished.{PlanShape};

    ghost Value = { PlanShape };

    ghost view = { λ p. record { grouping = p.grouping.items; aggregates = p.aggregates.items } };
}

impl Plan {
    /// What a query asks of its groups: an aggregate for each mention of a set function in the select list, and then in HAVING.
    pub fn of(alloc: Global, schema: &Schema, query: &Query) -> Result<Plan, AllocError>
        ensures { IfOk result (λ plan. plan ≡ plan_of schema.now.columns query.now) }
    {
        let mut grouping = Vec::new(alloc);
        add_places(&mut grouping, schema, query.grouping.as_slice())?;
        let mut aggregates = Vec::new(alloc);
        add_items(&mut aggregates, schema, query.items.as_slice())?;
        add_having(&mut aggregates, schema, &query.having)?;
        Ok(Plan {
            grouping,
            aggregates,
        })
    }

    /// A plan that groups by these places and asks for these aggregates. It takes no memory.
    pub fn new(grouping: Vec<usize>, aggregates: Vec<Aggregate>) -> Plan
        ensures grouping { result.grouping ≡ grouping.items }
        ensures aggregates { result.aggregates ≡ aggregates.items }
    {
        Plan {
            grouping,
            aggregates,
        }
    }

    /// This plan with each grouping column and each aggregate once, in the order of their first mentions.
    pub fn once(&self, alloc: Global) -> Result<Plan, AllocError>
        ensures { IfOk result (λ plan. plan ≡ once_plan self.now) }
    {
        let grouping = places_once(alloc, self.grouping())?;
        let aggregates = aggregates_once(alloc, self.aggregates())?;
        Ok(Plan {
            grouping,
            aggregates,
        })
    }

    /// This plan with each aggregate once, in the order of their first mentions.
    pub fn functions_once(&self, alloc: Global) -> Result<Plan, AllocError>
        ensures { IfOk result (λ plan. plan ≡ functions_once self.now) }
    {
        let grouping = Vec::from_slice(alloc, self.grouping())?;
        let aggregates = aggregates_once(alloc, self.aggregates())?;
        Ok(Plan {
            grouping,
            aggregates,
        })
    }

    /// The places of the grouping columns, in GROUP BY's order.
    pub fn grouping(&self) -> &[usize]
        ensures { result.now ≡ self.now.grouping }
    {
        self.grouping.as_slice()
    }

    /// The aggregates, in their order.
    pub fn aggregates(&self) -> &[Aggregate]
        ensures { result.now ≡ self.now.aggregates }
    {
        self.aggregates.as_slice()
    }
}

/// Whether a place is one of some.
fn has_place(places: &[usize], place: usize) -> bool
    ensures { result ≡ list_any (λ other. other == place) places.now }
{
    places.iter().any(|other| *other == place)
}

/// Adds a place, unless it is there.
fn add_place_once(places: &mut Vec<usize>, place: usize) -> Result<(), AllocError>
    ensures { OnOk result (places.new.items ≡ with_place places.old.items place) }
{
    if !has_place(places.as_slice(), place) {
        places.push(place)?;
    }
    Ok(())
}

/// Some places, each once.
fn places_once(alloc: Global, places: &[usize]) -> Result<Vec<usize>, AllocError>
    ensures { IfOk result (λ once. once.items ≡ places_once places.now) }
{
    let mut once = Vec::new(alloc);
    for place in places {
        add_place_once(&mut once, *place)?;
    }
    Ok(once)
}

/// Whether an aggregate is one of some.
fn has_aggregate(aggregates: &[Aggregate], aggregate: Aggregate) -> bool
    ensures { result ≡ list_any (same_aggregate aggregate) aggregates.now }
{
    aggregates.iter().any(|other| aggregate.same(*other))
}

/// Adds an aggregate, unless it is there.
fn add_aggregate_once(
    aggregates: &mut Vec<Aggregate>,
    aggregate: Aggregate,
) -> Result<(), AllocError>
    ensures { OnOk result (aggregates.new.items ≡ with_aggregate aggregates.old.items aggregate) }
{
    if !has_aggregate(aggregates.as_slice(), aggregate) {
        aggregates.push(aggregate)?;
    }
    Ok(())
}

/// Some aggregates, each once.
fn aggregates_once(alloc: Global, aggregates: &[Aggregate]) -> Result<Vec<Aggregate>, AllocError>
    ensures { IfOk result (λ once. once.items ≡ aggregates_once aggregates.now) }
{
    let mut once = Vec::new(alloc);
    for aggregate in aggregates {
        add_aggregate_once(&mut once, *aggregate)?;
    }
    Ok(once)
}

/// Adds the place of each column.
fn add_places(
    out: &mut Vec<usize>,
    schema: &Schema,
    columns: &[ColumnMention],
) -> Result<(), AllocError>
    ensures { OnOk result (out.new.items ≡ out.old.items ++ map (λ column. place_of schema.now.columns column.name) columns.now) }
{
    for column in columns {
        out.push(place_or_end(schema, column))?;
    }
    Ok(())
}

/// Adds the set functions of the select items.
fn add_items(out: &mut Vec<Aggregate>, schema: &Schema, items: &[Item]) -> Result<(), AllocError>
    ensures { OnOk result (out.new.items ≡ out.old.items ++ map (aggregate_of schema.now.columns) (flat_map (λ item. item_functions item.value) items.now)) }
{
    for item in items {
        add_item(out, schema, &item.value)?;
    }
    Ok(())
}

/// Adds the set function of a select item, if it has one.
fn add_item(out: &mut Vec<Aggregate>, schema: &Schema, value: &ItemValue) -> Result<(), AllocError>
    ensures { OnOk result (out.new.items ≡ out.old.items ++ map (aggregate_of schema.now.columns) (item_functions value.now)) }
{
    if let ItemValue::Computed(function) = value {
        out.push(Aggregate::of(schema, function))?;
    }
    Ok(())
}

/// Adds the set functions of HAVING, if there is one.
fn add_having(
    out: &mut Vec<Aggregate>,
    schema: &Schema,
    having: &Option<Condition>,
) -> Result<(), AllocError>
    ensures { OnOk result (out.new.items ≡ out.old.items ++ map (aggregate_of schema.now.columns) (having_functions having.now)) }
{
    match having {
        None => Ok(()),
        Some(condition) => add_condition(out, schema, condition),
    }
}

/// Adds the set functions of a condition, from the left.
#[cycle(functions)]
fn add_condition(
    out: &mut Vec<Aggregate>,
    schema: &Schema,
    condition: &Condition,
) -> Result<(), AllocError>
    ensures { OnOk result (out.new.items ≡ out.old.items ++ map (aggregate_of schema.now.columns) (condition_functions condition.now)) }
{
    for term in &condition.terms {
        add_term(out, schema, term)?;
    }
    Ok(())
}

/// Adds the set functions of a term.
#[cycle(functions)]
fn add_term(out: &mut Vec<Aggregate>, schema: &Schema, term: &Term) -> Result<(), AllocError>
    ensures { OnOk result (out.new.items ≡ out.old.items ++ map (aggregate_of schema.now.columns) (condition_functions (formula_of_term term.now))) }
{
    for factor in &term.factors {
        add_factor(out, schema, factor)?;
    }
    Ok(())
}

/// Adds the set functions of a factor.
#[cycle(functions)]
fn add_factor(out: &mut Vec<Aggregate>, schema: &Schema, factor: &Factor) -> Result<(), AllocError>
    ensures { OnOk result (out.new.items ≡ out.old.items ++ map (aggregate_of schema.now.columns) (condition_functions (formula_of_factor factor.now))) }
{
    add_test(out, schema, &factor.test)
}

/// Adds the set functions of a test.
#[cycle(functions)]
fn add_test(out: &mut Vec<Aggregate>, schema: &Schema, test: &Test) -> Result<(), AllocError>
    ensures { OnOk result (out.new.items ≡ out.old.items ++ map (aggregate_of schema.now.columns) (condition_functions (formula_of_test test.now))) }
{
    add_primary(out, schema, &test.primary)
}

/// Adds the set functions of a predicate, or of a condition in parentheses.
#[cycle(functions)]
fn add_primary(
    out: &mut Vec<Aggregate>,
    schema: &Schema,
    primary: &Primary,
) -> Result<(), AllocError>
    ensures { OnOk result (out.new.items ≡ out.old.items ++ map (aggregate_of schema.now.columns) (condition_functions (formula_of_primary primary.now))) }
{
    match primary {
        Primary::Nested(condition) => add_condition(out, schema, condition),
        Primary::Predicate(predicate) => add_predicate(out, schema, predicate),
    }
}

/// Adds the set functions of a predicate, from the left.
fn add_predicate(
    out: &mut Vec<Aggregate>,
    schema: &Schema,
    predicate: &Predicate,
) -> Result<(), AllocError>
    ensures { OnOk result (out.new.items ≡ out.old.items ++ map (aggregate_of schema.now.columns) (predicate_functions predicate.now)) }
{
    match predicate {
        Predicate::Compare { left, right, .. } => {
            add_operand(out, schema, left)?;
            add_operand(out, schema, right)
        }
        Predicate::Between {
            operand,
            low,
            high,
            ..
        } => {
            add_operand(out, schema, operand)?;
            add_operand(out, schema, low)?;
            add_operand(out, schema, high)
        }
        Predicate::In { operand, .. } | Predicate::IsNull { operand, .. } => {
            add_operand(out, schema, operand)
        }
    }
}

/// Adds the set function of an operand, if it is one.
fn add_operand(
    out: &mut Vec<Aggregate>,
    schema: &Schema,
    operand: &Operand,
) -> Result<(), AllocError>
    ensures { OnOk result (out.new.items ≡ out.old.items ++ map (aggregate_of schema.now.columns) (operand_functions operand.now)) }
{
    if let Operand::Function(function) = operand {
        out.push(Aggregate::of(schema, function))?;
    }
    Ok(())
}
