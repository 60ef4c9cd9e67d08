//! The measures of a query: what a partial answer keeps once for all set functions that need the same.
ghost use Rattle.std.specs.Prelude.{◌≡◌, IfOk, OnOk};
ghost use Rattle.std.specs.List.{list_any};
ghost use Rattle.query_eval.specs.Aggregate.{same_aggregate};
ghost use Rattle.partial_answers.specs.Measures.{measure_of, measures_of, measured, with_measure};

use query_eval::{Aggregate, Plan};
use std::alloc::{AllocError, Global};
use table_model::Fold;

/// The set function that keeps what a set function needs: AVG needs what SUM keeps, and under DISTINCT all need the values.
pub fn measure_of(aggregate: Aggregate) -> Aggregate
    ensures { result ≡ measure_of aggregate }
{
    match aggregate {
        Aggregate::Rows => Aggregate::Rows,
        Aggregate::Folded {
            fold,
            distinct,
            place,
        } => folded(fold, distinct, place),
    }
}

/// The measure of a set function of a column.
fn folded(fold: Fold, distinct: bool, place: usize) -> Aggregate
    ensures { result ≡ measure_of (Aggregate.Folded fold distinct place) }
{
    let kept = match (distinct, fold) {
        (true, _) | (false, Fold::Count) => Fold::Count,
        (false, Fold::Sum | Fold::Avg) => Fold::Sum,
        (false, Fold::Min) => Fold::Min,
        (false, Fold::Max) => Fold::Max,
    };
    Aggregate::Folded {
        fold: kept,
        distinct,
        place,
    }
}

/// Whether a measure is one of some.
fn is_among(measures: &[Aggregate], measure: Aggregate) -> bool
    ensures { result ≡ list_any (same_aggregate measure) measures.now }
{
    measures.iter().any(|other| measure.same(*other))
}

/// Adds a measure, unless it is there.
fn add_measure(measures: &mut Vec<Aggregate>, measure: Aggregate) -> Result<(), AllocError>
    ensures { OnOk result (measures.new.items ≡ with_measure measures.old.items measure) }
{
    if !is_among(measures.as_slice(), measure) {
        measures.push(measure)?;
    }
    Ok(())
}

/// The measures of some set functions, each once: first COUNT(*), so that each group has its number of rows.
pub fn measures_of(alloc: Global, aggregates: &[Aggregate]) -> Result<Vec<Aggregate>, AllocError>
    ensures { IfOk result (λ measures. measures.items ≡ measures_of aggregates.now) }
{
    let mut measures = Vec::new(alloc);
    measures.push(Aggregate::Rows)?;
    for aggregate in aggregates {
        add_measure(&mut measures, measure_of(*aggregate))?;
    }
    Ok(measures)
}

/// What a partial answer keeps of the groups of a plan.
pub fn measured(alloc: Global, plan: &Plan) -> Result<Plan, AllocError>
    ensures { IfOk result (λ kept. kept ≡ measured plan.now) }
{
    let grouping = Vec::from_slice(alloc, plan.grouping())?;
    let measures = measures_of(alloc, plan.aggregates())?;
    Ok(Plan::new(grouping, measures))
}
