//! Set functions by the places of their columns.
ghost use Rattle.std.specs.Prelude.{◌≡◌};
ghost use Rattle.table_model.specs.QueryCode.{fold_number};
ghost use Rattle.table_model.specs.Meaning.{place_of};
ghost use Rattle.query_eval.specs.Aggregate.{aggregate_of, same_aggregate};

use crate::filter::place_of;
use table_model::{ColumnMention, Fold, Schema, SetFunction};

/// A set function, its column by its place in the schema. A place past the last column represents a name that the schema does not
/// have: it has no value.
#[derive(Clone, Copy, Debug)]
pub enum Aggregate {
    /// `COUNT(*)`
    Rows,
    /// A set function of a column.
    Folded {
        fold: Fold,
        distinct: bool,
        place: usize,
    },
}

/// The place of the column that a query mentions, or the number of columns for a name that the schema does not have.
pub fn place_or_end(schema: &Schema, column: &ColumnMention) -> usize
    ensures { result ≡ place_of schema.now.columns column.now.name }
{
    match place_of(schema, column) {
        None => schema.column_list().len(),
        Some(place) => place,
    }
}

/// A set function's kind as a number, from 0 on.
fn fold_number(fold: Fold) -> u32
    ensures { result ≡ fold_number fold }
{
    match fold {
        Fold::Count => 0,
        Fold::Sum => 1,
        Fold::Avg => 2,
        Fold::Min => 3,
        Fold::Max => 4,
    }
}

impl Aggregate {
    /// The set function with its column by its place.
    pub fn of(schema: &Schema, function: &SetFunction) -> Aggregate
        ensures { result ≡ aggregate_of schema.now.columns function.now }
    {
        match function {
            SetFunction::CountRows => Aggregate::Rows,
            SetFunction::Of {
                fold,
                distinct,
                column,
            } => Aggregate::Folded {
                fold: *fold,
                distinct: *distinct,
                place: place_or_end(schema, column),
            },
        }
    }

    /// Whether the two are the same set function of the same column.
    pub fn same(self, other: Aggregate) -> bool
        ensures { result ≡ same_aggregate self other }
    {
        match (self, other) {
            (Aggregate::Rows, Aggregate::Rows) => true,
            (
                Aggregate::Folded {
                    fold,
                    distinct,
                    place,
                },
                Aggregate::Folded {
                    fold: other_fold,
                    distinct: other_distinct,
                    place: other_place,
                },
            ) => {
                fold_number(fold) == fold_number(other_fold)
                    && distinct == other_distinct
                    && place == other_place
            }
            (Aggregate::Rows, Aggregate::Folded { .. })
            | (Aggregate::Folded { .. }, Aggregate::Rows) => false,
        }
    }
}
