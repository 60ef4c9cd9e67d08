//! What a query says of a column's live rows.
ghost use Rattle.std.specs.Prelude.{◌≡◌, ◌<◌, [], ◌∷◌, IfOk, length, slice_index_or};
ghost use Rattle.table_model.specs.declared.answer.Field.TheVariants.{Null};
ghost use Rattle.replica_reports.specs.ColumnFigures.{figure_fields, figure_item, figure_items, figure_query, live_cells, live_figures, whole_or_zero};

use query_eval::{Columns, answer};
use replica_store::Store;
use std::alloc::{AllocError, Global};
use store_view::StoreView;
use table_model::{
    Answer, Column, ColumnMention, Field, Fold, Item, ItemValue, Name, Query, Schema, SetFunction,
};

/// The figures of a column's live rows.
#[derive(Clone, Copy, Debug, PartialEq, Eq)]
pub(crate) struct LiveFigures {
    /// How many rows are null there.
    pub nulls: i128,
    /// How many are not.
    pub values: i128,
    /// The least value, or null.
    pub least: Field,
    /// The greatest value, or null.
    pub greatest: Field,
}

/// A text as a query's name.
fn name_of(alloc: Global, text: &str) -> Result<Name, AllocError>
    ensures { IfOk result (λ name. name ≡ text.now) }
{
    Ok(Name::from_string(String::from_str(alloc, text)?))
}

/// A set function of a column's values, as a select item.
fn figure_item(alloc: Global, fold: Fold, column: &Column) -> Result<Item, AllocError>
    ensures { IfOk result (λ item. item ≡ figure_item fold column.now.name) }
{
    let name = name_of(alloc, column.name())?;
    let function = SetFunction::Of {
        fold,
        distinct: false,
        column: ColumnMention { name, at: 0 },
    };
    Ok(Item {
        value: ItemValue::Computed(function),
        alias: None,
    })
}

/// How many rows there are, how many values, the least and the greatest, as select items.
fn figure_items(alloc: Global, column: &Column) -> Result<Vec<Item>, AllocError>
    ensures { IfOk result (λ items. items.items ≡ figure_items column.now.name) }
{
    let mut items = Vec::with_capacity(alloc, 4)?;
    items.push(Item {
        value: ItemValue::Computed(SetFunction::CountRows),
        alias: None,
    })?;
    items.push(figure_item(alloc, Fold::Count, column)?)?;
    items.push(figure_item(alloc, Fold::Min, column)?)?;
    items.push(figure_item(alloc, Fold::Max, column)?)?;
    Ok(items)
}

/// The query that asks for them.
fn figure_query(alloc: Global, schema: &Schema, column: &Column) -> Result<Query, AllocError>
    ensures { IfOk result (λ query. query ≡ figure_query schema.now.name column.now.name) }
{
    let items = figure_items(alloc, column)?;
    let table = name_of(alloc, schema.table())?;
    Ok(Query {
        items,
        table,
        filter: None,
        grouping: Vec::new(alloc),
        having: None,
    })
}

/// What the query answers of the column at this place: one row.
fn asked<C: Columns>(alloc: Global, columns: &mut C, place: usize) -> Result<Answer, AllocError>
    requires { place < length (C.seen columns.old).table.columns }
    ensures { IfOk result (λ answer. answer.rows ≡ figure_fields (live_cells (C.seen columns.old).state) place ∷ []) }
{
    let schema = columns.schema();
    let column = &schema.column_list()[place];
    let query = figure_query(alloc, schema, column)?;
    let answer = answer(alloc, columns, &query)?;
    Ok(answer)
}

/// A field of some, and null past their end.
fn field_at(fields: &[Field], index: usize) -> Field
    ensures { result ≡ slice_index_or fields.now index Null }
{
    if index < fields.len() {
        fields[index]
    } else {
        Field::Null
    }
}

/// A count, or 0 if a field is no count.
fn whole_or_zero(field: Field) -> i128
    ensures { result ≡ whole_or_zero field }
{
    match field {
        Field::Whole(count) => count,
        Field::Null | Field::Millionths(_) => 0,
    }
}

impl LiveFigures {
    /// Those of the column at this place.
    pub(crate) fn of(alloc: Global, store: &Store, place: usize) -> Result<LiveFigures, AllocError>
        requires { place < length store.now.replica.schema.columns }
        ensures { IfOk result (λ figures. figures ≡ live_figures store.now.replica.state place) }
    {
        let answer = asked(alloc, &mut StoreView::new(store), place)?;
        let fields = answer.rows()[0].fields();
        let rows = whole_or_zero(field_at(fields, 0));
        let values = whole_or_zero(field_at(fields, 1));
        Ok(LiveFigures {
            nulls: rows - values,
            values,
            least: field_at(fields, 2),
            greatest: field_at(fields, 3),
        })
    }
}
