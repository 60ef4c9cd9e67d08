//! Which column of a table a query names.
ghost use Rattle.std.specs.Prelude.{◌≡◌, ◌<◌, ◌≤◌, length, None};
ghost use Rattle.std.specs.Option.{IfSome};
ghost use Rattle.table_model.specs.Meaning.{place_of};

use table_model::{ColumnMention, Schema, column_at};

/// The place of the column that a query mentions, if the table has one of the name.
pub fn place_of(schema: &Schema, column: &ColumnMention) -> Option<usize>
    ensures some { IfSome result (λ place. place ≡ place_of schema.now.columns column.now.name) }
    ensures within { IfSome result (λ place. place < length schema.now.columns) }
    ensures none { result ≡ None → length schema.now.columns ≤ place_of schema.now.columns column.now.name }
{
    column_at(schema.column_list(), column.name.as_str())
}
