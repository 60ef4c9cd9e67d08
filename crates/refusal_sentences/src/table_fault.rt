//! What is wrong with the names of a table that is to be made.
ghost use Rattle.std.specs.Prelude.{◌≡◌, IfNone, IfSome, true, false, map};
ghost use Rattle.std.specs.List.{list_all, list_any};
ghost use Rattle.table_model.specs.Table.{is_named, name_of, has_name, are_distinct, is_schema};

use crate::quoted::Quoted;
use std::fmt;
use table_model::{ColType, MAX_COLUMNS, is_identifier, is_keyword, same_word};

/// Why no table has a name and columns.
#[derive(Clone, Copy)]
pub enum TableFault<'a> {
    /// The name of the table or of a column is a keyword.
    Keyword(&'a str),
    /// The name of the table or of a column is not a letter and up to 63 letters, digits or `_`.
    NotAName(&'a str),
    /// Two columns have this name, in either case.
    Twice(&'a str),
    /// There is no column, or there are more than [`MAX_COLUMNS`].
    Count(usize),
}

/// What is wrong with a table of this name and these columns. It is why [`Schema::new`](table_model::Schema::new) refuses them as
/// `BadSchema`. None if that takes them.
#[tactic(auto, unfolding(table_model::specs::Table::is_schema))]
pub fn fault_of_table<'a>(table: &'a str, columns: &[(&'a str, ColType)]) -> Option<TableFault<'a>>
    ensures taken { IfNone result (is_schema table.now (map (λ c. (c.0.now, c.1)) columns.now) ≡ true) }
    ensures refused { IfSome result (λ _. is_schema table.now (map (λ c. (c.0.now, c.1)) columns.now) ≡ false) }
{
    let count = columns.len();
    if !is_identifier(table.as_bytes()) {
        Some(TableFault::of_name(table))
    } else if count == 0 || MAX_COLUMNS < count {
        Some(TableFault::Count(count))
    } else if let Some(name) = unnamed(columns) {
        Some(TableFault::of_name(name))
    } else {
        match named_twice(columns) {
            Some(name) => Some(TableFault::Twice(name)),
            None => None,
        }
    }
}

impl<'a> TableFault<'a> {
    /// What is wrong with a name by itself.
    fn of_name(name: &'a str) -> TableFault<'a> {
        if is_keyword(name.as_bytes()) {
            TableFault::Keyword(name)
        } else {
            TableFault::NotAName(name)
        }
    }
}

/// The first name of a column that is no identifier, if there is one.
fn unnamed<'a>(columns: &[(&'a str, ColType)]) -> Option<&'a str>
    ensures none { IfNone result (list_all is_named (map (λ c. (c.0.now, c.1)) columns.now) ≡ true) }
    ensures some { IfSome result (λ _. list_all is_named (map (λ c. (c.0.now, c.1)) columns.now) ≡ false) }
{
    for &(name, _) in columns {
        if !is_identifier(name.as_bytes()) {
            return Some(name);
        }
    }
    None
}

/// The name of a column that an earlier one has, if there is one.
fn named_twice<'a>(columns: &[(&'a str, ColType)]) -> Option<&'a str>
    ensures none { IfNone result (are_distinct (map name_of (map (λ c. (c.0.now, c.1)) columns.now)) ≡ true) }
    ensures some { IfSome result (λ _. are_distinct (map name_of (map (λ c. (c.0.now, c.1)) columns.now)) ≡ false) }
{
    match columns.split_first() {
        None => None,
        Some((first, rest)) => match among(first.0, rest) {
            Some(name) => Some(name),
            None => named_twice(rest),
        },
    }
}

/// The first of these columns' names that is the same as another one once folded, if there is one.
fn among<'a>(name: &str, columns: &[(&'a str, ColType)]) -> Option<&'a str>
    ensures none { IfNone result (list_any (λ c. has_name name.now c.0.now) columns.now ≡ false) }
    ensures some { IfSome result (λ _. list_any (λ c. has_name name.now c.0.now) columns.now ≡ true) }
{
    for &(other, _) in columns {
        if same_word(name.as_bytes(), other.as_bytes()) {
            return Some(other);
        }
    }
    None
}

/// The fault in words.
impl<'a> fmt::Display for TableFault<'a> {
    fn fmt<W: fmt::Write>(&self, f: &mut fmt::Formatter<W>) -> fmt::Result {
        match *self {
            TableFault::Keyword(name) => {
                fmt::Display::fmt(&Quoted(name.as_bytes()), f)?;
                f.write_str(" is a keyword of the query language and can't be a name")
            }
            TableFault::NotAName(name) => {
                fmt::Display::fmt(&Quoted(name.as_bytes()), f)?;
                f.write_str(" is not a name: a name is a letter and up to 63 letters, digits or _")
            }
            TableFault::Twice(name) => {
                f.write_str("two columns have the name ")?;
                fmt::Display::fmt(&Quoted(name.as_bytes()), f)
            }
            TableFault::Count(count) => {
                write!(
                    f,
                    "a table has 1 to {MAX_COLUMNS} columns, and these are {count}"
                )
            }
        }
    }
}
