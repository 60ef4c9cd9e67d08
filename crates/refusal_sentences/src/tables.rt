//! Tables in sentences.

use std::fmt;
use table_model::Schema;

/// The names of a table's columns, after each but the last a comma and a space.
#[derive(Clone, Copy)]
pub struct Names<'a>(pub &'a Schema);

impl<'a> fmt::Display for Names<'a> {
    fn fmt<W: fmt::Write>(&self, f: &mut fmt::Formatter<W>) -> fmt::Result {
        let mut is_first = true;
        for column in self.0.column_list() {
            if !is_first {
                f.write_str(", ")?;
            }
            is_first = false;
            f.write_str(column.name())?;
        }
        Ok(())
    }
}

/// A table's name, and in parentheses its columns with their types.
#[derive(Clone, Copy)]
pub struct Table<'a>(pub &'a Schema);

impl<'a> fmt::Display for Table<'a> {
    fn fmt<W: fmt::Write>(&self, f: &mut fmt::Formatter<W>) -> fmt::Result {
        f.write_str(self.0.table())?;
        let mut before = " (";
        for column in self.0.column_list() {
            let name = column.name();
            let column_type = column.column_type();
            write!(f, "{before}{name} {column_type}")?;
            before = ", ";
        }
        f.write_str(")")
    }
}
