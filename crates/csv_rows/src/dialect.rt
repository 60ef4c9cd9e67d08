//! Dialects of comma-separated values.
ghost use Rattle.std.specs.Prelude.{◌≡◌, ◌&&◌, None, Some, IfOk, option_map, false, true, not};
ghost use Rattle.std.specs.String.{string_bytes};
ghost use Rattle.csv_rows.specs.CsvText.{plain_order, width_of};
ghost use Rattle.csv_rows.specs.DialectForm.{usual, is_own_word};

use crate::order::Order;
use std::alloc::{AllocError, Global};
use std::marker::Model;
use table_model::{Column, same_text};

/// How a text of comma-separated values is written: what separates its fields, which word is a null, what the fields are if the header
/// does not say it, and whether the last line needs an end.
#[derive(Debug, Drop)]
pub struct Dialect {
    separator: u8,
    null_word: Option<String>,
    order: Option<Order>,
    needs_ends: bool,
}

impl Model for Dialect {
    ghost use Rattle.std.specs.Prelude.{option_map};
    ghost use Rattle.std.specs.String.{string_bytes};
    ghost use Rattle.csv_rows.specs.DialectForm.{DialectForm};

    ghost Value = { DialectForm };

    ghost view = { λ d. record { separator = d.separator; null_word = option_map string_bytes d.null_word; order = d.order; needs_ends = d.needs_ends } };
}

impl Dialect {
    /// The usual dialect: a comma separates, a null is an empty field, `NULL` or `\N`, and the last line may be without an end.
    pub fn usual() -> Dialect
        ensures { result ≡ usual }
    {
        Dialect {
            separator: b',',
            null_word: None,
            order: None,
            needs_ends: false,
        }
    }

    /// The dialect in which this byte separates, and this word, if there is one, is a null besides those of the usual dialect, in double
    /// quotes or not. A line feed never separates fields, since it ends the line.
    pub fn new(separator: u8, null_word: Option<String>) -> Dialect
        ensures { result ≡ record { separator = separator; null_word = option_map string_bytes null_word; order = None; needs_ends = false } }
    {
        Dialect {
            separator,
            null_word,
            order: None,
            needs_ends: false,
        }
    }

    /// This dialect, but with an order for the fields of each line: a header is then any line that is no row, and a column that no field
    /// is of is null in each row.
    pub fn with_order(self, order: Order) -> Dialect
        ensures { result ≡ record { separator = self.separator; null_word = self.null_word; order = Some order; needs_ends = self.needs_ends } }
    {
        let Dialect {
            separator,
            null_word,
            needs_ends,
            ..
        } = self;
        Dialect {
            separator,
            null_word,
            order: Some(order),
            needs_ends,
        }
    }

    /// This dialect, but with an end needed by the last line too: without one it is refused before its fields are looked at, since it may
    /// be cut off.
    pub fn with_ends(self) -> Dialect
        ensures { result ≡ record { separator = self.separator; null_word = self.null_word; order = self.order; needs_ends = true } }
    {
        let Dialect {
            separator,
            null_word,
            order,
            ..
        } = self;
        Dialect {
            separator,
            null_word,
            order,
            needs_ends: true,
        }
    }

    /// Whether a line is refused because it has no end.
    pub(crate) fn is_cut(&self, has_end: bool) -> bool
        ensures { result ≡ self.now.needs_ends && not has_end }
    {
        self.needs_ends && !has_end
    }

    /// The order of the fields, if it is given.
    pub(crate) fn order(&self) -> Option<&Order>
        ensures { option_map (λ order. order.now) result ≡ self.now.order }
    {
        self.order.as_ref()
    }

    /// How many fields a line of a table's rows has.
    pub(crate) fn width(&self, columns: &[Column]) -> usize
        ensures { result ≡ width_of self.now.order columns.now }
    {
        match self.order() {
            None => columns.len(),
            Some(order) => order.fields().len(),
        }
    }

    /// The order of the fields of a text without a header.
    pub(crate) fn plain_order(&self, alloc: Global, columns: &[Column]) -> Result<Order, AllocError>
        ensures { IfOk result (λ order. order ≡ plain_order self.now.order columns.now) }
    {
        match self.order() {
            None => Order::own(alloc, columns),
            Some(order) => order.copy(alloc),
        }
    }

    /// The byte between two fields of a line.
    pub fn separator(&self) -> u8
        ensures { result ≡ self.now.separator }
    {
        self.separator
    }

    /// Whether a text is the dialect's own word for a null.
    pub fn is_own_word(&self, text: &[u8]) -> bool
        ensures { result ≡ is_own_word self.now.null_word text.now }
    {
        match &self.null_word {
            None => false,
            Some(word) => same_text(text, word.as_bytes()),
        }
    }
}
