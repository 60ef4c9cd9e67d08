//! What the grammar takes at the byte at which a text is refused, as the parser says.

use crate::tokens::is_one_of;
use query_parser::{Expected, Sign};
use table_model::same_word;

/// What may come at a place of a text, and what comes before it. If the first is not known, it is nothing.
#[derive(Clone, Copy)]
pub struct Possible<'a> {
    expected: Option<&'a Expected>,
    previous: &'a [u8],
}

impl<'a> Possible<'a> {
    /// What may come after this word or symbol.
    pub fn new(expected: Option<&'a Expected>, previous: &'a [u8]) -> Possible<'a> {
        Possible { expected, previous }
    }

    /// The word or the symbol before the place; empty at the beginning of the text.
    pub fn previous(&self) -> &'a [u8] {
        self.previous
    }

    /// Whether it is known what may come.
    pub fn is_known(&self) -> bool {
        self.expected.is_some()
    }

    /// Whether a keyword or a symbol may come.
    pub fn has(&self, sign: Sign) -> bool {
        match self.expected {
            Some(expected) => expected.signs.iter().any(|other| other.is(sign)),
            None => false,
        }
    }

    /// Whether a name may come.
    pub fn has_name(&self) -> bool {
        match self.expected {
            Some(expected) => expected.has_name,
            None => false,
        }
    }

    /// Whether digits may come.
    pub fn has_digits(&self) -> bool {
        match self.expected {
            Some(expected) => expected.has_digits,
            None => false,
        }
    }

    /// Whether the text may end.
    pub fn has_end(&self) -> bool {
        match self.expected {
            Some(expected) => expected.has_end,
            None => false,
        }
    }

    /// Whether this word comes before the place.
    pub fn follows(&self, word: &[u8]) -> bool {
        same_word(self.previous, word)
    }
}

/// Places of a query, by what may come there.
impl<'a> Possible<'a> {
    /// Whether this is an operand of a condition.
    pub fn is_operand(&self) -> bool {
        self.has_name() && self.has_digits()
    }

    /// Whether a condition begins here.
    pub fn is_condition(&self) -> bool {
        self.is_operand() && self.has(Sign::OpenParen)
    }

    /// Whether this is a bound of BETWEEN.
    pub fn is_bound(&self) -> bool {
        self.is_operand() && !self.is_condition() && is_one_of(self.previous, &[b"BETWEEN", b"AND"])
    }

    /// Whether this is an item of the select list.
    pub fn is_item(&self) -> bool {
        self.has(Sign::Count) && !self.has_digits()
    }

    /// Whether this is a number of the list of IN.
    pub fn is_value(&self) -> bool {
        self.has(Sign::Minus) && !self.has_name()
    }

    /// Whether this is what a set function is of.
    pub fn is_argument(&self) -> bool {
        self.has(Sign::Distinct)
    }

    /// Whether this is the column after DISTINCT or ALL.
    pub fn is_counted(&self) -> bool {
        self.has_name() && is_one_of(self.previous, &[b"DISTINCT", b"ALL"]) && !self.is_item()
    }

    /// Whether a set function has to end here.
    pub fn is_closing(&self) -> bool {
        self.has(Sign::CloseParen) && !self.has(Sign::Comma) && !self.has(Sign::And)
    }

    /// Whether this is the table.
    pub fn is_table(&self) -> bool {
        self.has_name() && self.follows(b"FROM")
    }

    /// Whether this is a column of GROUP BY.
    pub fn is_grouping(&self) -> bool {
        self.has_name()
            && !self.has(Sign::Count)
            && !self.has_digits()
            && is_one_of(self.previous, &[b"BY", b","])
    }

    /// Whether this is after an item of the select list, which has an alias or not.
    pub fn is_after_item(&self) -> bool {
        self.has(Sign::From)
    }

    /// Whether a clause of a query may begin here, after the table.
    pub fn is_after_table(&self) -> bool {
        self.has(Sign::Where)
    }

    /// Whether this is after a column of GROUP BY.
    pub fn is_after_grouping(&self) -> bool {
        self.has(Sign::Comma) && self.has_end()
    }

    /// Whether this is after a number of the list of IN.
    pub fn is_after_value(&self) -> bool {
        self.has(Sign::Comma) && self.has(Sign::CloseParen)
    }

    /// Whether this is what a predicate says of its first operand.
    pub fn is_predicate(&self) -> bool {
        self.has(Sign::Between) && self.has(Sign::Is)
    }

    /// Whether this is BETWEEN or IN, after NOT.
    pub fn is_negated_predicate(&self) -> bool {
        self.has(Sign::Between) && !self.has(Sign::Is)
    }

    /// Whether this is the AND of BETWEEN.
    pub fn is_between(&self) -> bool {
        self.has(Sign::And) && !self.has(Sign::Or)
    }

    /// Whether this is after a predicate or a parenthesis.
    pub fn is_after_test(&self) -> bool {
        self.has(Sign::Or) && self.has(Sign::Is)
    }

    /// Whether a condition may go on here by AND and OR.
    pub fn is_after_condition(&self) -> bool {
        self.has(Sign::Or)
    }
}
