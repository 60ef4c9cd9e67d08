//! Queries: the parts of the query language's grammar, each column with its place in the text.
//!
//! Only parentheses nest: a condition is a list of terms and a term a list of factors, as the grammar has them, so what goes
//! down a condition goes no deeper than the parentheses that were open at once.
ghost use Rattle.std.specs.Prelude.{◌≡◌};

use crate::op::Op;
use crate::truth::Truth;
use std::marker::Model;

/// A name as a query has it, folded to upper case. Contracts see it as its bytes.
#[derive(Drop)]
pub struct Name {
    text: String,
}

impl Model for Name {
    ghost use Rattle.std.specs.Prelude.{List, ℕ};
    ghost use Rattle.std.specs.String.{string_bytes};

    ghost Value = { List ℕ };

    ghost view = { λ name. string_bytes name.text };
}

impl Name {
    ghost use Rattle.std.specs.Prelude.{◌≡◌};
    ghost use Rattle.std.specs.String.{string_bytes};

    /// The name of this text. It takes no memory.
    pub fn from_string(text: String) -> Name
        ensures { result ≡ string_bytes text }
    {
        Name { text }
    }

    /// The name's text.
    pub fn as_str(&self) -> &str
        ensures { result.now ≡ self.now }
    {
        self.text.as_str()
    }
}

/// The literals of an IN. Contracts see them as the list of their numbers.
#[derive(Drop)]
pub struct Literals {
    numbers: Vec<i128>,
}

impl Model for Literals {
    ghost use Rattle.std.specs.Prelude.{List, ℤ};

    ghost Value = { List ℤ };

    ghost view = { λ literals. literals.numbers.items };
}

impl Literals {
    /// The literals of these numbers. It takes no memory.
    pub fn from_vec(numbers: Vec<i128>) -> Literals
        ensures { result ≡ numbers.items }
    {
        Literals { numbers }
    }

    /// The numbers, from the left.
    pub fn as_slice(&self) -> &[i128]
        ensures { result.now ≡ self.now }
    {
        self.numbers.as_slice()
    }
}

/// A column that a query names, and the byte offset in the query's text at which it does.
#[derive(Drop)]
pub struct ColumnMention {
    pub name: Name,
    pub at: u64,
}

/// What a set function makes of a column's values.
#[derive(Clone, Copy, Debug, PartialEq, Eq)]
pub enum Fold {
    /// How many there are.
    Count,
    /// Their sum.
    Sum,
    /// Their mean, in millionths.
    Avg,
    /// The least.
    Min,
    /// The greatest.
    Max,
}

/// A set function (ISO/IEC 9075:1992, clause 6.5).
#[derive(Drop)]
pub enum SetFunction {
    /// `COUNT(*)`
    CountRows,
    /// A set function of a column, as `SUM(DISTINCT A)`.
    Of {
        fold: Fold,
        distinct: bool,
        column: ColumnMention,
    },
}

/// A side of a comparison: a column, a whole number or, in HAVING, a set function.
#[derive(Drop)]
pub enum Operand {
    Column(ColumnMention),
    Literal(i128),
    Function(SetFunction),
}

/// A predicate (ISO/IEC 9075:1992, clauses 8.2, 8.3, 8.4 and 8.6).
#[derive(Drop)]
pub enum Predicate {
    /// `A < 5`
    Compare {
        left: Operand,
        op: Op,
        right: Operand,
    },
    /// `A [NOT] BETWEEN 1 AND 5`
    Between {
        operand: Operand,
        negated: bool,
        low: Operand,
        high: Operand,
    },
    /// `A [NOT] IN (1, 5)`
    In {
        operand: Operand,
        negated: bool,
        literals: Literals,
    },
    /// `A IS [NOT] NULL`
    IsNull {
        operand: Operand,
        negated: bool,
    },
}

/// `IS [NOT] TRUE`, `FALSE` or `UNKNOWN`.
#[derive(Clone, Copy, Debug, PartialEq, Eq)]
pub struct IsTruth {
    pub negated: bool,
    pub truth: Truth,
}

impl IsTruth {
    ghost use Rattle.table_model.specs.Condition.{asked};

    /// What is asked of a condition with this truth value: true or false.
    pub fn asked(self, truth: Truth) -> Truth
        ensures { result ≡ asked self truth }
    {
        let has_it = Truth::from_bool(truth.is(self.truth));
        if self.negated { has_it.not() } else { has_it }
    }
}

/// A predicate, or a condition in parentheses.
#[derive(Drop)]
#[cycle(condition)]
pub enum Primary {
    Nested(Box<Condition>),
    Predicate(Predicate),
}

/// A primary, and the truth value that it is asked for, if any.
#[derive(Drop)]
#[cycle(condition)]
pub struct Test {
    pub primary: Primary,
    pub is: Option<IsTruth>,
}

/// A test, under NOT or not.
#[derive(Drop)]
#[cycle(condition)]
pub struct Factor {
    pub negated: bool,
    pub test: Test,
}

/// Factors joined by AND.
#[derive(Drop)]
#[cycle(condition)]
pub struct Term {
    pub factors: Vec<Factor>,
}

/// Terms joined by OR (ISO/IEC 9075:1992, clause 8.12). Contracts see it as a formula.
#[derive(Drop)]
#[cycle(condition)]
pub struct Condition {
    pub terms: Vec<Term>,
}

impl Model for Condition {
    ghost use Rattle.table_model.specs.Formula.{Formula, formula_code, formula_size};

    ghost Value = { Formula };

    ghost coded = { formula_code };

    ghost use Rattle.table_model.specs.Query.{formula_of_terms};

    ghost view = { λ condition. formula_of_terms condition.terms.items };

    ghost size = { formula_size };

    ghost use Rattle.table_model.specs.QueryFalls.{depth_le-terms};

    ghost size_decreases = { λ condition _. depth_le-terms condition.terms.items };
}

/// What a select item asks for.
#[derive(Drop)]
pub enum ItemValue {
    /// A column that the query groups by.
    Grouped(ColumnMention),
    /// A set function of the group's rows.
    Computed(SetFunction),
}

/// A select item, and its alias, if it has one.
#[derive(Drop)]
pub struct Item {
    pub value: ItemValue,
    pub alias: Option<Name>,
}

/// A query (ISO/IEC 9075:1992, clause 7.9): contracts see it as the record of its parts.
#[derive(Drop)]
pub struct Query {
    /// The select items, from the left.
    pub items: Vec<Item>,
    /// The table's name.
    pub table: Name,
    /// The condition of WHERE.
    pub filter: Option<Condition>,
    /// The columns of GROUP BY, from the left; none if it is absent.
    pub grouping: Vec<ColumnMention>,
    /// The condition of HAVING.
    pub having: Option<Condition>,
}

impl Model for Query {
    ghost use Rattle.table_model.specs.Query.{QueryShape, query_code};

    ghost Value = { QueryShape };

    ghost coded = { query_code };

    ghost view = { λ q. record { items = q.items.items; table = q.table; filter = q.filter; grouping = q.grouping.items; having = q.having } };
}
