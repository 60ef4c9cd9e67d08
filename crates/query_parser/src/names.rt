//! Whether a query's names are those of a table.
ghost use Rattle.std.specs.Prelude.{◌≡◌, ℕ, ◌<◌, ◌≤◌, length, None, slice_index_or, false, []};
ghost use Rattle.table_model.specs.Query.{formula_of_term, formula_of_factor};
ghost use Rattle.table_model.specs.Table.{column_limit};
ghost use Rattle.query_parser.specs.Resolve.{places, sooner, visited, verdict, resolved, is_grouped, in_function, in_operand, in_predicate, in_formula, in_clause, in_items, in_value, in_grouping, in_query, IsJudged, resolved_condition, IsConditionJudged};

use table_model::{
    Column, ColumnMention, Condition, Factor, Item, ItemValue, MAX_COLUMNS, Operand, Predicate,
    Primary, Query, Refusal, Schema, SetFunction, Term, column_at, same_text,
};

/// The least places so far: of a column that the table does not have, and of one that GROUP BY has to name and does not.
type Places = (Option<u64>, Option<u64>);

/// A table's columns, and which of them GROUP BY names.
#[derive(Drop)]
struct Names<'a> {
    columns: &'a [Column],
    grouping: &'a [ColumnMention],
    grouped: [bool; MAX_COLUMNS],
    ghost few: { length columns.now ≤ column_limit },
    ghost marked: { (i : ℕ) → i < column_limit → slice_index_or grouped i false ≡ is_grouped columns.now grouping.now i },
}

impl<'a> Names<'a> {
    /// The columns of the table, with those marked that GROUP BY names.
    fn new(columns: &'a [Column], grouping: &'a [ColumnMention]) -> Names<'a>
        requires { length columns.now ≤ column_limit }
        ensures columns { result.columns.now ≡ columns.entry.now }
        ensures grouping { result.grouping.now ≡ grouping.entry.now }
    {
        let mut grouped = [false; MAX_COLUMNS];
        for mention in grouping {
            if let Some(i) = column_at(columns, mention.name.as_str()) {
                grouped[i] = true;
            }
        }
        Names {
            columns,
            grouping,
            grouped,
        }
    }

    /// The places after one more column, which GROUP BY has to name or need not.
    #[tactic(auto, unfolding(crate::specs::Resolve::places))]
    fn with(&self, found: Places, column: &ColumnMention, bound: bool) -> Places
        ensures { result ≡ visited self.now.columns.now self.now.grouping.now found (column.now, bound) }
    {
        match column_at(self.columns, column.name.as_str()) {
            None => (sooner(found.0, column.at), found.1),
            Some(i) if bound && !self.grouped[i] => (found.0, sooner(found.1, column.at)),
            Some(_) => found,
        }
    }
}

/// The lesser of the least place so far and one more.
fn sooner(first: Option<u64>, at: u64) -> Option<u64>
    ensures { result ≡ sooner first at }
{
    match first {
        None => Some(at),
        Some(place) => Some(place.min(at)),
    }
}

/// The places after a set function's columns.
#[tactic(auto, unfolding(crate::specs::Resolve::places))]
fn in_function(names: &Names<'_>, found: Places, function: &SetFunction) -> Places
    ensures { result ≡ places names.now.columns.now names.now.grouping.now found (in_function function.now) }
{
    match function {
        SetFunction::CountRows => found,
        SetFunction::Of { column, .. } => names.with(found, column, false),
    }
}

/// The places after an operand's columns.
#[tactic(auto, unfolding(crate::specs::Resolve::places))]
fn in_operand(names: &Names<'_>, found: Places, operand: &Operand, bound: bool) -> Places
    ensures { result ≡ places names.now.columns.now names.now.grouping.now found (in_operand bound operand.now) }
{
    match operand {
        Operand::Column(column) => names.with(found, column, bound),
        Operand::Literal(_) => found,
        Operand::Function(function) => in_function(names, found, function),
    }
}

/// The places after a predicate's columns.
fn in_predicate(names: &Names<'_>, found: Places, predicate: &Predicate, bound: bool) -> Places
    ensures { result ≡ places names.now.columns.now names.now.grouping.now found (in_predicate bound predicate.now) }
{
    match predicate {
        Predicate::Compare { left, right, .. } => {
            let found = in_operand(names, found, left, bound);
            in_operand(names, found, right, bound)
        }
        Predicate::Between {
            operand,
            low,
            high,
            ..
        } => {
            let found = in_operand(names, found, operand, bound);
            let found = in_operand(names, found, low, bound);
            in_operand(names, found, high, bound)
        }
        Predicate::In { operand, .. } | Predicate::IsNull { operand, .. } => {
            in_operand(names, found, operand, bound)
        }
    }
}

/// The places after a condition's columns.
#[cycle(mentions)]
fn in_condition(names: &Names<'_>, found: Places, condition: &Condition, bound: bool) -> Places
    ensures { result ≡ places names.now.columns.now names.now.grouping.now found (in_formula bound condition.now) }
{
    let mut found = found;
    for term in &condition.terms {
        found = in_term(names, found, term, bound);
    }
    found
}

/// The places after a term's columns.
#[cycle(mentions)]
fn in_term(names: &Names<'_>, found: Places, term: &Term, bound: bool) -> Places
    ensures { result ≡ places names.now.columns.now names.now.grouping.now found (in_formula bound (formula_of_term term.now)) }
{
    let mut found = found;
    for factor in &term.factors {
        found = in_factor(names, found, factor, bound);
    }
    found
}

/// The places after a factor's columns.
#[cycle(mentions)]
fn in_factor(names: &Names<'_>, found: Places, factor: &Factor, bound: bool) -> Places
    ensures { result ≡ places names.now.columns.now names.now.grouping.now found (in_formula bound (formula_of_factor factor.now)) }
{
    match &factor.test.primary {
        Primary::Nested(condition) => in_condition(names, found, condition, bound),
        Primary::Predicate(predicate) => in_predicate(names, found, predicate, bound),
    }
}

/// The places after the columns of a clause, if it is there.
#[tactic(auto, unfolding(crate::specs::Resolve::places))]
fn in_clause(names: &Names<'_>, found: Places, clause: &Option<Condition>, bound: bool) -> Places
    ensures { result ≡ places names.now.columns.now names.now.grouping.now found (in_clause bound clause.now) }
{
    match clause {
        None => found,
        Some(condition) => in_condition(names, found, condition, bound),
    }
}

/// The places after a select item's columns.
#[tactic(auto, unfolding(crate::specs::Resolve::places))]
fn in_value(names: &Names<'_>, found: Places, value: &ItemValue) -> Places
    ensures { result ≡ places names.now.columns.now names.now.grouping.now found (in_value value.now) }
{
    match value {
        ItemValue::Grouped(column) => names.with(found, column, true),
        ItemValue::Computed(function) => in_function(names, found, function),
    }
}

/// The places after the select items' columns.
fn in_items(names: &Names<'_>, found: Places, items: &[Item]) -> Places
    ensures { result ≡ places names.now.columns.now names.now.grouping.now found (in_items items.now) }
{
    let mut found = found;
    for item in items {
        found = in_value(names, found, &item.value);
    }
    found
}

/// The places after the columns of GROUP BY.
fn in_grouping(names: &Names<'_>, found: Places, columns: &[ColumnMention]) -> Places
    ensures { result ≡ places names.now.columns.now names.now.grouping.now found (in_grouping columns.now) }
{
    let mut found = found;
    for column in columns {
        found = names.with(found, column, false);
    }
    found
}

/// The places of all columns that the query names.
fn in_query(query: &Query, columns: &[Column]) -> Places
    requires { length columns.now ≤ column_limit }
    ensures { result ≡ places columns.now query.now.grouping (None, None) (in_query query.now) }
{
    let names = Names::new(columns, query.grouping.as_slice());
    let items = in_items(&names, (None, None), query.items.as_slice());
    let filter = in_clause(&names, items, &query.filter, false);
    let grouping = in_grouping(&names, filter, query.grouping.as_slice());
    in_clause(&names, grouping, &query.having, true)
}

/// The refusal that the places represent, if any: a column that the table does not have comes first.
fn verdict(found: Places) -> Result<(), Refusal>
    ensures { result ≡ verdict found }
{
    match found {
        (Some(at), _) => Err(Refusal::NoSuchColumn(at)),
        (None, Some(at)) => Err(Refusal::NotGrouped(at)),
        (None, None) => Ok(()),
    }
}

/// Whether the query's names are those of the table, or the first refusal.
///
/// The refusals are, in this order: another table (`NoSuchTable`), the least place of a column that the table does not have
/// (`NoSuchColumn`), and the least place of a column in the select list or in HAVING, outside a set function, that GROUP BY does
/// not name (`NotGrouped`). Names are compared as they are, byte for byte: `parse` folds those of a text to upper case, as a
/// schema's are, so a query built by hand needs its names in upper case too. It takes no memory.
pub fn resolve(query: &Query, schema: &Schema) -> Result<(), Refusal>
    ensures resolved { result ≡ resolved schema.now query.now }
    ensures judged { IsJudged schema.now query.now result }
{
    judge(query, schema)
}

/// The first refusal of the query's names by the table, if any.
fn judge(query: &Query, schema: &Schema) -> Result<(), Refusal>
    ensures { result ≡ resolved schema.now query.now }
{
    if !same_text(query.table.as_str().as_bytes(), schema.table().as_bytes()) {
        return Err(Refusal::NoSuchTable);
    }
    verdict(in_query(query, schema.column_list()))
}

/// The places of all columns that a condition of WHERE names.
fn in_where(condition: &Condition, columns: &[Column]) -> Places
    requires { length columns.now ≤ column_limit }
    ensures { result ≡ places columns.now [] (None, None) (in_formula false condition.now) }
{
    let names = Names::new(columns, &[]);
    in_condition(&names, (None, None), condition, false)
}

/// Whether the names of a condition of WHERE are those of the table: `NoSuchColumn` has the least place of a column that the table
/// does not have. Names are compared as by [`resolve`]. It takes no memory.
pub fn resolve_condition(condition: &Condition, schema: &Schema) -> Result<(), Refusal>
    ensures resolved { result ≡ resolved_condition schema.now condition.now }
    ensures judged { IsConditionJudged schema.now condition.now result }
{
    verdict(in_where(condition, schema.column_list()))
}
