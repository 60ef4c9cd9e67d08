//! Whole queries.
ghost use Rattle.std.specs.Prelude.{◌≡◌, ℕ, IfOk, Err, []};
ghost use Rattle.table_model.specs.Reading.{Reads};
ghost use Rattle.query_parser.specs.Descent.{read_query, read_table, read_clauses, read_filter, read_having, read_grouping, read_columns, read_whole, query_of};
ghost use Rattle.query_parser.specs.Grammar.{IsQuery};
ghost use Rattle.query_parser.specs.Limits.{depth_limit, TakesQueries, IsNoQuery};
ghost use Rattle.query_parser.specs.Stack.{Finds, text_fault};
ghost use Rattle.query_parser.specs.Token.{tokens_of};

use crate::condition::condition;
use crate::cursor::{Read, after, expect, identifier, syntax};
use crate::lexer::tokens_of;
use crate::predicate::Clause;
use crate::select::items;
use crate::token::{Sign, Token};
use std::alloc::Global;
use table_model::{ColumnMention, Condition, Item, Name, Query, Refusal};

/// The most parentheses around conditions that may be open at once.
pub(crate) const MAX_DEPTH: usize = 64;

/// The query that the text is, in a profile of the query specifications of ISO/IEC 9075:1992, clause 7.9.
///
/// The first fault is answered: `Syntax` is at the first token that no query has there, or at the text's length; `NumberTooLarge`
/// at the first digit of a literal of more than 30 digits after its leading zeros; `TooDeep` is the 65th parenthesis around
/// conditions that is open at once. `Memory` may take a fault's place.
pub fn parse(alloc: Global, text: &str) -> Result<Query, Refusal>
    ensures reads { Reads (λ q. q) result (query_of text.now) }
    ensures grammar { IfOk result (λ q. IsQuery q (tokens_of text.now) []) }
    ensures first { Finds result (text_fault text.now) }
    ensures takes { TakesQueries (tokens_of text.now) result }
    ensures syntax { (at : ℕ) → result ≡ Err (Refusal.Syntax at) → IsNoQuery (tokens_of text.now) }
{
    read_text(alloc, text)
}

/// The query that the text is, read by descent.
#[tactic(auto, unfolding(crate::specs::Descent::query_of))]
fn read_text(alloc: Global, text: &str) -> Result<Query, Refusal>
    ensures { Reads (λ q. q) result (query_of text.now) }
{
    let tokens = tokens_of(alloc, text.as_bytes())?;
    let end = text.len() as u64;
    whole_query(alloc, &tokens, end)
}

/// The query that the tokens are, all of them.
#[tactic(auto, unfolding(crate::specs::Descent::read_whole))]
pub(crate) fn whole_query(alloc: Global, tokens: &[Token<'_>], end: u64) -> Result<Query, Refusal>
    ensures { Reads (λ q. q) result (read_whole end tokens.now) }
{
    let (query, rest) = query(alloc, tokens, end)?;
    if rest.is_empty() {
        Ok(query)
    } else {
        Err(syntax(rest, end))
    }
}

// A query is read by three functions, since what is proved of one grows with the square of the steps that it may stop at.
/// `SELECT item {"," item}`, and the rest of the query that the tokens begin with.
#[tactic(auto, unfolding(crate::specs::Descent::read_query))]
fn query<'t, 'a>(alloc: Global, tokens: &'t [Token<'a>], end: u64) -> Read<'t, 'a, Query>
    ensures { Reads (λ r. (r.0, r.1.now)) result (read_query depth_limit end tokens.now) }
{
    let rest = expect(tokens, end, Sign::Select)?;
    let (items, rest) = items(alloc, rest, end)?;
    table(alloc, items, rest, end)
}

/// `FROM identifier` and the clauses, after the select list.
fn table<'t, 'a>(
    alloc: Global,
    items: Vec<Item>,
    tokens: &'t [Token<'a>],
    end: u64,
) -> Read<'t, 'a, Query>
    ensures { Reads (λ r. (r.0, r.1.now)) result (read_table items.items depth_limit end tokens.now) }
{
    let rest = expect(tokens, end, Sign::From)?;
    let (table, rest) = identifier(alloc, rest, end)?;
    clauses(alloc, items, table.name, rest, end)
}

/// `[WHERE cond] [GROUP BY identifier {"," identifier}] [HAVING cond]`, after the table's name.
fn clauses<'t, 'a>(
    alloc: Global,
    items: Vec<Item>,
    table: Name,
    tokens: &'t [Token<'a>],
    end: u64,
) -> Read<'t, 'a, Query>
    ensures { Reads (λ r. (r.0, r.1.now)) result (read_clauses items.items table depth_limit end tokens.now) }
{
    let (filter, rest) = filter(alloc, tokens, end)?;
    let (grouping, rest) = grouping(alloc, rest, end)?;
    let (having, rest) = having(alloc, rest, end)?;
    Ok((
        Query {
            items,
            table,
            filter,
            grouping,
            having,
        },
        rest,
    ))
}

/// `[WHERE cond]`
#[tactic(auto, unfolding(crate::specs::Descent::read_filter))]
fn filter<'t, 'a>(
    alloc: Global,
    tokens: &'t [Token<'a>],
    end: u64,
) -> Read<'t, 'a, Option<Condition>>
    ensures { Reads (λ r. (r.0, r.1.now)) result (read_filter depth_limit end tokens.now) }
{
    match after(tokens, Sign::Where) {
        Some(rest) => {
            let (condition, rest) = condition(alloc, Clause::Where, MAX_DEPTH, rest, end)?;
            Ok((Some(condition), rest))
        }
        None => Ok((None, tokens)),
    }
}

/// `[HAVING cond]`
#[tactic(auto, unfolding(crate::specs::Descent::read_having))]
fn having<'t, 'a>(
    alloc: Global,
    tokens: &'t [Token<'a>],
    end: u64,
) -> Read<'t, 'a, Option<Condition>>
    ensures { Reads (λ r. (r.0, r.1.now)) result (read_having depth_limit end tokens.now) }
{
    match after(tokens, Sign::Having) {
        Some(rest) => {
            let (condition, rest) = condition(alloc, Clause::Having, MAX_DEPTH, rest, end)?;
            Ok((Some(condition), rest))
        }
        None => Ok((None, tokens)),
    }
}

/// `[GROUP BY identifier {"," identifier}]`
#[tactic(auto, unfolding(crate::specs::Descent::read_grouping))]
fn grouping<'t, 'a>(
    alloc: Global,
    tokens: &'t [Token<'a>],
    end: u64,
) -> Read<'t, 'a, Vec<ColumnMention>>
    ensures { Reads (λ r. (r.0.items, r.1.now)) result (read_grouping end tokens.now) }
{
    match after(tokens, Sign::Group) {
        Some(rest) => {
            let rest = expect(rest, end, Sign::By)?;
            columns(alloc, rest, end)
        }
        None => Ok((Vec::new(alloc), tokens)),
    }
}

/// `identifier {"," identifier}`
#[tactic(auto, unfolding(crate::specs::Descent::read_columns, crate::specs::Descent::read_many))]
fn columns<'t, 'a>(
    alloc: Global,
    tokens: &'t [Token<'a>],
    end: u64,
) -> Read<'t, 'a, Vec<ColumnMention>>
    ensures { Reads (λ r. (r.0.items, r.1.now)) result (read_columns end tokens.now) }
{
    let mut columns = Vec::new(alloc);
    let (first, mut rest) = identifier(alloc, tokens, end)?;
    columns.push(first)?;
    while let Some(next) = after(rest, Sign::Comma) {
        let (column, left) = identifier(alloc, next, end)?;
        columns.push(column)?;
        rest = left;
    }
    Ok((columns, rest))
}
