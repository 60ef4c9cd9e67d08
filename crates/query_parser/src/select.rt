//! The select list: columns and set functions, with aliases or without.
ghost use Rattle.std.specs.Prelude.{◌≡◌, MatchOption, Some, None, ◌<◌, ◌≤◌, length, IfOk, IfSome};
ghost use Rattle.table_model.specs.Reading.{Reads};
ghost use Rattle.query_parser.specs.Descent.{read_items, read_item, read_item_value, read_alias, read_function, read_argument, read_quantified, read_column_argument, function_word};

use crate::cursor::{Read, after, begins_with_name, expect, identifier, syntax};
use crate::token::{Sign, Token};
use std::alloc::Global;
use table_model::{Fold, Item, ItemValue, Name, SetFunction};

/// `item {"," item}`
#[tactic(auto, unfolding(crate::specs::Descent::read_items, crate::specs::Descent::read_many))]
pub(crate) fn items<'t, 'a>(
    alloc: Global,
    tokens: &'t [Token<'a>],
    end: u64,
) -> Read<'t, 'a, Vec<Item>>
    ensures reads { Reads (λ r. (r.0.items, r.1.now)) result (read_items end tokens.now) }
    ensures shorter { IfOk result (λ r. length r.1.now < length tokens.now) }
{
    let mut items = Vec::new(alloc);
    let (first, mut rest) = item(alloc, tokens, end)?;
    items.push(first)?;
    while let Some(next) = after(rest, Sign::Comma) {
        let (item, left) = item(alloc, next, end)?;
        items.push(item)?;
        rest = left;
    }
    Ok((items, rest))
}

/// `(identifier | setf) [[AS] identifier]`
#[tactic(auto, unfolding(crate::specs::Descent::read_item))]
fn item<'t, 'a>(alloc: Global, tokens: &'t [Token<'a>], end: u64) -> Read<'t, 'a, Item>
    ensures reads { Reads (λ r. (r.0, r.1.now)) result (read_item end tokens.now) }
    ensures shorter { IfOk result (λ r. length r.1.now < length tokens.now) }
{
    let (value, rest) = item_value(alloc, tokens, end)?;
    let (alias, rest) = alias(alloc, rest, end)?;
    Ok((Item { value, alias }, rest))
}

/// `identifier | setf`
#[tactic(auto, unfolding(crate::specs::Descent::read_item_value))]
fn item_value<'t, 'a>(alloc: Global, tokens: &'t [Token<'a>], end: u64) -> Read<'t, 'a, ItemValue>
    ensures reads { Reads (λ r. (r.0, r.1.now)) result (read_item_value end tokens.now) }
    ensures shorter { IfOk result (λ r. length r.1.now < length tokens.now) }
{
    if begins_with_name(tokens) {
        let (column, rest) = identifier(alloc, tokens, end)?;
        return Ok((ItemValue::Grouped(column), rest));
    }
    match function_word(tokens) {
        Some((fold, rest)) => {
            let (function, rest) = set_function(alloc, fold, rest, end)?;
            Ok((ItemValue::Computed(function), rest))
        }
        None => Err(syntax(tokens, end)),
    }
}

/// `[[AS] identifier]`
#[tactic(auto, unfolding(crate::specs::Descent::read_alias))]
fn alias<'t, 'a>(alloc: Global, tokens: &'t [Token<'a>], end: u64) -> Read<'t, 'a, Option<Name>>
    ensures reads { Reads (λ r. (r.0, r.1.now)) result (read_alias end tokens.now) }
    ensures shorter { IfOk result (λ r. length r.1.now ≤ length tokens.now) }
{
    if let Some(rest) = after(tokens, Sign::As) {
        let (mention, rest) = identifier(alloc, rest, end)?;
        return Ok((Some(mention.name), rest));
    }
    if begins_with_name(tokens) {
        let (mention, rest) = identifier(alloc, tokens, end)?;
        return Ok((Some(mention.name), rest));
    }
    Ok((None, tokens))
}

/// The set function whose keyword the tokens begin with, and the tokens after it.
#[tactic(auto, unfolding(crate::specs::Descent::function_word))]
pub(crate) fn function_word<'t, 'a>(tokens: &'t [Token<'a>]) -> Option<(Fold, &'t [Token<'a>])>
    ensures reads { MatchOption result (function_word tokens.now ≡ None) (λ r. function_word tokens.now ≡ Some (r.0, r.1.now)) }
    ensures shorter { IfSome result (λ r. length r.1.now < length tokens.now) }
{
    if let Some(rest) = after(tokens, Sign::Count) {
        return Some((Fold::Count, rest));
    }
    if let Some(rest) = after(tokens, Sign::Sum) {
        return Some((Fold::Sum, rest));
    }
    if let Some(rest) = after(tokens, Sign::Avg) {
        return Some((Fold::Avg, rest));
    }
    if let Some(rest) = after(tokens, Sign::Min) {
        return Some((Fold::Min, rest));
    }
    let rest = after(tokens, Sign::Max)?;
    Some((Fold::Max, rest))
}

/// What comes after a set function's keyword: its argument in parentheses.
#[tactic(auto, unfolding(crate::specs::Descent::read_function))]
pub(crate) fn set_function<'t, 'a>(
    alloc: Global,
    fold: Fold,
    tokens: &'t [Token<'a>],
    end: u64,
) -> Read<'t, 'a, SetFunction>
    ensures reads { Reads (λ r. (r.0, r.1.now)) result (read_function fold end tokens.now) }
    ensures shorter { IfOk result (λ r. length r.1.now < length tokens.now) }
{
    let rest = expect(tokens, end, Sign::OpenParen)?;
    let (function, rest) = argument(alloc, fold, rest, end)?;
    let rest = expect(rest, end, Sign::CloseParen)?;
    Ok((function, rest))
}

/// `"*"`, which only COUNT takes, or `[ALL | DISTINCT] identifier`
#[tactic(auto, unfolding(crate::specs::Descent::read_argument))]
fn argument<'t, 'a>(
    alloc: Global,
    fold: Fold,
    tokens: &'t [Token<'a>],
    end: u64,
) -> Read<'t, 'a, SetFunction>
    ensures reads { Reads (λ r. (r.0, r.1.now)) result (read_argument fold end tokens.now) }
    ensures shorter { IfOk result (λ r. length r.1.now < length tokens.now) }
{
    match (fold, after(tokens, Sign::Asterisk)) {
        (Fold::Count, Some(rest)) => Ok((SetFunction::CountRows, rest)),
        _ => quantified(alloc, fold, tokens, end),
    }
}

/// `[ALL | DISTINCT] identifier`
#[tactic(auto, unfolding(crate::specs::Descent::read_quantified))]
fn quantified<'t, 'a>(
    alloc: Global,
    fold: Fold,
    tokens: &'t [Token<'a>],
    end: u64,
) -> Read<'t, 'a, SetFunction>
    ensures reads { Reads (λ r. (r.0, r.1.now)) result (read_quantified fold end tokens.now) }
    ensures shorter { IfOk result (λ r. length r.1.now < length tokens.now) }
{
    if let Some(rest) = after(tokens, Sign::Distinct) {
        return column_argument(alloc, fold, true, rest, end);
    }
    match after(tokens, Sign::All) {
        Some(rest) => column_argument(alloc, fold, false, rest, end),
        None => column_argument(alloc, fold, false, tokens, end),
    }
}

/// `identifier`, as a set function's argument
#[tactic(auto, unfolding(crate::specs::Descent::read_column_argument))]
fn column_argument<'t, 'a>(
    alloc: Global,
    fold: Fold,
    distinct: bool,
    tokens: &'t [Token<'a>],
    end: u64,
) -> Read<'t, 'a, SetFunction>
    ensures reads { Reads (λ r. (r.0, r.1.now)) result (read_column_argument fold distinct end tokens.now) }
    ensures shorter { IfOk result (λ r. length r.1.now < length tokens.now) }
{
    let (column, rest) = identifier(alloc, tokens, end)?;
    Ok((
        SetFunction::Of {
            fold,
            distinct,
            column,
        },
        rest,
    ))
}
