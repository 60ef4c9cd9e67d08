//! The heading of an answer.
ghost use Rattle.std.specs.Prelude.{◌≡◌, IfOk, map, codes};
ghost use Rattle.std.specs.String.{string_bytes};
ghost use Rattle.table_model.specs.Meaning.{fold_text, function_text, item_text, value_text};

use std::alloc::{AllocError, Global};
use table_model::{Fold, Item, ItemValue, SetFunction};

/// A set function's keyword.
fn fold_text(fold: Fold) -> &'static str
    ensures { result.now ≡ fold_text fold }
{
    match fold {
        Fold::Count => "COUNT",
        Fold::Sum => "SUM",
        Fold::Avg => "AVG",
        Fold::Min => "MIN",
        Fold::Max => "MAX",
    }
}

/// A set function's canonical spelling: `COUNT(*)`, `SUM(A)`, `COUNT(DISTINCT A)`.
fn function_text(alloc: Global, function: &SetFunction) -> Result<String, AllocError>
    ensures { IfOk result (λ text. string_bytes text ≡ function_text function.now) }
{
    match function {
        SetFunction::CountRows => String::from_str(alloc, "COUNT(*)"),
        SetFunction::Of {
            fold,
            distinct,
            column,
        } => {
            let mut text = String::from_str(alloc, fold_text(*fold))?;
            text.push_str("(")?;
            text.push_str(if *distinct { "DISTINCT " } else { "" })?;
            text.push_str(column.name.as_str())?;
            text.push_str(")")?;
            Ok(text)
        }
    }
}

/// The heading of a column of the answer that has no alias.
fn value_text(alloc: Global, value: &ItemValue) -> Result<String, AllocError>
    ensures { IfOk result (λ text. string_bytes text ≡ value_text value.now) }
{
    match value {
        ItemValue::Grouped(column) => String::from_str(alloc, column.name.as_str()),
        ItemValue::Computed(function) => function_text(alloc, function),
    }
}

/// The heading of a column of the answer: its alias if it has one.
fn item_text(alloc: Global, item: &Item) -> Result<String, AllocError>
    ensures { IfOk result (λ text. string_bytes text ≡ item_text item.now) }
{
    match &item.alias {
        None => value_text(alloc, &item.value),
        Some(alias) => String::from_str(alloc, alias.as_str()),
    }
}

/// The texts of a heading, a select item each.
pub fn heading(alloc: Global, items: &[Item]) -> Result<Vec<String>, AllocError>
    ensures { IfOk result (λ texts. map string_bytes texts.items ≡ map item_text items.now) }
{
    let mut texts = Vec::new(alloc);
    for item in items {
        texts.push(item_text(alloc, item)?)?;
    }
    Ok(texts)
}
