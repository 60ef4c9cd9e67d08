//! Which rows and which columns are asked for.
ghost use Rattle.std.specs.Prelude.{◌≡◌, ◌<◌, length, IfOk};
ghost use Rattle.std.specs.List.{All};
ghost use Rattle.table_model.specs.Reading.{Reads};
ghost use Rattle.table_model.specs.declared.refusal.Refusal.TheVariants.{Memory};
ghost use Rattle.live_columns.specs.declared.choice.Unchosen.TheVariants.{Refused};
ghost use Rattle.live_columns.specs.Choices.{Chooses, choice_of, condition_in, resolved_in};

use crate::names::places_named;
use query_parser::{parse_condition, resolve_condition};
use std::alloc::{AllocError, Global};
use std::error::Error;
use std::fmt;
use table_model::{Condition, Refusal, Schema};

/// What is asked for: a condition, or all rows; and columns by their places, from the left and from 0.
#[derive(Drop)]
pub struct Choice {
    pub condition: Option<Condition>,
    pub places: Vec<usize>,
}

/// Why it isn't known what is asked for.
#[derive(Clone, Copy, Debug, PartialEq, Eq)]
pub enum Unchosen {
    /// What the condition is refused as, or `Memory`.
    Refused(Refusal),
    /// A name that no column has, by its first byte in the list of names.
    NoSuchName(u64),
}

impl From<Refusal> for Unchosen {
    ghost from_gives = { λ refusal fault. fault ≡ Refused refusal };

    fn from(refusal: Refusal) -> Unchosen {
        Unchosen::Refused(refusal)
    }
}

impl From<AllocError> for Unchosen {
    ghost from_gives = { λ _ fault. fault ≡ Refused Memory };

    fn from(_lacking: AllocError) -> Unchosen {
        Unchosen::Refused(Refusal::Memory)
    }
}

impl fmt::Display for Unchosen {
    fn fmt<W: fmt::Write>(&self, f: &mut fmt::Formatter<W>) -> fmt::Result {
        match self {
            Unchosen::Refused(refusal) => write!(f, "{refusal}"),
            Unchosen::NoSuchName(at) => write!(f, "no column has the name at byte {at}"),
        }
    }
}

impl Error for Unchosen {}

/// The condition that a text is; none if it is empty.
fn condition_in(alloc: Global, text: &str) -> Result<Option<Condition>, Refusal>
    ensures { Reads (λ condition. condition) result (condition_in text.now) }
{
    if text.is_empty() {
        return Ok(None);
    }
    Ok(Some(parse_condition(alloc, text)?))
}

/// Whether the names of a condition are a table's, if there is a condition.
fn resolve_in(condition: &Option<Condition>, schema: &Schema) -> Result<(), Refusal>
    ensures { result ≡ resolved_in schema.now condition.now }
{
    match condition {
        None => Ok(()),
        Some(condition) => resolve_condition(condition, schema),
    }
}

/// What is asked for: the columns of a list of names, with one separator between each two, all columns if the list is empty; and the
/// rows at which a condition is true, all rows if the text is empty.
///
/// Refused are, in this order, the condition's `Syntax`, `NumberTooLarge` and `TooDeep`, the one whose token comes first; a name that
/// no column has; `NoSuchColumn` of the condition. `Memory` may come in the place of any.
pub fn choose(
    alloc: Global,
    schema: &Schema,
    names: &[u8],
    separator: u8,
    condition: &str,
) -> Result<Choice, Unchosen>
    ensures read { Chooses result (choice_of schema.now separator names.now condition.now) }
    ensures within { IfOk result (λ choice. All (λ place. place < length schema.now.columns) choice.places.items) }
{
    let condition = condition_in(alloc, condition)?;
    let places = places_named(alloc, schema.column_list(), names, separator)?;
    resolve_in(&condition, schema)?;
    Ok(Choice { condition, places })
}
