//! Conditions by themselves, as they are written after WHERE.
ghost use Rattle.std.specs.Prelude.{◌≡◌, ℕ, IfOk, Err, []};
ghost use Rattle.table_model.specs.Reading.{Reads};
ghost use Rattle.query_parser.specs.Descent.{read_whole_condition, condition_of};
ghost use Rattle.query_parser.specs.Grammar.{IsCondition};
ghost use Rattle.query_parser.specs.Limits.{TakesConditions, IsNoCondition};
ghost use Rattle.query_parser.specs.Stack.{Finds, condition_fault};
ghost use Rattle.query_parser.specs.Token.{tokens_of};
ghost use Rattle.query_parser.specs.declared.predicate.Clause.TheVariants.{Where};

use crate::condition::condition;
use crate::cursor::syntax;
use crate::lexer::tokens_of;
use crate::predicate::Clause;
use crate::query::MAX_DEPTH;
use crate::token::Token;
use std::alloc::Global;
use table_model::{Condition, Refusal};

/// The condition that the text is, as it is written after WHERE.
///
/// The first fault is answered, as by [`parse`]; a set function is `Syntax`. `Memory` may take a fault's place.
pub fn parse_condition(alloc: Global, text: &str) -> Result<Condition, Refusal>
    ensures reads { Reads (λ f. f) result (condition_of text.now) }
    ensures grammar { IfOk result (λ f. IsCondition Where f (tokens_of text.now) []) }
    ensures first { Finds result (condition_fault text.now) }
    ensures takes { TakesConditions (tokens_of text.now) result }
    ensures syntax { (at : ℕ) → result ≡ Err (Refusal.Syntax at) → IsNoCondition (tokens_of text.now) }
{
    read_condition_text(alloc, text)
}

/// The condition that the text is, read by descent.
#[tactic(auto, unfolding(crate::specs::Descent::condition_of))]
fn read_condition_text(alloc: Global, text: &str) -> Result<Condition, Refusal>
    ensures { Reads (λ f. f) result (condition_of text.now) }
{
    let tokens = tokens_of(alloc, text.as_bytes())?;
    let end = text.len() as u64;
    whole_condition(alloc, &tokens, end)
}

/// The condition that the tokens are, all of them.
#[tactic(auto, unfolding(crate::specs::Descent::read_whole_condition))]
pub(crate) fn whole_condition(
    alloc: Global,
    tokens: &[Token<'_>],
    end: u64,
) -> Result<Condition, Refusal>
    ensures { Reads (λ f. f) result (read_whole_condition end tokens.now) }
{
    let (condition, rest) = condition(alloc, Clause::Where, MAX_DEPTH, tokens, end)?;
    if rest.is_empty() {
        Ok(condition)
    } else {
        Err(syntax(rest, end))
    }
}
