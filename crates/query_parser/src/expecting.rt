//! What the grammar takes at the byte at which a text is refused.
ghost use Rattle.std.specs.Prelude.{◌≡◌, ℕ, ◌++◌, ◌+◌, not, length, map, take, IfOk, IfErr, OnOk, ◌∷◌, []};
ghost use Rattle.query_parser.specs.Expected.{refusal_of, is_syntax_at, may_come, taken_signs, IsExpected, FindsExpected};
ghost use Rattle.query_parser.specs.Token.{tokens_of, keywords, symbols};
ghost use Rattle.query_parser.specs.declared.token.Kind.TheVariants.{Identifier, Digits};

use crate::lexer::{KEYWORDS, SYMBOLS, tokens_of};
use crate::query::whole_query;
use crate::token::{Kind, Sign, Token, Word};
use crate::where_text::whole_condition;
use std::alloc::Global;
use table_model::Refusal;

/// What a text is to be.
#[derive(Clone, Copy, Debug, PartialEq, Eq)]
pub enum Form {
    /// A query.
    Query,
    /// A condition alone, as it is written after WHERE.
    Condition,
}

/// What the grammar takes at the byte at which a text is refused as `Syntax`, in place of what is there.
#[derive(Debug, Drop)]
pub struct Expected {
    /// The byte.
    pub at: u64,
    /// The keywords and symbols that may come there, in a fixed order.
    pub signs: Vec<Sign>,
    /// Whether a name may come there.
    pub has_name: bool,
    /// Whether digits may come there.
    pub has_digits: bool,
    /// Whether the text may end there.
    pub has_end: bool,
}

/// A byte of a text, and a length that is past it.
#[derive(Clone, Copy)]
struct Place {
    form: Form,
    end: u64,
    at: u64,
}

/// What the grammar takes at the byte at which a text is refused as `Syntax`. None if the text is not refused, or not as that. Each kind
/// of token is put at the byte, and the parser asked whether it refuses it there: it reads the text before the byte some forty times.
/// Refused only as `Memory`.
pub fn find_expected(alloc: Global, form: Form, text: &str) -> Result<Option<Expected>, Refusal>
    ensures found { IfOk result (λ found. FindsExpected form text.now found) }
    ensures memory { IfErr result (λ e. e ≡ Refusal.Memory) }
{
    let tokens = tokens_of(alloc, text.as_bytes())?;
    match refusal_of(alloc, form, &tokens, text.len() as u64)? {
        Some(Refusal::Syntax(at)) => Ok(Some(expected_at(alloc, form, text.as_bytes(), at)?)),
        _ => Ok(None),
    }
}

/// What the grammar takes at a byte of a text.
fn expected_at(alloc: Global, form: Form, text: &[u8], at: u64) -> Result<Expected, Refusal>
    ensures at { IfOk result (λ e. e.at ≡ at) }
    ensures signs { IfOk result (λ e. e.signs.items ≡ taken_signs form (length text.now + 1) at (tokens_of (take at text.now)) (map (λ entry. entry.1) keywords) ++ taken_signs form (length text.now + 1) at (tokens_of (take at text.now)) (map (λ entry. entry.1) symbols)) }
    ensures name { IfOk result (λ e. e.has_name ≡ may_come form (length text.now + 1) at (tokens_of (take at text.now)) (Identifier (65 ∷ []))) }
    ensures digits { IfOk result (λ e. e.has_digits ≡ may_come form (length text.now + 1) at (tokens_of (take at text.now)) (Digits (55 ∷ []))) }
    ensures end { IfOk result (λ e. e.has_end ≡ not (is_syntax_at at (refusal_of form at (tokens_of (take at text.now))))) }
    ensures memory { IfErr result (λ e. e ≡ Refusal.Memory) }
{
    let end = text.len() as u64 + 1;
    let place = Place { form, end, at };
    let mut front = tokens_of(alloc, front_of(text, at))?;
    let has_end = !is_syntax_at(refusal_of(alloc, form, &front, at)?, at);
    let has_name = may_come(alloc, place, &mut front, Kind::Identifier(Word::new(b"A")))?;
    let has_digits = may_come(alloc, place, &mut front, Kind::Digits(Word::new(b"7")))?;
    let mut signs = Vec::new(alloc);
    add_signs(alloc, place, &mut front, &KEYWORDS, &mut signs)?;
    add_signs(alloc, place, &mut front, &SYMBOLS, &mut signs)?;
    Ok(Expected {
        at,
        signs,
        has_name,
        has_digits,
        has_end,
    })
}

/// Adds those of some signs that may come at a place, behind the tokens before it.
fn add_signs<'a>(
    alloc: Global,
    place: Place,
    front: &mut Vec<Token<'a>>,
    entries: &[(&[u8], Sign)],
    signs: &mut Vec<Sign>,
) -> Result<(), Refusal>
    ensures kept { OnOk result (front.new.items ≡ front.old.items) }
    ensures signs { OnOk result (signs.new.items ≡ signs.old.items ++ taken_signs place.form place.end place.at front.old.items (map (λ entry. entry.1) entries.now)) }
    ensures memory { IfErr result (λ e. e ≡ Refusal.Memory) }
{
    for &(_, sign) in entries {
        if may_come(alloc, place, front, Kind::Sign(sign))? {
            signs.push(sign)?;
        }
    }
    Ok(())
}

/// Whether a token of this kind may come at a place, behind the tokens before it.
fn may_come<'a>(
    alloc: Global,
    place: Place,
    front: &mut Vec<Token<'a>>,
    kind: Kind<'a>,
) -> Result<bool, Refusal>
    ensures kept { OnOk result (front.new.items ≡ front.old.items) }
    ensures comes { IfOk result (λ comes. comes ≡ may_come place.form place.end place.at front.old.items kind.entry) }
    ensures memory { IfErr result (λ e. e ≡ Refusal.Memory) }
{
    let count = front.len();
    let at = place.at;
    front.push(Token { kind, at })?;
    let refusal = refusal_of(alloc, place.form, front, place.end)?;
    front.truncate(count);
    Ok(!is_syntax_at(refusal, at))
}

/// What tokens are refused as, in a text of this length.
fn refusal_of(
    alloc: Global,
    form: Form,
    tokens: &[Token<'_>],
    end: u64,
) -> Result<Option<Refusal>, Refusal>
    ensures refusal { IfOk result (λ refusal. refusal ≡ refusal_of form end tokens.now) }
    ensures memory { IfErr result (λ e. e ≡ Refusal.Memory) }
{
    let refusal = match form {
        Form::Query => whole_query(alloc, tokens, end).err(),
        Form::Condition => whole_condition(alloc, tokens, end).err(),
    };
    match refusal {
        Some(Refusal::Memory) => Err(Refusal::Memory),
        other => Ok(other),
    }
}

/// Whether a refusal is `Syntax` at this byte.
fn is_syntax_at(refusal: Option<Refusal>, at: u64) -> bool
    ensures { result ≡ is_syntax_at at refusal }
{
    match refusal {
        Some(Refusal::Syntax(place)) => place == at,
        _ => false,
    }
}

/// The text before a byte.
fn front_of(text: &[u8], at: u64) -> &[u8]
    ensures { result.now ≡ take at text.now }
{
    let at = at as usize;
    if at < text.len() { &text[..at] } else { text }
}
