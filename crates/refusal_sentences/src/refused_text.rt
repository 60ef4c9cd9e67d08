//! Sentences on refused texts, with what the parser says that the grammar takes at their fault.

use crate::command_refusal::CommandRefusal;
use crate::sentence::{Knowledge, Sentence, Words};
use crate::text_fault::Text;
use query_parser::{Expected, Form, find_expected};
use std::alloc::{AllocError, Global};
use table_model::Refusal;

/// The sentence of a refused text, which is said of this input or of none.
pub fn sentence_of_text(
    alloc: Global,
    refusal: Refusal,
    subject: &str,
    text: Text<'_>,
) -> Result<String, AllocError> {
    let expected = expected_in(alloc, refusal, text);
    let sentence = sentence_with(refusal, subject, &text, &expected);
    format!(in alloc; "{sentence}")
}

/// The sentence of a refused text, without its place and without the input.
pub fn words_of_text(
    alloc: Global,
    refusal: Refusal,
    text: Text<'_>,
) -> Result<String, AllocError> {
    let expected = expected_in(alloc, refusal, text);
    let words = Words(sentence_with(refusal, "", &text, &expected));
    format!(in alloc; "{words}")
}

/// A sentence with all that is known of a text. That is made anew here, since it lives no longer than what is expected.
fn sentence_with<'a>(
    refusal: Refusal,
    subject: &'a str,
    refused: &'a Text<'_>,
    expected: &'a Option<Expected>,
) -> Sentence<'a> {
    let schema = match refused.schema {
        Some(schema) => Some(schema),
        None => None,
    };
    let text = Text {
        text: refused.text,
        is_condition: refused.is_condition,
        schema,
    };
    Sentence {
        refusal: CommandRefusal::from(refusal),
        subject,
        knowledge: Knowledge::Text {
            text,
            expected: expected.as_ref(),
        },
    }
}

/// What the grammar takes at the byte at which a text is refused. None if it is not refused as `Syntax`, or memory runs out.
fn expected_in(alloc: Global, refusal: Refusal, text: Text<'_>) -> Option<Expected> {
    let Refusal::Syntax(_) = refusal else {
        return None;
    };
    let form = if text.is_condition {
        Form::Condition
    } else {
        Form::Query
    };
    find_expected(alloc, form, text.text).unwrap_or(None)
}
