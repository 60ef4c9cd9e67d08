//! Notes on the lines that were refused.

use cluster_history::{Sql, Step};
use refusal_sentences::{
    CommandRefusal, Knowledge, Sentence, Text, Words, is_of_a_text, words_of_text,
};
use script_lines::{Command, expected, parse_line};
use std::alloc::{AllocError, Global};
use std::io::Write;
use table_model::{Refusal, Schema};

/// The notes on refused lines that weren't written yet: for each its number, counted from 1, its reply, and what that means, or
/// if it is not a command what was expected there.
#[derive(Drop)]
pub struct Notes {
    lines: u64,
    text: Vec<u8>,
}

impl Notes {
    /// No note, before the first line.
    pub fn new(alloc: Global) -> Notes {
        Notes {
            lines: 0,
            text: Vec::new(alloc),
        }
    }

    /// Counts a line; what is noted next is about it.
    pub fn next_line(&mut self) {
        self.lines = self.lines.saturating_add(1);
    }

    /// Notes that the line is refused; if there is a table, it has this schema.
    pub fn refused(
        &mut self,
        alloc: Global,
        line: &[u8],
        schema: Option<&Schema>,
        refusal: Refusal,
    ) -> Result<(), AllocError> {
        let number = self.lines;
        let note = match refusal {
            Refusal::BadLine => format!(in alloc;
                "line {number}: refused {refusal}: {}\n",
                expected(line, schema.is_some())
            )?,
            _ => format!(in alloc;
                "line {number}: refused {refusal}: {}\n",
                words_of(alloc, line, schema, refusal)?
            )?,
        };
        self.text.extend_from_slice(note.as_bytes())
    }

    /// Writes the notes, as far as the writer takes them, and forgets them.
    pub fn tell<N: Write>(&mut self, writer: &mut N) {
        let _ = writer.write_all(self.text.as_slice());
        self.text.clear();
    }
}

/// A query or a condition in a line.
#[derive(Drop)]
struct Asked {
    text: Sql,
    is_condition: bool,
}

impl Asked {
    /// What a line asks, if it asks something and there is memory for that.
    fn in_line(alloc: Global, line: &[u8]) -> Option<Asked> {
        match parse_line(alloc, line) {
            Ok(Command::Act(Step::Query { sql, .. })) => Some(Asked {
                text: sql,
                is_condition: false,
            }),
            Ok(Command::Act(Step::DeleteWhere { condition, .. })) => Some(Asked {
                text: condition,
                is_condition: true,
            }),
            _ => None,
        }
    }
}

/// What a line's refusal means, without its place, which is among its values.
fn words_of(
    alloc: Global,
    line: &[u8],
    schema: Option<&Schema>,
    refusal: Refusal,
) -> Result<String, AllocError> {
    let asked = if is_of_a_text(refusal) {
        Asked::in_line(alloc, line)
    } else {
        None
    };
    // What is known is made anew here, since it lives no longer than what the line asks.
    let known = match schema {
        Some(schema) => Some(schema),
        None => None,
    };
    if let Some(asked) = &asked {
        let text = Text {
            text: asked.text.as_str(),
            is_condition: asked.is_condition,
            schema: known,
        };
        return words_of_text(alloc, refusal, text);
    }
    let knowledge = match known {
        Some(schema) => Knowledge::Rows(schema),
        None => Knowledge::Nothing,
    };
    let sentence = Sentence {
        knowledge,
        ..Sentence::new(CommandRefusal::from(refusal))
    };
    Words(sentence).to_string(alloc)
}
