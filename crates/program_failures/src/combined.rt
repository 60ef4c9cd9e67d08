//! What is known of partial answers that are combined one after another: a sentence on a refusal may name it.

use crate::failure::Failure;
use catalogue_join::Held;
use partial_answers::{PartialAnswer, PartialAnswerFault};
use refusal_sentences::{CommandRefusal, Printable};
use std::alloc::{AllocError, Global};
use table_model::{BatchName, Schema};

/// What a partial answer is of.
#[derive(Drop)]
struct Asked {
    schema: Schema,
    text: String,
}

impl Asked {
    /// The table and the query of a partial answer.
    fn of(alloc: Global, partial: &PartialAnswer) -> Result<Asked, AllocError> {
        Ok(Asked {
            schema: partial.schema().copy(alloc)?,
            text: String::from_str(alloc, partial.text())?,
        })
    }

    /// Whether a partial answer is of the same.
    fn is_of(&self, partial: &PartialAnswer) -> bool {
        self.schema.same(partial.schema()) && self.text.as_str() == partial.text()
    }
}

/// A partial answer's name, and which batches it counted and its file deletes rows of.
#[derive(Drop)]
struct Covered<'n> {
    name: &'n str,
    held: Held,
    strays: Held,
}

/// Partial answers that are combined in their order: what the first one is of, and the last one if that is another thing; and what each
/// covers.
#[derive(Drop)]
pub struct Combined<'n> {
    first: Option<Asked>,
    other: Option<Asked>,
    covered: Vec<Covered<'n>>,
}

impl<'n> Combined<'n> {
    /// There are none yet.
    pub fn new(alloc: Global) -> Combined<'n> {
        Combined {
            first: None,
            other: None,
            covered: Vec::new(alloc),
        }
    }

    /// Adds the next one, which has this name.
    pub fn add(
        &mut self,
        alloc: Global,
        name: &'n str,
        partial: &PartialAnswer,
    ) -> Result<(), AllocError> {
        match &self.first {
            None => self.first = Some(Asked::of(alloc, partial)?),
            Some(first) if first.is_of(partial) => {}
            Some(_) => self.other = Some(Asked::of(alloc, partial)?),
        }
        let covered = Covered {
            name,
            held: partial.held().copy(alloc)?,
            strays: partial.strays().copy(alloc)?,
        };
        self.covered.push(covered)?;
        Ok(())
    }

    /// Why the last one is not combined with those before it. None if nothing more is known of that than the fault.
    pub fn refused(
        &self,
        alloc: Global,
        fault: PartialAnswerFault,
    ) -> Result<Option<Failure>, AllocError> {
        let Some((last, before)) = self.covered.as_slice().split_last() else {
            return Ok(None);
        };
        let first = self.covered.as_slice()[0].name;
        match (fault, &self.first, &self.other) {
            (PartialAnswerFault::SchemaDiffers, Some(wanted), Some(found)) => {
                let (found, wanted) = (&found.schema, &wanted.schema);
                Ok(Some(Failure::of_tables(alloc, last.name, found, first, wanted)))
            }
            (PartialAnswerFault::QueryDiffers, Some(wanted), Some(found)) => {
                let (found, wanted) = (found.text.as_str(), wanted.text.as_str());
                Ok(Some(other_query(alloc, last.name, found, first, wanted)?))
            }
            (PartialAnswerFault::NotApart(name), _, _) => {
                for other in before {
                    if let Some(failure) = shared(alloc, last, other, name)? {
                        return Ok(Some(failure));
                    }
                }
                Ok(None)
            }
            _ => Ok(None),
        }
    }
}

/// The refusal of a partial answer because of another one: both have counted this batch, or the file of one deletes rows of it and the
/// other has it. None if neither is so.
fn shared(
    alloc: Global,
    found: &Covered<'_>,
    before: &Covered<'_>,
    name: BatchName,
) -> Result<Option<Failure>, AllocError> {
    let other = Printable(before.name);
    let (has, had) = (found.held.holds(name), before.held.holds(name));
    let words = if has && had {
        format!(in alloc;
            "batch {name} is in {other} too: give each file once, or merge the two files and make one partial answer from the result"
        )?
    } else if had && found.strays.holds(name) {
        format!(in alloc;
            "its file deletes rows of batch {name}, which {other} has: merge the two files, and make one partial answer from the result"
        )?
    } else if has && before.strays.holds(name) {
        format!(in alloc;
            "this has batch {name}, and the file of {other} deletes rows of it: merge the two files, and make one partial answer from the result"
        )?
    } else {
        return Ok(None);
    };
    let refusal = CommandRefusal::NotApart(name);
    Ok(Some(Failure::advised(alloc, refusal, found.name, words.as_str())))
}

/// The refusal of a partial answer whose query is not that of the first partial answer.
fn other_query(
    alloc: Global,
    subject: &str,
    found: &str,
    first: &str,
    wanted: &str,
) -> Result<Failure, AllocError> {
    let (found, first, wanted) = (Printable(found), Printable(first), Printable(wanted));
    let words = format!(in alloc;
        "this partial answer is of the query `{found}`, but {first} is of `{wanted}`"
    )?;
    let refusal = CommandRefusal::QueryDiffers;
    Ok(Failure::advised(alloc, refusal, subject, words.as_str()))
}
