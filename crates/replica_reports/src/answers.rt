//! Answers of queries over a file that is open, in a format.
ghost use Rattle.std.specs.Prelude.{◌≡◌, ◌<◌, map, length, take, None, IsTrue, IfOk, IfErr, OnOk};
ghost use Rattle.table_model.specs.Faults.{CountsWrites};
ghost use Rattle.table_model.specs.Reading.{Reads};
ghost use Rattle.store_view.specs.Asked.{is_refusal_of_query};
ghost use Rattle.replica_reports.specs.Asking.{WritesText, Tells, answered_in, answers_report, is_refusal_of_answering, refusal_in};

use crate::open_file::OpenFile;
use answer_formats::{Format, format_answer};
use std::alloc::Global;
use std::error::Error;
use std::fmt;
use std::io::Write;
use store_view::ask;
use table_model::{Counted, Refusal};

/// Why queries are not all answered.
#[derive(Clone, Copy, Debug, PartialEq, Eq)]
pub struct NotAnswered {
    /// How many queries before it were answered.
    pub answered: usize,
    /// What the query is refused as.
    pub refusal: Refusal,
}

/// How many queries were answered, and the refusal of the next one.
impl fmt::Display for NotAnswered {
    fn fmt<W: fmt::Write>(&self, f: &mut fmt::Formatter<W>) -> fmt::Result {
        let NotAnswered { answered, refusal } = self;
        write!(f, "after {answered} queries: {refusal}")
    }
}

impl Error for NotAnswered {}

/// The text of a query's answer over a file, in a format.
///
/// Refused is what [`ask`] refuses.
pub fn answer_text(
    alloc: Global,
    file: &OpenFile,
    sql: &str,
    format: Format,
) -> Result<Vec<u8>, Refusal>
    ensures read { Reads (λ text. text.items) result (answered_in format file.now.replica sql.now) }
    ensures refused { IfErr result (λ e. IsTrue (is_refusal_of_query e)) }
{
    let answer = ask(alloc, file.store(), file.hash_key(), sql)?;
    Ok(format_answer(alloc, &answer, format)?)
}

/// Writes the answer of a query over a file, in a format.
///
/// Refused are, in this order, what [`ask`] refuses, and then a write that fails (`WriteFault`). Only with the last anything is
/// written: a front.
pub fn answer<W: Write>(
    alloc: Global,
    file: &OpenFile,
    sql: &str,
    format: Format,
    writer: &mut Counted<W>,
) -> Result<(), Refusal>
    ensures text { WritesText result (W.contents writer.old.0) (W.contents writer.new.0) writer.old.1 writer.new.1 (answered_in format file.now.replica sql.now) }
    ensures refused { IfErr result (λ e. IsTrue (is_refusal_of_answering e)) }
{
    let text = answer_text(alloc, file, sql, format)?;
    writer.write_whole(text.as_slice())
}

/// Writes the answers of queries over a file, one after another, up to the first that is refused.
///
/// Refused is, of the first query that is, what [`answer`] refuses, with the answers before it written.
pub fn answer_all<W: Write>(
    alloc: Global,
    file: &OpenFile,
    sqls: &[&str],
    format: Format,
    writer: &mut Counted<W>,
) -> Result<(), NotAnswered>
    ensures told { Tells (refusal_in result) (W.contents writer.old.0) (W.contents writer.new.0) (answers_report format file.now.replica (map (λ sql. sql.now) sqls.now)) }
    ensures first { IfErr result (λ e. (e.answered < length sqls.now) × ((answers_report format file.now.replica (map (λ sql. sql.now) (take e.answered sqls.now))).1 ≡ None)) }
    ensures refused { IfErr result (λ e. IsTrue (is_refusal_of_answering e.refusal)) }
    ensures kept { OnOk result (writer.new.1 ≡ writer.old.1) }
    ensures fault { IfErr result (λ e. CountsWrites e.refusal writer.old.1 writer.new.1) }
{
    for index in 0..sqls.len() {
        if let Err(refusal) = answer(alloc, file, sqls[index], format, writer) {
            return Err(NotAnswered {
                answered: index,
                refusal,
            });
        }
    }
    Ok(())
}
