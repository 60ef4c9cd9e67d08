//! Lines of a script, and which commands they are.
ghost use Rattle.std.specs.Prelude.{◌≡◌, ◌≤◌, option_map, IfSome, IfErr, IsTrue};
ghost use Rattle.std.specs.List.{list_all};
ghost use Rattle.script_lines.specs.Reading.{ReadsPart};
ghost use Rattle.script_lines.specs.Line.{addressed, append_words, insert_words, delete_words, delete_where_words, merge_words, ask_words, serve_words, take_words, recode_words, open_words, export_words, query_words, replicas_of, table_words, table_line, words_of, is_printable, command_of, keeps, MayGrow};
ghost use Rattle.script_lines.specs.declared.command.Command.TheVariants.{Act};
ghost use Rattle.cluster_history.specs.Cluster.{replica_limit};

use crate::columns::columns;
use crate::command::{Command, TableCommand};
use crate::rows::rows;
use crate::verb::{Verb, leading};
use crate::words::{batch_name, coding, cut, file, number, ordinal, small_number, some_text};
use cluster_history::{REPLICA_LIMIT, Sql, Step};
use std::alloc::Global;
use table_model::{NUMBER_DIGITS, Refusal, RowName};

/// The command that a line is, without its line feed; `BadLine` if it is not a command.
///
/// If memory runs out, `Memory` may come in place of either, but only for a line of printable bytes that begins with `table `,
/// `append `, `insert `, `delete where `, `open ` or `query `. Reading any other line takes no memory.
#[tactic(auto, unfolding(crate::specs::Line::command_of))]
pub fn parse_line<'a>(alloc: Global, line: &'a [u8]) -> Result<Command<'a>, Refusal>
    ensures command { ReadsPart (λ command. command) result (command_of line.now) }
    ensures memory { IfErr result (λ e. e ≡ Refusal.Memory → MayGrow line.now) }
{
    if !is_printable(line) {
        return Err(Refusal::BadLine);
    }
    let Ok(text) = str::from_utf8(line) else {
        return Err(Refusal::BadLine);
    };
    let Some((verb, rest)) = leading(text) else {
        return Err(Refusal::BadLine);
    };
    words(alloc, verb, rest)
}

/// Whether each byte is from 20 to 7E, in hexadecimal.
pub(crate) fn is_printable(line: &[u8]) -> bool
    ensures { result ≡ list_all is_printable line.now }
{
    line.iter().all(|c| b' ' <= *c && *c <= b'~')
}

/// What a verb asks for, with the words that follow it.
#[tactic(auto, unfolding(crate::specs::Line::words_of))]
fn words<'a>(alloc: Global, verb: Verb, text: &'a str) -> Result<Command<'a>, Refusal>
    ensures command { ReadsPart (λ command. command) result (words_of verb text.now) }
    ensures memory { IfErr result (λ e. e ≡ Refusal.Memory → IsTrue (keeps verb)) }
{
    match verb {
        Verb::Table => Ok(Command::Table(table_line(alloc, text)?)),
        Verb::Append => Ok(Command::Act(append_words(alloc, text)?)),
        Verb::Insert => Ok(Command::Act(insert_words(alloc, text)?)),
        Verb::Delete => act(delete_words(text)),
        Verb::DeleteWhere => Ok(Command::Act(delete_where_words(alloc, text)?)),
        Verb::Merge => act(merge_words(text)),
        Verb::Ask => act(ask_words(text)),
        Verb::Serve => act(serve_words(text)),
        Verb::Take => act(take_words(text)),
        Verb::Recode => act(recode_words(text)),
        Verb::Open => Ok(Command::Act(open_words(alloc, text)?)),
        Verb::Export => act(export_words(text)),
        Verb::Query => Ok(Command::Act(query_words(alloc, text)?)),
    }
}

/// The step as a command; it is missing only if the words are wrong.
fn act<'a>(step: Option<Step>) -> Result<Command<'a>, Refusal>
    ensures command { ReadsPart (λ command. command) result (option_map Act step) }
    ensures refused { IfErr result (λ e. e ≡ Refusal.BadLine) }
{
    match step {
        None => Err(Refusal::BadLine),
        Some(step) => Ok(Command::Act(step)),
    }
}

/// The line that makes a table: how many replicas, its name, and its columns.
#[tactic(auto, unfolding(crate::specs::Line::table_line))]
fn table_line<'a>(alloc: Global, text: &'a str) -> Result<TableCommand<'a>, Refusal>
    ensures { ReadsPart (λ table. table) result (table_line text.now) }
{
    let Some((replicas, table, rest)) = table_words(text) else {
        return Err(Refusal::BadLine);
    };
    let columns = columns(alloc, rest)?;
    Ok(TableCommand::new(replicas, table, columns))
}

/// How many replicas, the table's name, and the words that follow them.
#[tactic(auto, unfolding(crate::specs::Line::table_words))]
fn table_words<'a>(text: &'a str) -> Option<(usize, &'a str, &'a str)>
    ensures words { option_map (λ words. (words.0, words.1.now, words.2.now)) result ≡ table_words text.now }
    ensures count { IfSome result (λ words. (1 ≤ words.0) × (words.0 ≤ replica_limit)) }
{
    let (replicas_word, rest) = cut(text, ' ')?;
    let count = replicas(replicas_word)?;
    let (table, rest) = cut(rest, ' ')?;
    let table = some_text(table)?;
    Some((count, table, rest))
}

/// How many replicas a table has: 1 to 10 digits, from 1 to 64.
#[tactic(auto, unfolding(crate::specs::Line::replicas_of))]
pub(crate) fn replicas(text: &str) -> Option<usize>
    ensures value { result ≡ replicas_of text.now }
    ensures bound { IfSome result (λ n. (1 ≤ n) × (n ≤ replica_limit)) }
{
    let count = number(text, NUMBER_DIGITS, REPLICA_LIMIT as u128)?;
    if 1 <= count {
        Some(count as usize)
    } else {
        None
    }
}

/// The number of the replica that a step is for, and the words that follow it.
#[tactic(auto, unfolding(crate::specs::Line::addressed))]
fn addressed(text: &str) -> Option<(u32, &str)>
    ensures { option_map (λ at. (at.0, at.1.now)) result ≡ addressed text.now }
{
    let (replica, rest) = cut(text, ' ')?;
    let replica = small_number(replica)?;
    Some((replica, rest))
}

/// `append R ROWS`
#[tactic(auto, unfolding(crate::specs::Line::append_words))]
fn append_words(alloc: Global, text: &str) -> Result<Step, Refusal>
    ensures { ReadsPart (λ step. step) result (append_words text.now) }
{
    let Some((replica, rest)) = addressed(text) else {
        return Err(Refusal::BadLine);
    };
    let rows = rows(alloc, rest)?;
    Ok(Step::Append { replica, rows })
}

/// `insert R O.N ROWS`
#[tactic(auto, unfolding(crate::specs::Line::insert_words))]
fn insert_words(alloc: Global, text: &str) -> Result<Step, Refusal>
    ensures { ReadsPart (λ step. step) result (insert_words text.now) }
{
    let Some((replica, rest)) = addressed(text) else {
        return Err(Refusal::BadLine);
    };
    let Some((name, rest)) = cut(rest, ' ') else {
        return Err(Refusal::BadLine);
    };
    let Some(name) = batch_name(name) else {
        return Err(Refusal::BadLine);
    };
    let rows = rows(alloc, rest)?;
    Ok(Step::Insert {
        replica,
        name,
        rows,
    })
}

/// `delete R O.N FIRST LAST`
#[tactic(auto, unfolding(crate::specs::Line::delete_words))]
fn delete_words(text: &str) -> Option<Step>
    ensures { result ≡ delete_words text.now }
{
    let (replica, rest) = addressed(text)?;
    let (batch, ordinals) = cut(rest, ' ')?;
    let batch = batch_name(batch)?;
    let (first, last) = cut(ordinals, ' ')?;
    let first = ordinal(first)?;
    let last = ordinal(last)?;
    Some(Step::Delete {
        replica,
        first: RowName {
            batch,
            ordinal: first,
        },
        last,
    })
}

/// `delete where R COND`
#[tactic(auto, unfolding(crate::specs::Line::delete_where_words))]
fn delete_where_words(alloc: Global, text: &str) -> Result<Step, Refusal>
    ensures { ReadsPart (λ step. step) result (delete_where_words text.now) }
{
    let Some((replica, rest)) = addressed(text) else {
        return Err(Refusal::BadLine);
    };
    let Some(condition) = some_text(rest) else {
        return Err(Refusal::BadLine);
    };
    let condition = String::from_str(alloc, condition)?;
    Ok(Step::DeleteWhere {
        replica,
        condition: Sql::from_string(condition),
    })
}

/// `merge R Q`
#[tactic(auto, unfolding(crate::specs::Line::merge_words))]
fn merge_words(text: &str) -> Option<Step>
    ensures { result ≡ merge_words text.now }
{
    let (replica, rest) = addressed(text)?;
    let other = small_number(rest)?;
    Some(Step::Merge { replica, other })
}

/// `ask R`
#[tactic(auto, unfolding(crate::specs::Line::ask_words))]
fn ask_words(text: &str) -> Option<Step>
    ensures { result ≡ ask_words text.now }
{
    let replica = small_number(text)?;
    Some(Step::Ask { replica })
}

/// `serve R M`
#[tactic(auto, unfolding(crate::specs::Line::serve_words))]
fn serve_words(text: &str) -> Option<Step>
    ensures { result ≡ serve_words text.now }
{
    let (replica, rest) = addressed(text)?;
    let message = small_number(rest)?;
    Some(Step::Serve { replica, message })
}

/// `take R M`
#[tactic(auto, unfolding(crate::specs::Line::take_words))]
fn take_words(text: &str) -> Option<Step>
    ensures { result ≡ take_words text.now }
{
    let (replica, rest) = addressed(text)?;
    let message = small_number(rest)?;
    Some(Step::Take { replica, message })
}

/// `recode R O.N COLUMN VECTOR CODING`
#[tactic(auto, unfolding(crate::specs::Line::recode_words))]
fn recode_words(text: &str) -> Option<Step>
    ensures { result ≡ recode_words text.now }
{
    let (replica, rest) = addressed(text)?;
    let (name, rest) = cut(rest, ' ')?;
    let name = batch_name(name)?;
    let (column, rest) = cut(rest, ' ')?;
    let column = small_number(column)?;
    let (vector, rest) = cut(rest, ' ')?;
    let vector = small_number(vector)?;
    let coding = coding(rest)?;
    Some(Step::Recode {
        replica,
        name,
        column,
        vector,
        coding,
    })
}

/// `open R HEX`
#[tactic(auto, unfolding(crate::specs::Line::open_words))]
fn open_words(alloc: Global, text: &str) -> Result<Step, Refusal>
    ensures { ReadsPart (λ step. step) result (open_words text.now) }
{
    let Some((replica, rest)) = addressed(text) else {
        return Err(Refusal::BadLine);
    };
    let file = file(alloc, rest)?;
    Ok(Step::Open { replica, file })
}

/// `export R`
#[tactic(auto, unfolding(crate::specs::Line::export_words))]
fn export_words(text: &str) -> Option<Step>
    ensures { result ≡ export_words text.now }
{
    let replica = small_number(text)?;
    Some(Step::Export { replica })
}

/// `query R SQL`
#[tactic(auto, unfolding(crate::specs::Line::query_words))]
fn query_words(alloc: Global, text: &str) -> Result<Step, Refusal>
    ensures { ReadsPart (λ step. step) result (query_words text.now) }
{
    let Some((replica, rest)) = addressed(text) else {
        return Err(Refusal::BadLine);
    };
    let Some(sql) = some_text(rest) else {
        return Err(Refusal::BadLine);
    };
    let sql = String::from_str(alloc, sql)?;
    Ok(Step::Query {
        replica,
        sql: Sql::from_string(sql),
    })
}
