//! The lines of a script as they come, and their replies.
ghost use Rattle.std.specs.Prelude.{◌≡◌, ◌≢◌, ◌<◌, ◌∷◌, ◌++◌, ◌==◌, [], List, ℕ, Some, position, IfOk, IfErr, IfSome, None, OnOk, length, option_map};
ghost use Rattle.table_model.specs.Table.{schema_of};
ghost use Rattle.script_lines.specs.Line.{command_of, MayGrow};
ghost use Rattle.cluster_history.specs.Run.{answered};
ghost use Rattle.cluster_history.specs.Cluster.{step_of};
ghost use Rattle.script_lines.specs.Word.{cut};
ghost use Rattle.lanes_main.specs.Script.{parts_in, founded, first_answer, later_answer, line_answer, line_text, after_line, text_from};
ghost use Rattle.replica_reports.specs.QueryLines.{grown};

use crate::notes::Notes;
use crate::reply_format::write_reply;
use cluster_history::{Cluster, Reply, Step};
use csv_rows::LINE_LIMIT;
use query_eval::HashKey;
use replica_reports::LinePart;
use script_lines::{Command, TableCommand, parse_line};
use std::alloc::Global;
use std::io::Write;
use table_model::{Refusal, Schema};

/// What a script has made so far: the cluster, once there is a table; the part of a line that was read last; and the notes on
/// refused lines that weren't written yet. Its key is that of the hashes by which queries find groups.
#[derive(Drop)]
pub struct Session {
    hash_key: HashKey,
    cluster: Option<Cluster>,
    line: LinePart,
    notes: Notes,
}

impl Session {
    /// The session of a script of which nothing was read.
    pub fn new(alloc: Global, hash_key: HashKey) -> Session
        ensures cluster { result.cluster ≡ None }
        ensures line { result.line ≡ [] }
    {
        Session {
            hash_key,
            cluster: None,
            line: LinePart::new(alloc),
            notes: Notes::new(alloc),
        }
    }

    /// Answers each line that the chunk ends, and keeps what follows the last of them.
    pub fn feed(&mut self, alloc: Global, out: &mut Vec<u8>, chunk: &[u8]) -> Result<(), Refusal>
        ensures ok { OnOk result ((more : List ℕ) → out.old.items ++ text_from (parts_in self.old.cluster) self.old.line (chunk.now ++ more)
            ≡ out.new.items ++ text_from (parts_in self.new.cluster) self.new.line more) }
        ensures memory { IfErr result (λ e. e ≡ Refusal.Memory) }
    {
        let mut left = chunk;
        while let Some((piece, after)) = cut_line(left) {
            self.end_line(alloc, out, piece)?;
            left = after;
        }
        self.line.grow(left)?;
        Ok(())
    }

    /// Answers the line that the part that was read last and the piece make together.
    fn end_line(&mut self, alloc: Global, out: &mut Vec<u8>, piece: &[u8]) -> Result<(), Refusal>
        ensures text { OnOk result (out.new.items ≡ out.old.items ++ line_text (parts_in self.old.cluster) (grown self.old.line piece.now)) }
        ensures after { OnOk result (parts_in self.new.cluster ≡ after_line (parts_in self.old.cluster) (grown self.old.line piece.now)) }
        ensures line { OnOk result (self.new.line ≡ []) }
        ensures memory { IfErr result (λ e. e ≡ Refusal.Memory) }
    {
        self.line.grow(piece)?;
        let line = self.line.as_slice();
        answer_line(
            alloc,
            self.hash_key,
            &mut self.cluster,
            &mut self.notes,
            out,
            line,
        )?;
        self.line.clear();
        Ok(())
    }

    /// Answers the last line, which no line feed ends.
    pub fn finish(&mut self, alloc: Global, out: &mut Vec<u8>) -> Result<(), Refusal>
        ensures ok { OnOk result (out.new.items ≡ out.old.items ++ text_from (parts_in self.old.cluster) self.old.line []) }
        ensures memory { IfErr result (λ e. e ≡ Refusal.Memory) }
    {
        let line = self.line.as_slice();
        answer_line(
            alloc,
            self.hash_key,
            &mut self.cluster,
            &mut self.notes,
            out,
            line,
        )?;
        Ok(())
    }

    /// Writes the notes on refused lines to a writer, as far as it takes them.
    pub fn tell<N: Write>(&mut self, writer: &mut N)
        ensures cluster { self.new.cluster ≡ self.old.cluster }
        ensures line { self.new.line ≡ self.old.line }
    {
        self.notes.tell(writer);
    }
}

/// A refusal as a reply, unless it is `Memory`, which ends a script.
fn unless_memory(refusal: Refusal) -> Result<Reply, Refusal>
    ensures ok { IfOk result (λ reply. (reply ≡ Reply.Refused refusal) × (refusal ≢ Refusal.Memory)) }
    ensures memory { IfErr result (λ e. e ≡ Refusal.Memory) }
    ensures lacked { IfErr result (λ _. refusal ≡ Refusal.Memory) }
{
    match refusal {
        Refusal::Memory => Err(Refusal::Memory),
        other => Ok(Reply::Refused(other)),
    }
}

/// The command that a line is, if it is one.
fn command<'a>(alloc: Global, line: &'a [u8]) -> Result<Option<Command<'a>>, Refusal>
    ensures ok { IfOk result (λ command. command_of line.now ≡ command) }
    ensures memory { IfErr result (λ e. e ≡ Refusal.Memory) }
    ensures grows { IfErr result (λ _. MayGrow line.now) }
{
    match parse_line(alloc, line) {
        Ok(command) => Ok(Some(command)),
        Err(Refusal::Memory) => Err(Refusal::Memory),
        Err(_) => Ok(None),
    }
}

/// The reply to a line that makes a table, and the cluster that it made.
fn found(
    alloc: Global,
    hash_key: HashKey,
    table: &TableCommand<'_>,
) -> Result<(Reply, Option<Cluster>), Refusal>
    ensures ok { IfOk result (λ made. founded table.now (schema_of table.now.table table.now.columns) ≡ (made.0, parts_in made.1)) }
    ensures memory { IfErr result (λ e. e ≡ Refusal.Memory) }
{
    match Schema::new(alloc, table.table(), table.columns()) {
        Ok(schema) => {
            let cluster = Cluster::new(alloc, &schema, table.replicas())?;
            Ok((Reply::Done, Some(cluster.with_hash_key(hash_key))))
        }
        Err(refusal) => {
            let reply = unless_memory(refusal)?;
            Ok((reply, None))
        }
    }
}

/// The reply to a line while there is no table, and the cluster that it made.
fn first_reply(
    alloc: Global,
    hash_key: HashKey,
    line: &[u8],
) -> Result<(Reply, Option<Cluster>), Refusal>
    ensures ok { IfOk result (λ made. first_answer (command_of line.now) ≡ (made.0, parts_in made.1)) }
    ensures memory { IfErr result (λ e. e ≡ Refusal.Memory) }
{
    match command(alloc, line)? {
        Some(Command::Table(table)) => found(alloc, hash_key, &table),
        Some(Command::Act(_)) => Ok((Reply::Refused(Refusal::BadLine), None)),
        None => Ok((Reply::Refused(Refusal::BadLine), None)),
    }
}

/// The reply to a step, unless memory ran out.
fn act(alloc: Global, cluster: &mut Cluster, step: &Step) -> Result<Reply, Refusal>
    ensures ok { IfOk result (λ reply. answered (step_of cluster.old.parts step.now) cluster.old.parts ≡ (reply, cluster.new.parts)) }
    ensures memory { IfErr result (λ e. e ≡ Refusal.Memory) }
{
    match cluster.act(alloc, step) {
        Ok(reply) => Ok(reply),
        Err(refusal) => unless_memory(refusal),
    }
}

/// The reply to a line once there is a table.
fn later_reply(alloc: Global, cluster: &mut Cluster, line: &[u8]) -> Result<Reply, Refusal>
    ensures ok { IfOk result (λ reply. later_answer cluster.old.parts (command_of line.now) ≡ (reply, Some cluster.new.parts)) }
    ensures memory { IfErr result (λ e. e ≡ Refusal.Memory) }
{
    match command(alloc, line)? {
        Some(Command::Act(step)) => act(alloc, cluster, &step),
        Some(Command::Table(_)) => Ok(Reply::Refused(Refusal::BadLine)),
        None => Ok(Reply::Refused(Refusal::BadLine)),
    }
}

/// The reply to a line that isn't empty.
#[tactic(auto, unfolding(crate::specs::Script::line_answer))]
fn line_reply(
    alloc: Global,
    hash_key: HashKey,
    cluster: &mut Option<Cluster>,
    line: &[u8],
) -> Result<Reply, Refusal>
    ensures ok { IfOk result (λ reply. line_answer (parts_in cluster.old) line.now ≡ (reply, parts_in cluster.new)) }
    ensures memory { IfErr result (λ e. e ≡ Refusal.Memory) }
{
    if line.len() > LINE_LIMIT {
        return Ok(Reply::Refused(Refusal::LineTooLong));
    }
    match cluster {
        Some(open) => later_reply(alloc, open, line),
        None => {
            let (reply, made) = first_reply(alloc, hash_key, line)?;
            *cluster = made;
            Ok(reply)
        }
    }
}

/// Answers a line: writes the text of its reply after what is there, and notes it if it is refused. An empty line has no
/// reply.
fn answer_line(
    alloc: Global,
    hash_key: HashKey,
    cluster: &mut Option<Cluster>,
    notes: &mut Notes,
    out: &mut Vec<u8>,
    line: &[u8],
) -> Result<(), Refusal>
    ensures text { OnOk result (out.new.items ≡ out.old.items ++ line_text (parts_in cluster.old) line.now) }
    ensures after { OnOk result (parts_in cluster.new ≡ after_line (parts_in cluster.old) line.now) }
    ensures memory { IfErr result (λ e. e ≡ Refusal.Memory) }
{
    notes.next_line();
    if line.is_empty() {
        return Ok(());
    }
    let reply = line_reply(alloc, hash_key, cluster, line)?;
    write_reply(alloc, out, &reply)?;
    if let Reply::Refused(refusal) = &reply {
        notes.refused(alloc, line, table_of(cluster.as_ref()), *refusal)?;
    }
    Ok(())
}

/// The schema of the table, if there is one.
fn table_of(cluster: Option<&Cluster>) -> Option<&Schema> {
    match cluster {
        Some(open) => Some(open.schema()),
        None => None,
    }
}

/// The place of the first line feed.
fn line_end(bytes: &[u8]) -> Option<usize>
    ensures { result ≡ position (λ byte. byte == 10) bytes.now }
{
    bytes.iter().position(|byte| *byte == b'\n')
}

/// What is before the first line feed and what is after it, if there is one.
fn cut_line(bytes: &[u8]) -> Option<(&[u8], &[u8])>
    ensures parts { option_map (λ parts. (parts.0.now, parts.1.now)) result ≡ cut 10 bytes.now }
    ensures shorter { IfSome result (λ parts. length parts.1.now < length bytes.now) }
{
    match line_end(bytes) {
        None => None,
        Some(end) => Some((&bytes[..end], &bytes[end + 1..])),
    }
}
