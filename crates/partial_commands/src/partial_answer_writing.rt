//! The partial answer of a store, written as bytes.
ghost use Rattle.std.specs.Prelude.{◌≡◌, IsTrue, OnOk, IfErr};
ghost use Rattle.table_model.specs.Faults.{CountsWrites};
ghost use Rattle.replica_reports.specs.Asking.{is_refusal_of_answering};
ghost use Rattle.partial_commands.specs.PartialAnswerWriting.{WritesPartialAnswer};
ghost use Rattle.partial_commands.specs.StorePartialAnswer.{query_partial_answer};

use crate::store_partial_answer::partial_answer_of_store;
use partial_file::write_partial_answer;
use query_eval::HashKey;
use replica_store::Store;
use std::alloc::Global;
use std::io::Write;
use table_model::{Counted, Refusal};

/// Writes what a store gives to the answer of a query: its partial answer.
///
/// The refusals are those of [`partial_answer_of_store`], and `WriteFault`. Only with the last anything is written: a front. It is
/// answered only if the writer's count of failures rose.
pub fn write_partial_answer_of_store<W: Write>(
    alloc: Global,
    store: &Store,
    hash_key: HashKey,
    sql: &str,
    writer: &mut Counted<W>,
) -> Result<(), Refusal>
    ensures told { WritesPartialAnswer result (W.contents writer.old.0) (W.contents writer.new.0) (query_partial_answer sql.now store.now.replica.schema store.now.replica.state) }
    ensures refused { IfErr result (λ e. IsTrue (is_refusal_of_answering e)) }
    ensures kept { OnOk result (writer.new.1 ≡ writer.old.1) }
    ensures fault { IfErr result (λ e. CountsWrites e writer.old.1 writer.new.1) }
{
    let partial = partial_answer_of_store(alloc, store, hash_key, sql)?;
    write_partial_answer(alloc, &partial, writer)
}
