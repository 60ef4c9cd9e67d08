//! Reading a text of comma-separated values into a load.
ghost use Rattle.std.specs.Prelude.{◌≡◌, ◌<◌, IfErr, OnOk, OnErr};
ghost use Rattle.table_model.specs.Faults.{read_limit};
ghost use Rattle.csv_rows.specs.Reading.{Came};
ghost use Rattle.replica_changes.specs.CsvLoads.{LoadsRows, RefusesText, StopsLoading, CountsText, last_batch, with_batches, IsNotAdded};

use crate::load::Load;
use csv_rows::{CsvError, CsvReader};
use std::alloc::Global;
use std::io::Read;
use table_model::{Counted, MAX_ROWS, READ_LIMIT, Refusal, Rows};

/// How many batches are read at most: each but the last has rows, and each row takes a byte at least.
const ROUNDS: u64 = READ_LIMIT + 2;

/// Adds rows to a load as one more batch, unless there are none.
fn add_rows(alloc: Global, load: &mut Load, rows: &Rows) -> Result<(), CsvError>
    ensures added { OnOk result (load.new ≡ with_batches load.old (last_batch rows.now)) }
    ensures refused { IfErr result (IsNotAdded load.old rows.now) }
    ensures kept { OnErr result (load.new ≡ load.old) }
{
    if rows.is_empty() {
        return Ok(());
    }
    match load.add_batch(alloc, rows) {
        Ok(()) => Ok(()),
        Err(refusal) => Err(CsvError::Refused(refusal)),
    }
}

/// Reads the rows of a text to its end, and adds them to a load as batches of 65,536 rows, the last one shorter, in the order of the
/// lines.
///
/// Refused is the text's first fault; else, with `Refused`, `Full` if the load has 1,048,576 batches and more rows come; `Memory`;
/// `ReadFault` if a read fails or more than 2^48 bytes come; and if the load is of another table, what it refuses. The load then has
/// the full batches that were read before.
pub fn read_csv<R: Read>(
    alloc: Global,
    csv: &mut CsvReader,
    reader: &mut Counted<R>,
    load: &mut Load,
) -> Result<(), CsvError>
    ensures loaded { OnOk result (LoadsRows csv.old (R.remaining reader.old.0) load.old load.new) }
    ensures fault { IfErr result (λ e. RefusesText csv.old e (R.remaining reader.old.0)) }
    ensures stopped { IfErr result (StopsLoading csv.old (R.remaining reader.old.0) load.old load.new) }
    ensures came { Came csv.old.given csv.new.given (R.remaining reader.old.0) (R.remaining reader.new.0) }
    ensures kept { OnOk result (reader.new.1 ≡ reader.old.1) }
    ensures counts { IfErr result (λ e. CountsText (read_limit < csv.new.given) e reader.old.1 reader.new.1) }
{
    for _round in 0..ROUNDS {
        let rows = csv.next_batch(alloc, reader)?;
        add_rows(alloc, load, &rows)?;
        if rows.len() < MAX_ROWS {
            return Ok(());
        }
    }
    Err(CsvError::Refused(Refusal::ReadFault))
}
