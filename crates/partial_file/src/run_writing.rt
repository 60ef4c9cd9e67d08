//! Sets of batches' names put at the end of bytes, as runs of numbers.
ghost use Rattle.std.specs.Prelude.{◌≡◌, ◌++◌, [], IsTrue, OnOk};
ghost use Rattle.std.specs.List.{flat_map};
ghost use Rattle.catalogue_join.specs.Run.{run_shape};
ghost use Rattle.catalogue_join.specs.Span.{Rises};
ghost use Rattle.segment_core.specs.Format.{Format};
ghost use Rattle.partial_file.specs.PartialAnswerBytes.{run, runs, runs_of};

use crate::number_writing::push_number;
use catalogue_join::{Held, Run};
use std::alloc::AllocError;

/// Puts a run: its origin, and its first and its last number.
fn push_run(bytes: &mut Vec<u8>, one: Run) -> Result<(), AllocError>
    ensures { OnOk result (bytes.new.items ≡ bytes.old.items ++ (run []).spell one) }
{
    push_number(bytes, one.first.origin.0 as u64, 4)?;
    push_number(bytes, one.first.number.0 as u64, 4)?;
    push_number(bytes, one.last.0 as u64, 4)?;
    Ok(())
}

/// Puts runs.
fn push_run_list(bytes: &mut Vec<u8>, all: &[Run]) -> Result<(), AllocError>
    ensures { OnOk result (bytes.new.items ≡ bytes.old.items ++ flat_map (run []).spell all.now) }
{
    for one in all {
        push_run(bytes, *one)?;
    }
    Ok(())
}

/// Puts runs: how many there are, and these.
fn push_runs(bytes: &mut Vec<u8>, all: &[Run]) -> Result<(), AllocError>
    requires { Rises run_shape 0 all.now }
    ensures put { OnOk result (bytes.new.items ≡ bytes.old.items ++ runs.spell all.now) }
    ensures valid { OnOk result (IsTrue (runs.valid all.now)) }
{
    push_number(bytes, all.len() as u64, 8)?;
    push_run_list(bytes, all)?;
    Ok(())
}

/// Puts the maximal runs of a set of names in ascending order.
pub fn push_names(bytes: &mut Vec<u8>, names: &Held) -> Result<(), AllocError>
    ensures put { OnOk result (bytes.new.items ≡ bytes.old.items ++ runs.spell (runs_of names.now)) }
    ensures valid { OnOk result (IsTrue (runs.valid (runs_of names.now))) }
{
    push_runs(bytes, names.runs())
}
