//! What a partial answer keeps of a group, put at the end of bytes.
ghost use Rattle.std.specs.Prelude.{◌≡◌, ◌++◌, IsTrue, OnOk};
ghost use Rattle.std.specs.List.{flat_map, list_all};
ghost use Rattle.std.specs.List.Sorted.{IsStrictlySortedBy};
ghost use Rattle.std.specs.Ordering.{int_cmp};
ghost use Rattle.segment_core.specs.Format.{Format, signed};
ghost use Rattle.partial_answers.specs.Refusing.{kept_kind};
ghost use Rattle.partial_file.specs.PartialAnswerBytes.{cell, counted, kept, kept_as, key, sum_parts, values};

use crate::number_writing::{push_cell, push_extreme, push_narrow, push_number, push_wide};
use partial_answers::{Kept, Sums};
use query_eval::Cell;
use std::alloc::AllocError;

/// Puts values.
fn push_value_list(bytes: &mut Vec<u8>, all: &[i64]) -> Result<(), AllocError>
    ensures put { OnOk result (bytes.new.items ≡ bytes.old.items ++ flat_map (signed 64).spell all.now) }
    ensures valid { OnOk result (IsTrue (list_all (signed 64).valid all.now)) }
{
    for one in all {
        push_narrow(bytes, *one)?;
    }
    Ok(())
}

/// Puts distinct values in ascending order: how many there are, and these.
fn push_values(bytes: &mut Vec<u8>, all: &[i64]) -> Result<(), AllocError>
    requires { IsStrictlySortedBy int_cmp all.now }
    ensures put { OnOk result (bytes.new.items ≡ bytes.old.items ++ values.spell all.now) }
    ensures valid { OnOk result (IsTrue (values.valid all.now)) }
{
    push_number(bytes, all.len() as u64, 8)?;
    push_value_list(bytes, all)?;
    Ok(())
}

/// Puts a count and a sum.
fn push_sums(bytes: &mut Vec<u8>, sums: Sums) -> Result<(), AllocError>
    ensures put { OnOk result (bytes.new.items ≡ bytes.old.items ++ sum_parts.spell (sums.count, sums.sum)) }
    ensures valid { OnOk result (IsTrue (sum_parts.valid (sums.count, sums.sum))) }
{
    push_number(bytes, sums.count, 8)?;
    push_wide(bytes, sums.sum)?;
    Ok(())
}

/// The kind of what is kept, as a number from 0 on.
fn kind(kept: &Kept) -> u64
    ensures { result ≡ kept_kind kept.now }
{
    match kept {
        Kept::Count(_) => 0,
        Kept::Sum(_) => 1,
        Kept::Least(_) => 2,
        Kept::Greatest(_) => 3,
        Kept::Distinct(_) => 4,
    }
}

/// Puts what is kept, without its kind.
fn push_content(bytes: &mut Vec<u8>, measure: &Kept) -> Result<(), AllocError>
    ensures put { OnOk result (bytes.new.items ≡ bytes.old.items ++ (kept_as (kept_kind measure.now)).spell measure.now) }
    ensures valid { OnOk result (IsTrue ((kept_as (kept_kind measure.now)).valid measure.now)) }
{
    match measure {
        Kept::Count(count) => push_number(bytes, *count, 8),
        Kept::Sum(sums) => push_sums(bytes, *sums),
        Kept::Least(least) => push_extreme(bytes, *least),
        Kept::Greatest(greatest) => push_extreme(bytes, *greatest),
        Kept::Distinct(distinct) => push_values(bytes, distinct.as_slice()),
    }
}

/// Puts what is kept for a measure: its kind, and what is kept.
fn push_kept(bytes: &mut Vec<u8>, measure: &Kept) -> Result<(), AllocError>
    ensures put { OnOk result (bytes.new.items ≡ bytes.old.items ++ kept.spell measure.now) }
    ensures valid { OnOk result (IsTrue (kept.valid measure.now)) }
{
    push_number(bytes, kind(measure), 1)?;
    push_content(bytes, measure)?;
    Ok(())
}

/// Puts what is kept for some measures.
fn push_measure_list(bytes: &mut Vec<u8>, measures: &[Kept]) -> Result<(), AllocError>
    ensures put { OnOk result (bytes.new.items ≡ bytes.old.items ++ flat_map kept.spell measures.now) }
    ensures valid { OnOk result (IsTrue (list_all kept.valid measures.now)) }
{
    for measure in measures {
        push_kept(bytes, measure)?;
    }
    Ok(())
}

/// Puts what is kept for each measure: how many measures there are, and these.
pub fn push_measures(bytes: &mut Vec<u8>, measures: &[Kept]) -> Result<(), AllocError>
    ensures put { OnOk result (bytes.new.items ≡ bytes.old.items ++ (counted (λ _. kept)).spell measures.now) }
    ensures valid { OnOk result (IsTrue ((counted (λ _. kept)).valid measures.now)) }
{
    push_number(bytes, measures.len() as u64, 8)?;
    push_measure_list(bytes, measures)?;
    Ok(())
}

/// Puts cells.
fn push_cell_list(bytes: &mut Vec<u8>, cells: &[Cell]) -> Result<(), AllocError>
    ensures put { OnOk result (bytes.new.items ≡ bytes.old.items ++ flat_map cell.spell cells.now) }
    ensures valid { OnOk result (IsTrue (list_all cell.valid cells.now)) }
{
    for one in cells {
        push_cell(bytes, one.number())?;
    }
    Ok(())
}

/// Puts a group's keys: how many cells there are, and these.
pub fn push_key(bytes: &mut Vec<u8>, cells: &[Cell]) -> Result<(), AllocError>
    ensures put { OnOk result (bytes.new.items ≡ bytes.old.items ++ key.spell cells.now) }
    ensures valid { OnOk result (IsTrue (key.valid cells.now)) }
{
    push_number(bytes, cells.len() as u64, 8)?;
    push_cell_list(bytes, cells)?;
    Ok(())
}
