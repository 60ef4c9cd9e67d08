//! Columns as arrays: which of them are a batch, and the segment that is made of them.
ghost use Rattle.std.specs.Prelude.{◌≤◌, ◌*◌, length};

use segment_core::{CellArray, Segment, are_batch, rows_of_arrays};
use std::alloc::Global;
use std::process::Abort;
use std::test::Fail;
use table_model::{ColType, Refusal, Schema};
use test_support::{Stop, agree};

/// The schema of one SMALLINT column.
fn one_column(alloc: Global) -> Result<Schema, Refusal> {
    Schema::new(alloc, "T", &[("A", ColType::SmallInt)])
}

/// Whether a column of these numbers and bits is a batch of the table.
fn is_batch(alloc: Global, numbers: &[i64], bits: &[u8]) -> Result<bool, Refusal>
    requires { length numbers.now ≤ 8 * length bits.now }
{
    let schema = one_column(alloc)?;
    let arrays = [CellArray::new(numbers, bits)];
    Ok(are_batch(&schema, numbers.len(), &arrays))
}

/// The segment of a column of these numbers and bits, if it is a batch and the segment has its rows.
fn segment_of(alloc: Global, numbers: &[i64], bits: &[u8]) -> Result<Option<Segment>, Refusal>
    requires { length numbers.now ≤ 8 * length bits.now }
{
    let schema = one_column(alloc)?;
    let arrays = [CellArray::new(numbers, bits)];
    if !are_batch(&schema, numbers.len(), &arrays) {
        return Ok(None);
    }
    let rows = rows_of_arrays(alloc, numbers.len(), &arrays)?;
    let segment = Segment::build_of_arrays(alloc, &schema, numbers.len(), &arrays)?;
    Ok(if segment.has_rows(&rows) && segment.canonical() {
        Some(segment)
    } else {
        None
    })
}

#[test]
fn numbers_in_range_are_a_batch_and_others_are_none(rt: HostRuntime) -> Result<(), Fail> {
    agree(is_batch(rt.alloc(), &[1, -32768, 32767], &[7])?, true)?;
    agree(is_batch(rt.alloc(), &[1, -32769], &[3])?, false)?;
    agree(is_batch(rt.alloc(), &[1, 32768], &[3])?, false)?;
    agree(is_batch(rt.alloc(), &[], &[])?, false)
}

// Bit 0 of byte 1 is row 8.
#[test]
fn a_segment_of_arrays_has_their_cells(rt: HostRuntime) -> Result<(), Fail> {
    let mut numbers = [7; 1025];
    numbers[1024] = 9;
    let mut bits = [255; 129];
    bits[1] = 254;
    let Some(segment) = segment_of(rt.alloc(), &numbers, &bits)? else {
        assert!(rt; false, "it is a batch");
        return Ok(());
    };
    assert!(rt; segment.rows() == 1025);
    assert!(rt; segment.columns() == 1);
    agree(segment.value(7, 0), Some(7))?;
    agree(segment.value(8, 0), None)?;
    agree(segment.value(1024, 0), Some(9))
}
