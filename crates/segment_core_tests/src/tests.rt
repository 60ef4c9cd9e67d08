//! Segments at values worked out by hand from the definitions of the codings and of the fill.
use segment_core::{CodedVector, Segment};
use std::alloc::{AllocError, Global};
use std::process::Abort;
use table_model::{ColType, Refusal, Rows, Schema, check_rows};

/// What a test's column holds.
#[derive(Clone, Copy)]
pub(super) enum Pattern {
    All(i128),
    Counting,
    Cycle(usize),
    Alternating(i128, i128),
    ChangedAt(usize, i128, i128),
    Nulls,
    NullAt(usize, i128),
}

fn cell_of(pattern: Pattern, row: usize) -> Option<i128> {
    match pattern {
        Pattern::All(value) => Some(value),
        Pattern::Counting => Some(row as i128),
        Pattern::Cycle(length) => Some((row % length.max(1)) as i128),
        Pattern::Alternating(even, odd) => Some(if row % 2 == 0 { even } else { odd }),
        Pattern::ChangedAt(change, before, after) => Some(if row < change {
            before
        } else {
            after
        }),
        Pattern::Nulls => None,
        Pattern::NullAt(null, value) => { if row == null { None } else { Some(value) } }
    }
}

/// So many rows of one cell.
pub(super) fn rows_of(alloc: Global, count: usize, pattern: Pattern) -> Result<Rows, AllocError> {
    let mut rows = Rows::new(alloc);
    for row in 0..count {
        rows.push_row(&[cell_of(pattern, row)])?;
    }
    Ok(rows)
}

/// The segment of a table with one column.
pub(super) fn segment_of(
    alloc: Global,
    column_type: ColType,
    rows: &Rows,
) -> Result<Segment, Refusal> {
    let schema = Schema::new(alloc, "T", &[("A", column_type)])?;
    check_rows(&schema, rows)?;
    Ok(Segment::build(alloc, &schema, rows)?)
}

/// The first vector of a segment.
pub(super) fn first<'a>(rt: &impl Abort, segment: &'a Segment) -> &'a CodedVector {
    assert!(rt; segment.columns() > 0);
    assert!(rt; segment.rows() > 0);
    segment.vector(0, 0)
}

/// Rows of one cell each.
pub(super) fn rows_with(alloc: Global, cells: &[Option<i128>]) -> Result<Rows, AllocError> {
    let mut rows = Rows::new(alloc);
    for cell in cells {
        rows.push_row(&[*cell])?;
    }
    Ok(rows)
}
