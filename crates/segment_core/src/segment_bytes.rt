//! Segments in bytes: for each column, each of its vectors.
ghost use Rattle.std.specs.Prelude.{◌≡◌, ℕ, ◌≤◌, ◌++◌, Some, List, drop, length, map, slice_get, slice_range, IfOk, IsTrue};
ghost use Rattle.transpose_order.specs.Place.{IsLaneWidth};
ghost use Rattle.table_model.specs.Table.{bits_of, ColumnShape, row_limit};
ghost use Rattle.segment_core.specs.Segment.{IsColumn, batch_of, width_in, widths_in, widths_of};
ghost use Rattle.segment_core.specs.CodedVector.{VectorForm};
ghost use Rattle.table_model.specs.Reading.{Reads};
ghost use Rattle.segment_core.specs.Format.{Format};
ghost use Rattle.segment_core.specs.SegmentBytes.{column, columns, batch_columns, columns_then, segment_bytes, HasBytesIn};

use crate::segment::Segment;
use crate::vector_bytes::read_vector;
use crate::vectors::Vectors;
use std::alloc::Global;
use table_model::{Column, Refusal, Schema};

/// The vectors of a column of a number of rows, 1 to 65,536, of `lane_width` bits, 8, 16, 32 or 64, at the front of what is left of
/// an input of `total` bytes, and what comes after them.
#[tactic(auto, unfolding(crate::specs::SegmentBytes::column))]
fn read_column(
    alloc: Global,
    total: usize,
    bytes: &[u8],
    lane_width: usize,
    rows: usize,
) -> Result<(Vectors, &[u8]), Refusal>
    requires lane_width { IsLaneWidth lane_width }
    requires some { 1 ≤ rows }
    requires limit { rows ≤ row_limit }
    ensures read { Reads (λ x. (x.0, x.1.now)) result ((column lane_width rows).read total bytes.now) }
    ensures form { IfOk result (λ x. IsColumn rows x.0) }
    ensures lanes { IfOk result (λ x. width_in x.0 ≡ lane_width) }
{
    let mut vectors = Vec::with_capacity(alloc, 1)?;
    let mut rest = bytes;
    for k in 0..(rows + 1023) / 1024 {
        let covered = (rows - 1024 * k).min(1024);
        let (vector, after) = read_vector(alloc, total, rest, lane_width, covered)?;
        vectors.push(vector)?;
        rest = after;
    }
    Ok((Vectors::from_vec(vectors), rest))
}

/// The columns of a number of rows, 1 to 65,536, at the front of what is left of an input of `total` bytes, and what comes after
/// them.
#[tactic(auto, unfolding(crate::specs::SegmentBytes::columns))]
fn read_columns<'a>(
    alloc: Global,
    total: usize,
    bytes: &'a [u8],
    shapes: &[Column],
    rows: usize,
) -> Result<(Vec<Vectors>, &'a [u8]), Refusal>
    requires some { 1 ≤ rows }
    requires limit { rows ≤ row_limit }
    ensures read { Reads (λ x. (x.0.items, x.1.now)) result
        ((columns (map (λ (shape : ColumnShape). bits_of shape.column_type) shapes.now) rows).read total bytes.now) }
    ensures count { IfOk result (λ x. length x.0.items ≡ length shapes.now) }
    ensures forms { IfOk result (λ x. (c : ℕ) (vectors : List VectorForm) → slice_get x.0.items c ≡ Some vectors → IsColumn rows vectors) }
    ensures lanes { IfOk result (λ x. widths_in x.0.items ≡ map (λ (shape : ColumnShape). bits_of shape.column_type) shapes.now) }
{
    let mut read = Vec::with_capacity(alloc, shapes.len())?;
    let mut rest = bytes;
    for shape in shapes {
        let lane_width = shape.column_type().bits();
        let (vectors, after) = read_column(alloc, total, rest, lane_width, rows)?;
        read.push(vectors)?;
        rest = after;
    }
    Ok((read, rest))
}

impl Segment {
    /// The segment of a batch of a number of rows, 1 to 65,536, in the columns of a schema, whose bytes begin at a place, which is not
    /// past the end, and the place of what comes after it. Refused is the first fault of the bytes, at its place in them:
    /// `Truncated`, `BadCount`, `BadWidth`, `BadTag`, `BadMask`, `BadDictionary` or `BadCode`. It grows as it reads, so `Memory`
    /// may come in the place of any of them.
    pub fn read_bytes(
        alloc: Global,
        schema: &Schema,
        rows: usize,
        bytes: &[u8],
        at: usize,
    ) -> Result<(Segment, usize), Refusal>
        requires some { 1 ≤ rows }
        requires limit { rows ≤ row_limit }
        requires at { at ≤ length bytes.now }

        // What is read is spelled so between the two places, of which the second is not past the end, and its rows are as many.
        ensures found { IfOk result (λ x. slice_range bytes.now at x.1 ≡ segment_bytes x.0) }
        ensures next { IfOk result (λ x. x.1 ≤ length bytes.now) }
        ensures onward { IfOk result (λ x. at ≤ x.1) }
        ensures rows { IfOk result (λ x. x.0.rows ≡ batch_of rows x.0.forms) }
        ensures widths { IfOk result (λ x. widths_in x.0.forms ≡ widths_of schema.now) }
        ensures valid { IfOk result (λ x. HasBytesIn schema.now x.0) }

        // What is valid and spelled so is read, whatever comes after it.
        ensures only { (forms : List (List VectorForm)) (rest : List ℕ) → IsTrue ((batch_columns schema.now rows).valid forms)
            → drop at bytes.now ≡ (batch_columns schema.now rows).spell forms ++ rest
            → Reads (λ x. (x.0.forms, drop x.1 bytes.now)) result (columns_then forms rest) }

        // Which fault it is.
        ensures exact { Reads (λ x. (x.0.forms, drop x.1 bytes.now)) result
            ((batch_columns schema.now rows).read (length bytes.now) (drop at bytes.now)) }
    {
        let (_, front) = bytes.split_at(at);
        let (read, rest) = read_columns(alloc, bytes.len(), front, schema.column_list(), rows)?;
        let next = bytes.len().saturating_sub(rest.len());
        Ok((Segment::from_columns(rows, read), next))
    }
}
