//! Spans of a vector's kept rows by the runs of its one grouping column.
ghost use Rattle.std.specs.Prelude.{false, OnOk};
ghost use Rattle.transpose_order.specs.Mask.{rows_of};
ghost use Rattle.query_eval.specs.Keys.{IsSlicing, run_key};
ghost use Rattle.query_eval.specs.Places.{IsIndex};
ghost use Rattle.query_eval.specs.Slices.{slices_of_spans};

use crate::grouping::places::Places;
use crate::grouping::split::Span;
use std::alloc::{AllocError, Global};
use transpose_order::Mask;

/// Makes spans of the rows of a mask by the runs that they are in: a run with such a row is a span, with the place of its value,
/// which is a new place if the value is new. Each row of the mask is in a span.
pub fn span_runs(
    alloc: Global,
    places: &mut Places,
    starts: &Mask,
    values: &[i64; 1024],
    mask: &Mask,
    spans: &mut Vec<Span>,
) -> Result<(), AllocError>
    ensures index { OnOk result (IsIndex places.old → IsIndex places.new) }
    ensures spanned { OnOk result (IsSlicing (run_key starts.now values.now) mask.now (rows_of (λ _. false)) places.old places.new (slices_of_spans mask.now spans.new.items)) }
{
    mask.keeps_1024_rows();
    spans.clear();
    let mut start = 0;
    let mut row = mask.next_true(0);
    for run in 0..1024 {
        if row == 1024 {
            return Ok(());
        }
        let end = starts.next_true(start + 1);
        if row < end {
            let place = places.of_row(alloc, false, values[run])?;
            spans.push(Span {
                place,
                first: row,
                end,
            })?;
            row = mask.next_true(end);
        }
        start = end;
    }
    Ok(())
}
