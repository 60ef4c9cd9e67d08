//! The least or the greatest of a coded vector's values, by the way that its coding has, with its count of passes.
ghost use Rattle.std.specs.Prelude.{◌≡◌, IfSome};
ghost use Rattle.table_model.specs.Extreme.{extreme_of};
ghost use Rattle.table_model.specs.Passes.{raised};
ghost use Rattle.native_lanes.specs.Extremes.{extreme_at};
ghost use Rattle.segment_core.specs.Coded.{value_in};
ghost use Rattle.fused_kernels.specs.Seen.{values_looked_at};
ghost use Rattle.fused_kernels.specs.VectorSeen.{vector_seen};

use crate::codes::extreme_of_codes;
use crate::extremes::extreme;
use crate::meter::Meter;
use crate::range_rows::rows_of_vector;
use crate::run_folds::extreme_of_runs;
use crate::vector_lanes::VectorLanes;
use native_lanes::Packed;
use segment_core::{Coded, CodedVector};
use table_model::Extreme;
use transpose_order::Mask;

/// The least or the greatest value of a mask's rows, none over none. There is no answer if the lanes have to be looked at, which
/// have 8 bits then.
#[inline(always)]
fn extreme_by_coding(side: Extreme, coded: &Coded, rows: &Mask) -> Option<Option<i64>>
    ensures { IfSome result (λ found. found ≡ extreme_at side rows.now (value_in coded.now)) }
{
    match coded {
        Coded::For(form) => Packed::Frame(form.get()).extreme(side, rows),
        Coded::Delta(form) => Packed::Deltas(form.get()).extreme(side, rows),
        Coded::Runs(form) => Some(extreme_of_runs(side, form.get(), rows)),
        Coded::Dict(form) => Some(extreme_of_codes(side, form.get(), rows)),
    }
}

/// The answer of `vector_extreme`: by the coding if that has one, otherwise by the lanes.
#[inline(always)]
fn extreme_by_any(
    side: Extreme,
    vector: &CodedVector,
    mask: &Mask,
    meter: &mut Meter,
) -> Option<i64>
    ensures value { result ≡ extreme_of side (values_looked_at (vector_seen vector.now 0) mask.now) }
    ensures pass { meter.new ≡ raised 1 meter.old }
{
    match extreme_by_coding(side, vector.coded(), &rows_of_vector(vector, mask)) {
        None => extreme(side, &mut VectorLanes::new(vector, meter), mask),
        Some(found) => {
            meter.add_pass();
            found
        }
    }
}

/// The least or the greatest value of a vector's rows looked at, none over none. The rows looked at are those of the mask that are
/// covered and not null. The meter counts one pass more.
pub fn vector_extreme(
    side: Extreme,
    vector: &CodedVector,
    mask: &Mask,
    meter: &mut Meter,
) -> Option<i64>
    ensures value { result ≡ extreme_of side (values_looked_at (vector_seen vector.now 0) mask.now) }
    ensures pass { meter.new ≡ raised 1 meter.old }
{
    // Each extreme has loops of its own, in which it is a constant.
    match side {
        Extreme::Least => extreme_by_any(Extreme::Least, vector, mask, meter),
        Extreme::Greatest => extreme_by_any(Extreme::Greatest, vector, mask, meter),
    }
}
