//! The sum of a coded vector's values, by the way that its coding has, with its count of passes.
ghost use Rattle.std.specs.Prelude.{◌≡◌, cond, pos, ◌+ℤ◌, IfSome};
ghost use Rattle.table_model.specs.Values.{total};
ghost use Rattle.table_model.specs.Passes.{raised};
ghost use Rattle.transpose_order.specs.Mask.{has};
ghost use Rattle.native_lanes.specs.Folds.{fold_to};
ghost use Rattle.segment_core.specs.Coded.{value_in};
ghost use Rattle.fused_kernels.specs.Seen.{values_looked_at};
ghost use Rattle.fused_kernels.specs.VectorSeen.{vector_seen};

use crate::codes::sum_of_codes;
use crate::meter::Meter;
use crate::range_rows::rows_of_vector;
use crate::run_folds::sum_of_runs;
use crate::sums::sum;
use crate::vector_lanes::VectorLanes;
use native_lanes::Packed;
use segment_core::{Coded, CodedVector};
use transpose_order::Mask;

/// The sum of the values of a mask's rows. There is no answer if the lanes have to be looked at, which have 8 bits then.
fn sum_by_coding(coded: &Coded, rows: &Mask) -> Option<i128>
    ensures { IfSome result (λ sum. sum ≡ fold_to ◌+ℤ◌ (pos 0) 1024 (λ n. cond (has rows.now n) (value_in coded.now n) (pos 0))) }
{
    match coded {
        Coded::For(form) => Packed::Frame(form.get()).sum(rows),
        Coded::Delta(form) => Packed::Deltas(form.get()).sum(rows),
        Coded::Runs(form) => Some(sum_of_runs(form.get(), rows)),
        Coded::Dict(form) => Some(sum_of_codes(form.get(), rows)),
    }
}

/// The sum of the values of a vector's rows looked at, 0 over none. The rows looked at are those of the mask that are covered and
/// not null. The meter counts one pass more.
pub fn vector_sum(vector: &CodedVector, mask: &Mask, meter: &mut Meter) -> i128
    ensures value { result ≡ total (values_looked_at (vector_seen vector.now 0) mask.now) }
    ensures pass { meter.new ≡ raised 1 meter.old }
{
    match sum_by_coding(vector.coded(), &rows_of_vector(vector, mask)) {
        None => sum(&mut VectorLanes::new(vector, meter), mask),
        Some(sum) => {
            meter.add_pass();
            sum
        }
    }
}
