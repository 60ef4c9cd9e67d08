//! A coded vector's values in row order, with its count of passes.
ghost use Rattle.std.specs.Prelude.{◌≡◌};
ghost use Rattle.segment_core.specs.Coded.{values_of};
ghost use Rattle.table_model.specs.Passes.{raised};

use crate::code_values::decode_codes;
use crate::meter::Meter;
use frame_delta::{Delta, For};
use native_lanes::Packed;
use run_dictionary::{Dict, Runs};
use segment_core::{Coded, CodedVector};

/// Writes a vector's 1024 values in row order. A row that isn't covered or is null can get any value. The meter counts one pass
/// more.
pub fn decode_vector(vector: &CodedVector, values: &mut [i64; 1024], meter: &mut Meter)
    ensures values { values.new ≡ values_of vector.now.coded }
    ensures pass { meter.new ≡ raised 1 meter.old }
{
    meter.add_pass();
    match vector.coded() {
        Coded::For(form) => Packed::Frame(form.get()).write_values(values),
        Coded::Delta(form) => Packed::Deltas(form.get()).write_values(values),
        Coded::Runs(form) => form.get().decode(values),
        Coded::Dict(form) => decode_codes(form.get(), values),
    }
}
