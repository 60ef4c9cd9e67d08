//! How many rows of a vector have a value.
ghost use Rattle.std.specs.Prelude.{◌≡◌, length};
ghost use Rattle.fused_kernels.specs.Seen.{values_looked_at};
ghost use Rattle.fused_kernels.specs.VectorSeen.{vector_seen};

use crate::lanes::rows_among;
use segment_core::CodedVector;
use transpose_order::Mask;

/// How many rows of a vector are looked at: those of the mask that are covered and not null. No value is read, and no pass is
/// counted.
pub fn count(vector: &CodedVector, mask: &Mask) -> u32
    ensures { result ≡ length (values_looked_at (vector_seen vector.now 0) mask.now) }
{
    rows_among(vector.rows(), &vector.null_rows(), mask).count() as u32
}
