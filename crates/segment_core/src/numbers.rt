//! The values of a vector as numbers by places.
ghost use Rattle.segment_core.specs.CanonicalForm.{AreSigned};

/// Writes 1024 values in row order as numbers by places.
pub(crate) fn write_by_places(values: &[i64; 1024], numbers: &mut [u64; 1024])
    ensures { AreSigned numbers.new values.now }
{
    for index in 0..1024 {
        numbers[index] = values[64 * (index % 16) + index / 16].cast_unsigned();
    }
}
