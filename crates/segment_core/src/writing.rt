//! Writing the parts of formats: bytes, numbers, values, masks and packed words.
ghost use Rattle.std.specs.Prelude.{◌≡◌, ℕ, ◌*◌, ◌/◌, ◌^◌, ◌<◌, ◌≤◌, length, FitsSigned};
ghost use Rattle.transpose_order.specs.Place.{IsLaneWidth};
ghost use Rattle.bit_interleave.specs.Arithmetic.{integer_width};
ghost use Rattle.bit_interleave.specs.PackedWords.{FitLanes, HasWidth};
ghost use Rattle.segment_core.specs.Format.{Format, Writes, number, signed, all};
ghost use Rattle.segment_core.specs.VectorBytes.{mask, words};

use bit_interleave::{Values, Words};
use byteorder::{ByteOrder, LittleEndian};
use std::io::Write;
use table_model::{Counted, Refusal};
use transpose_order::Mask;

/// Writes all bytes. `WriteFault` if a write fails; a front of them was written then.
pub fn write_whole<W: Write>(writer: &mut Counted<W>, bytes: &[u8]) -> Result<(), Refusal>
    ensures { Writes result (W.contents writer.old.0) (W.contents writer.new.0) writer.old.1 writer.new.1 bytes.now }
{
    writer.write_whole(bytes)
}

/// Writes a number in `size` bytes, 1 to 8, which it fits, the lowest first.
pub fn write_number<W: Write>(
    writer: &mut Counted<W>,
    value: u64,
    size: usize,
) -> Result<(), Refusal>
    requires low { 1 ≤ size }
    requires high { size ≤ 8 }
    requires fits { value < 256 ^ size }
    ensures { Writes result (W.contents writer.old.0) (W.contents writer.new.0) writer.old.1 writer.new.1 ((number size).spell value) }
{
    let mut bytes = [0; 8];
    LittleEndian::write_uint(&mut bytes, value, size);
    write_whole(writer, &bytes[..size])
}

/// Writes a value of `lane_width` bits, 8, 16, 32 or 64, in two's complement, the lowest byte first.
pub(crate) fn write_value<W: Write>(
    writer: &mut Counted<W>,
    value: i64,
    lane_width: usize,
) -> Result<(), Refusal>
    requires lane_width { IsLaneWidth lane_width }
    requires fits { FitsSigned (integer_width lane_width) value }
    ensures { Writes result (W.contents writer.old.0) (W.contents writer.new.0) writer.old.1 writer.new.1 ((signed lane_width).spell value) }
{
    let bytes = value.to_le_bytes();
    write_whole(writer, &bytes[..lane_width / 8])
}

/// Writes values in order, each in as many bytes as the lane width has.
pub(crate) fn write_values<W: Write>(
    writer: &mut Counted<W>,
    values: &Values,
) -> Result<(), Refusal>
    ensures { Writes result (W.contents writer.old.0) (W.contents writer.new.0) writer.old.1 writer.new.1
        ((all (length values.now.values) (λ _. signed values.now.lane_width)).spell values.now.values) }
{
    let lane_width = values.lane_width();
    for i in 0..values.len() {
        write_value(writer, values.get(i), lane_width)?;
    }
    Ok(())
}

/// Writes a mask in 128 bytes.
pub(crate) fn write_mask<W: Write>(writer: &mut Counted<W>, rows: &Mask) -> Result<(), Refusal>
    ensures { Writes result (W.contents writer.old.0) (W.contents writer.new.0) writer.old.1 writer.new.1 (mask.spell rows.now) }
{
    rows.keeps_1024_rows();
    write_whole(writer, &rows.to_le_bytes())
}

/// Writes the words that pack 1024 values of `width` bits, in `128 * width` bytes.
pub(crate) fn write_words<W: Write>(
    writer: &mut Counted<W>,
    packed: &Words,
    width: usize,
) -> Result<(), Refusal>
    requires lane_width { IsLaneWidth packed.now.lane_width }
    requires width { HasWidth packed.now width }
    requires fit { FitLanes packed.now }
    ensures { Writes result (W.contents writer.old.0) (W.contents writer.new.0) writer.old.1 writer.new.1
        ((words packed.now.lane_width width).spell packed.now) }
{
    let mut piece = [0; 128];
    for block in 0..width {
        packed.le_bytes_at(block, &mut piece);
        write_whole(writer, &piece)?;
    }
    Ok(())
}
