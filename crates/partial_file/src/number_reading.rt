//! Reading numbers from the front of bytes.
ghost use Rattle.std.specs.Prelude.{◌≡◌, ◌-◌, ◌≤◌, ◌<◌, ◌^◌, true, length, nat_le, IfOk};
ghost use Rattle.table_model.specs.Reading.{Reads};
ghost use Rattle.segment_core.specs.Format.{Format, checked, number, optional, signed};
ghost use Rattle.partial_file.specs.PartialAnswerBytes.{cell, cell_value, extreme, is_long, wide};

use crate::number_writing::narrow;
use bit_interleave::wrap;
use byteorder::{ByteOrder, LittleEndian};
use segment_core::{place_of, read_number};
use table_model::Refusal;

/// How many bytes a wide number takes.
const WIDE_BYTES: usize = 16;

/// The number of 8 bytes at the front, and what comes after it.
pub fn read_count(total: usize, bytes: &[u8]) -> Result<(u64, &[u8]), Refusal>
    ensures { Reads (λ x. (x.0, x.1.now)) result ((number 8).read total bytes.now) }
{
    read_number(total, bytes, 8)
}

/// The signed number of 8 bytes at the front, and what comes after it.
pub fn read_narrow(total: usize, bytes: &[u8]) -> Result<(i64, &[u8]), Refusal>
    ensures { Reads (λ x. (x.0, x.1.now)) result ((signed 64).read total bytes.now) }
{
    let (number, rest) = read_number(total, bytes, 8)?;
    Ok((wrap(64, number), rest))
}

/// The signed number of 16 bytes at the front, and what comes after it.
#[tactic(auto, unfolding(crate::specs::PartialAnswerBytes::wide))]
pub fn read_wide(total: usize, bytes: &[u8]) -> Result<(i128, &[u8]), Refusal>
    ensures { Reads (λ x. (x.0, x.1.now)) result (wide.read total bytes.now) }
{
    if bytes.len() < WIDE_BYTES {
        return Err(Refusal::Truncated(total as u64));
    }
    let (front, rest) = bytes.split_at(WIDE_BYTES);
    Ok((LittleEndian::read_i128(front), rest))
}

/// The number of one byte at the front, at most `most`, and what comes after it.
pub fn read_tag(total: usize, bytes: &[u8], most: u64) -> Result<(u64, &[u8]), Refusal>
    ensures read { Reads (λ x. (x.0, x.1.now)) result ((checked (number 1) (λ n. nat_le n most) Refusal.BadTag).read total bytes.now) }
    ensures most { IfOk result (λ x. x.0 ≤ most) }
{
    let (tag, rest) = read_number(total, bytes, 1)?;
    if tag > most {
        return Err(Refusal::BadTag(place_of(total, bytes)));
    }
    Ok((tag, rest))
}

/// The value of 8 bytes at the front, and what comes after it.
fn read_short(total: usize, bytes: &[u8]) -> Result<(Option<i64>, &[u8]), Refusal>
    ensures { Reads (λ x. (x.0, x.1.now)) result ((optional true (signed 64)).read total bytes.now) }
{
    let (value, rest) = read_narrow(total, bytes)?;
    Ok((Some(value), rest))
}

/// Whether a number takes more than 8 bytes.
fn is_long(value: i128) -> bool
    ensures { result ≡ is_long value }
{
    match narrow(value) {
        Some(short) => false,
        None => true,
    }
}

/// The value of 16 bytes at the front, which takes more than 8, and what comes after it.
fn read_long(total: usize, bytes: &[u8]) -> Result<(Option<i128>, &[u8]), Refusal>
    ensures { Reads (λ x. (x.0, x.1.now)) result ((optional true (checked wide is_long Refusal.BadWidth)).read total bytes.now) }
{
    let (value, rest) = read_wide(total, bytes)?;
    if !is_long(value) {
        return Err(Refusal::BadWidth(place_of(total, bytes)));
    }
    Ok((Some(value), rest))
}

/// A cell's number of some times 8 bytes, none for null, at the front, and what comes after it.
fn read_cell_value(total: usize, bytes: &[u8], words: u64) -> Result<(Option<i128>, &[u8]), Refusal>
    requires { words ≤ 2 }
    ensures { Reads (λ x. (x.0, x.1.now)) result ((cell_value words).read total bytes.now) }
{
    if words == 2 {
        return read_long(total, bytes);
    }
    if words == 0 {
        return Ok((None, bytes));
    }
    let (value, rest) = read_narrow(total, bytes)?;
    Ok((Some(i128::from(value)), rest))
}

/// A key's cell at the front, and what comes after it.
#[tactic(auto, unfolding(crate::specs::PartialAnswerBytes::cell))]
pub fn read_cell(total: usize, bytes: &[u8]) -> Result<(Option<i128>, &[u8]), Refusal>
    ensures { Reads (λ x. (x.0, x.1.now)) result (cell.read total bytes.now) }
{
    let (words, rest) = read_tag(total, bytes, 2)?;
    read_cell_value(total, rest, words)
}

/// A value if there is one, at the front, and what comes after it.
#[tactic(auto, unfolding(crate::specs::PartialAnswerBytes::extreme))]
pub fn read_extreme(total: usize, bytes: &[u8]) -> Result<(Option<i64>, &[u8]), Refusal>
    ensures { Reads (λ x. (x.0, x.1.now)) result (extreme.read total bytes.now) }
{
    let (flag, rest) = read_tag(total, bytes, 1)?;
    if flag == 0 {
        return Ok((None, rest));
    }
    read_short(total, rest)
}
