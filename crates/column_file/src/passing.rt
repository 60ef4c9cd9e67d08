//! Passing over the columns of a batch.
ghost use Rattle.std.specs.Prelude.{◌≡◌, ℕ, ◌*◌, ◌+◌, ◌/◌, ◌<◌, ◌≤◌, map, IfOk};
ghost use Rattle.transpose_order.specs.Place.{IsLaneWidth};
ghost use Rattle.table_model.specs.Reading.{Reads};
ghost use Rattle.table_model.specs.Table.{bits_of, ColumnShape, row_limit};
ghost use Rattle.segment_core.specs.Format.{Format};
ghost use Rattle.segment_core.specs.VectorBytes.{coding, coding_tagged, is_width, is_count};
ghost use Rattle.column_file.specs.Passing.{over, null_flag, over_nulls, form, payload_bytes, over_vector, over_column, over_columns};

use segment_core::{Coding, MASK_BYTES, place_of, read_number};
use table_model::{Column, Refusal};

/// The coding of a vector, its width in bits, and how many runs or values of a dictionary it has.
#[derive(Clone, Copy)]
struct Form {
    coding: Coding,
    width: usize,
    count: usize,
}

/// What comes after a number of bytes, whatever they are. `Truncated` if there are fewer.
fn over(total: usize, bytes: &[u8], count: usize) -> Result<&[u8], Refusal>
    ensures { Reads (λ rest. rest.now) result (over count total bytes.now) }
{
    if bytes.len() < count {
        return Err(Refusal::Truncated(total as u64));
    }
    let (_, rest) = bytes.split_at(count);
    Ok(rest)
}

/// The null flag at the front, and what comes after it.
#[tactic(auto, unfolding(crate::specs::Passing::null_flag))]
fn read_null_flag(total: usize, bytes: &[u8]) -> Result<(u64, &[u8]), Refusal>
    ensures { Reads (λ x. (x.0, x.1.now)) result (null_flag.read total bytes.now) }
{
    let (flag, rest) = read_number(total, bytes, 1)?;
    if flag > 1 {
        return Err(Refusal::BadMask(place_of(total, bytes)));
    }
    Ok((flag, rest))
}

/// What comes after the null flag at the front, and after the null mask if the flag is 1.
#[tactic(auto, unfolding(crate::specs::Passing::over_nulls))]
fn over_nulls(total: usize, bytes: &[u8]) -> Result<&[u8], Refusal>
    ensures { Reads (λ rest. rest.now) result (over_nulls total bytes.now) }
{
    let (flag, rest) = read_null_flag(total, bytes)?;
    over(total, rest, if flag == 1 { MASK_BYTES } else { 0 })
}

/// The coding of a number from 0 to 3.
fn coding_tagged(tag: u64) -> Coding
    ensures { result ≡ coding_tagged tag }
{
    match tag {
        0 => Coding::For,
        1 => Coding::Delta,
        2 => Coding::Runs,
        _ => Coding::Dict,
    }
}

/// The coding at the front, and what comes after it.
#[tactic(auto, unfolding(segment_core::specs::VectorBytes::coding))]
fn read_coding(total: usize, bytes: &[u8]) -> Result<(Coding, &[u8]), Refusal>
    ensures { Reads (λ x. (x.0, x.1.now)) result (coding.read total bytes.now) }
{
    let (tag, rest) = read_number(total, bytes, 1)?;
    if tag > 3 {
        return Err(Refusal::BadTag(place_of(total, bytes)));
    }
    Ok((coding_tagged(tag), rest))
}

/// Whether a coding may have a width at lanes of `lane_width` bits.
fn may_have_width(lane_width: usize, coding: Coding, width: usize) -> bool
    ensures { result ≡ is_width lane_width coding width }
{
    match coding {
        Coding::For | Coding::Delta => width <= lane_width,
        Coding::Runs => width == 1,
        Coding::Dict => width <= 16,
    }
}

/// Whether a coding may have a count.
fn may_have_count(coding: Coding, count: usize) -> bool
    ensures { result ≡ is_count coding count }
{
    match coding {
        Coding::For | Coding::Delta => count == 0,
        Coding::Runs | Coding::Dict => 1 <= count && count <= 1024,
    }
}

/// The coding, width and count at the front, and what comes after them.
#[tactic(auto, unfolding(crate::specs::Passing::form))]
fn read_form(total: usize, bytes: &[u8], lane_width: usize) -> Result<(Form, &[u8]), Refusal>
    ensures read { Reads (λ x. ((x.0.coding, (x.0.width, x.0.count)), x.1.now)) result ((form lane_width).read total bytes.now) }
    ensures width { IfOk result (λ x. x.0.width < 256) }
    ensures count { IfOk result (λ x. x.0.count < 65536) }
{
    let (coding, after_coding) = read_coding(total, bytes)?;
    let (width, after_width) = read_number(total, after_coding, 1)?;
    let width = width as usize;
    if !may_have_width(lane_width, coding, width) {
        return Err(Refusal::BadWidth(place_of(total, after_coding)));
    }
    let (count, rest) = read_number(total, after_width, 2)?;
    let count = count as usize;
    if !may_have_count(coding, count) {
        return Err(Refusal::BadCount(place_of(total, after_width)));
    }
    Ok((
        Form {
            coding,
            width,
            count,
        },
        rest,
    ))
}

/// How many bytes come after the form of a vector of `lane_width` bits, 8, 16, 32 or 64.
fn payload_bytes(lane_width: usize, form: Form) -> usize
    requires lanes { IsLaneWidth lane_width }
    requires width { form.width < 256 }
    requires count { form.count < 65536 }
    ensures { result ≡ payload_bytes lane_width form.coding form.width form.count }
{
    let value = lane_width / 8;
    match form.coding {
        Coding::For => value + MASK_BYTES * form.width,
        Coding::Delta => value + (1024 / lane_width * value + MASK_BYTES * form.width),
        Coding::Runs => MASK_BYTES + form.count * value,
        Coding::Dict => form.count * value + MASK_BYTES * form.width,
    }
}

/// What comes after the vector of `lane_width` bits, 8, 16, 32 or 64, at the front.
#[tactic(auto, unfolding(crate::specs::Passing::over_vector))]
fn over_vector(total: usize, bytes: &[u8], lane_width: usize) -> Result<&[u8], Refusal>
    requires { IsLaneWidth lane_width }
    ensures { Reads (λ rest. rest.now) result (over_vector lane_width total bytes.now) }
{
    let after_nulls = over_nulls(total, bytes)?;
    let (form, after_form) = read_form(total, after_nulls, lane_width)?;
    over(total, after_form, payload_bytes(lane_width, form))
}

/// What comes after the vectors of a column of a number of rows, at most 65,536, at the front.
#[tactic(auto, unfolding(crate::specs::Passing::over_column))]
fn over_column(total: usize, bytes: &[u8], lane_width: usize, rows: usize) -> Result<&[u8], Refusal>
    requires lanes { IsLaneWidth lane_width }
    requires limit { rows ≤ row_limit }
    ensures { Reads (λ rest. rest.now) result (over_column lane_width rows total bytes.now) }
{
    let mut rest = bytes;
    for _ in 0..(rows + 1023) / 1024 {
        rest = over_vector(total, rest, lane_width)?;
    }
    Ok(rest)
}

/// What comes after the columns of a number of rows, at most 65,536, at the front.
#[tactic(auto, unfolding(crate::specs::Passing::over_columns))]
pub(crate) fn over_columns<'a>(
    total: usize,
    bytes: &'a [u8],
    shapes: &[Column],
    rows: usize,
) -> Result<&'a [u8], Refusal>
    requires { rows ≤ row_limit }
    ensures { Reads (λ rest. rest.now) result
        (over_columns (map (λ (shape : ColumnShape). bits_of shape.column_type) shapes.now) rows total bytes.now) }
{
    let mut rest = bytes;
    for shape in shapes {
        let lane_width = shape.column_type().bits();
        rest = over_column(total, rest, lane_width, rows)?;
    }
    Ok(rest)
}
