//! Reading a vector from bytes: its nulls, then its coding, width and count, and then the payload of that coding.
ghost use Rattle.std.specs.Prelude.{◌≡◌, ◌≢◌, ℕ, ◌+◌, ◌-◌, ◌≤◌, ◌<◌, ◌↔◌, false, true, IsTrue, drop, length, IfOk, IfErr, OnOk, FitsSigned};
ghost use Rattle.transpose_order.specs.Mask.{has};
ghost use Rattle.transpose_order.specs.Place.{IsLaneWidth};
ghost use Rattle.bit_interleave.specs.PackedWords.{HasWidth};
ghost use Rattle.run_dictionary.specs.Runs.{run_of};
ghost use Rattle.run_dictionary.specs.Dict.{AreCodesBelow, IsAscending};
ghost use Rattle.segment_core.specs.Coded.{lane_width_of};
ghost use Rattle.segment_core.specs.CodedVector.{AreNulls, IsNullMask, IsVector};
ghost use Rattle.table_model.specs.Reading.{Reads};
ghost use Rattle.segment_core.specs.Format.{Format, checked};
ghost use Rattle.segment_core.specs.VectorBytes.{mask, nulls, is_null_mask, coding, is_width, is_count, header, frame, deltas, starts, runs, is_above, dictionary, are_codes_below, codes, dict, payload, coded, vector};

use crate::boxed::Boxed;
use crate::coded::Coded;
use crate::coded_vector::CodedVector;
use crate::coding::Coding;
use crate::formats::{place_of, read_number, read_value, read_values, read_words};
use bit_interleave::{Values, Words};
use frame_delta::{Delta, For};
use run_dictionary::{Dict, Runs};
use std::alloc::Global;
use table_model::Refusal;
use transpose_order::Mask;

/// What comes before a payload: the coding, the width in bits, and how many runs or values of a dictionary there are.
#[derive(Clone, Copy)]
pub(crate) struct Header {
    pub coding: Coding,
    pub width: usize,
    pub count: usize,
}

/// How many bytes a mask takes: a bit for each row of a vector.
pub const MASK_BYTES: usize = 128;

/// The mask of the 128 bytes at the front. `Truncated` if there are fewer bytes.
#[tactic(auto, unfolding(crate::specs::VectorBytes::mask))]
fn read_mask(total: usize, bytes: &[u8]) -> Result<Mask, Refusal>
    ensures read { Reads (λ x. (x, drop 128 bytes.now)) result (mask.read total bytes.now) }
    ensures rows { IfOk result (λ x. length x ≡ 1024) }
    ensures long { OnOk result (128 ≤ length bytes.now) }
    ensures fault { IfErr result (λ e. e ≡ Refusal.Truncated total) }
{
    if bytes.len() < MASK_BYTES {
        return Err(Refusal::Truncated(total as u64));
    }
    let (front, _) = bytes.split_at(MASK_BYTES);
    let mut whole = [0; MASK_BYTES];
    whole.copy_from_slice(front);
    Ok(Mask::from_le_bytes(&whole))
}

/// What comes after a mask.
fn after_mask(bytes: &[u8]) -> &[u8]
    requires { 128 ≤ length bytes.now }
    ensures { drop 128 bytes.now ≡ result.now }
{
    let (_, rest) = bytes.split_at(MASK_BYTES);
    rest
}

/// Whether a mask has one of a number of rows, at most 1024, and no row past them.
fn has_rows_within(nulls: &Mask, rows: usize) -> bool
    requires { rows ≤ 1024 }
    ensures { result ≡ is_null_mask rows nulls.now }
{
    let within = nulls.count_below(rows);
    within > 0 && within == nulls.count_below(1024)
}

/// The null mask of a number of rows at the front.
fn read_null_mask(total: usize, bytes: &[u8], rows: usize) -> Result<Mask, Refusal>
    requires { rows ≤ 1024 }
    ensures read { Reads (λ x. (x, drop 128 bytes.now)) result ((checked mask (is_null_mask rows) Refusal.BadMask).read total bytes.now) }
    ensures long { OnOk result (128 ≤ length bytes.now) }
    ensures nulls { IfOk result (λ x. IsNullMask rows x) }
    ensures fault { IfErr result (λ e. e ≢ Refusal.Memory) }
{
    let nulls = read_mask(total, bytes)?;
    if !has_rows_within(&nulls, rows) {
        return Err(Refusal::BadMask(place_of(total, bytes)));
    }
    Ok(nulls)
}

/// The null flag at the front, the null mask if the flag is 1, and what comes after them.
#[tactic(auto, unfolding(crate::specs::VectorBytes::nulls))]
fn read_nulls(
    alloc: Global,
    total: usize,
    bytes: &[u8],
    rows: usize,
) -> Result<(Option<Boxed<Mask>>, &[u8]), Refusal>
    requires { rows ≤ 1024 }
    ensures read { Reads (λ x. (x.0, x.1.now)) result ((nulls rows).read total bytes.now) }
    ensures nulls { IfOk result (λ x. AreNulls rows x.0) }
{
    let (flag, rest) = read_number(total, bytes, 1)?;
    if flag > 1 {
        return Err(Refusal::BadMask(place_of(total, bytes)));
    }
    if flag == 0 {
        return Ok((None, rest));
    }
    let nulls = read_null_mask(total, rest, rows)?;
    Ok((Some(Boxed::new(alloc, nulls)?), after_mask(rest)))
}

/// The coding at the front, and what comes after it.
#[tactic(auto, unfolding(crate::specs::VectorBytes::coding))]
fn read_coding(total: usize, bytes: &[u8]) -> Result<(Coding, &[u8]), Refusal>
    ensures read { Reads (λ x. (x.0, x.1.now)) result (coding.read total bytes.now) }
    ensures fault { IfErr result (λ e. e ≢ Refusal.Memory) }
{
    let (tag, rest) = read_number(total, bytes, 1)?;
    if tag > Coding::GREATEST_TAG {
        return Err(Refusal::BadTag(place_of(total, bytes)));
    }
    Ok((Coding::tagged(tag), rest))
}

/// Whether a coding may have a width at lanes of `lane_width` bits.
fn may_have_width(lane_width: usize, coding: Coding, width: usize) -> bool
    ensures { result ≡ is_width lane_width coding width }
{
    match coding {
        Coding::For | Coding::Delta => width <= lane_width,
        Coding::Runs => width == 1,
        Coding::Dict => width <= 16,
    }
}

/// Whether a coding may have a count.
fn may_have_count(coding: Coding, count: usize) -> bool
    ensures { result ≡ is_count coding count }
{
    match coding {
        Coding::For | Coding::Delta => count == 0,
        Coding::Runs | Coding::Dict => 1 <= count && count <= 1024,
    }
}

/// The coding, width and count at the front, and what comes after them.
#[tactic(auto, unfolding(crate::specs::VectorBytes::header))]
fn read_header(total: usize, bytes: &[u8], lane_width: usize) -> Result<(Header, &[u8]), Refusal>
    ensures read { Reads (λ x. (x.0, x.1.now)) result ((header lane_width).read total bytes.now) }
    ensures width { IfOk result (λ x. is_width lane_width x.0.coding x.0.width ≡ true) }
    ensures count { IfOk result (λ x. is_count x.0.coding x.0.count ≡ true) }
    ensures fault { IfErr result (λ e. e ≢ Refusal.Memory) }
{
    let (coding, after_coding) = read_coding(total, bytes)?;
    let (width, after_width) = read_number(total, after_coding, 1)?;
    let width = width as usize;
    if !may_have_width(lane_width, coding, width) {
        return Err(Refusal::BadWidth(place_of(total, after_coding)));
    }
    let (count, rest) = read_number(total, after_width, 2)?;
    let count = count as usize;
    if !may_have_count(coding, count) {
        return Err(Refusal::BadCount(place_of(total, after_width)));
    }
    Ok((
        Header {
            coding,
            width,
            count,
        },
        rest,
    ))
}

/// The payload of FOR at the front, and what comes after it.
#[tactic(auto, unfolding(crate::specs::VectorBytes::frame))]
fn read_frame(
    alloc: Global,
    total: usize,
    bytes: &[u8],
    lane_width: usize,
    width: usize,
) -> Result<(For, &[u8]), Refusal>
    requires lane_width { IsLaneWidth lane_width }
    requires width { width ≤ lane_width }
    ensures read { Reads (λ x. (x.0, x.1.now)) result ((frame lane_width width).read total bytes.now) }
    ensures lanes { IfOk result (λ x. x.0.lane_width ≡ lane_width) }
{
    let (reference, rest) = read_value(total, bytes, lane_width)?;
    let (words, rest) = read_words(alloc, total, rest, lane_width, width)?;
    Ok((For::from_parts(lane_width, width, reference, words), rest))
}

/// The payload of DELTA at the front, and what comes after it.
#[tactic(auto, unfolding(crate::specs::VectorBytes::deltas))]
fn read_deltas(
    alloc: Global,
    total: usize,
    bytes: &[u8],
    lane_width: usize,
    width: usize,
) -> Result<(Delta, &[u8]), Refusal>
    requires lane_width { IsLaneWidth lane_width }
    requires width { width ≤ lane_width }
    ensures read { Reads (λ x. (x.0, x.1.now)) result ((deltas lane_width width).read total bytes.now) }
    ensures lanes { IfOk result (λ x. x.0.lane_width ≡ lane_width) }
{
    let (least, rest) = read_value(total, bytes, lane_width)?;
    let (bases, rest) = read_values(alloc, total, rest, lane_width, 1024 / lane_width)?;
    let (words, rest) = read_words(alloc, total, rest, lane_width, width)?;
    Ok((Delta::from_parts(width, least, bases, words), rest))
}

/// The start mask of a number of runs at the front.
#[tactic(auto, unfolding(crate::specs::VectorBytes::starts))]
fn read_starts(total: usize, bytes: &[u8], count: usize) -> Result<Mask, Refusal>
    ensures read { Reads (λ x. (x, drop 128 bytes.now)) result ((starts count).read total bytes.now) }
    ensures long { OnOk result (128 ≤ length bytes.now) }
    ensures first { IfOk result (λ x. has x 0 ≡ false) }
    ensures count { IfOk result (λ x. run_of x 1023 + 1 ≡ count) }
    ensures fault { IfErr result (λ e. e ≢ Refusal.Memory) }
{
    let starts = read_mask(total, bytes)?;
    if starts.get(0) {
        return Err(Refusal::BadMask(place_of(total, bytes)));
    }
    if Runs::count_for(&starts) != count {
        return Err(Refusal::BadCount(place_of(total, bytes).saturating_sub(2)));
    }
    Ok(starts)
}

/// The payload of RLE at the front, and what comes after it.
#[tactic(auto, unfolding(crate::specs::VectorBytes::runs))]
fn read_runs(
    alloc: Global,
    total: usize,
    bytes: &[u8],
    lane_width: usize,
    count: usize,
) -> Result<(Runs, &[u8]), Refusal>
    requires lane_width { IsLaneWidth lane_width }
    requires many { count ≤ 1024 }
    ensures read { Reads (λ x. (x.0, x.1.now)) result ((runs lane_width count).read total bytes.now) }
    ensures lanes { IfOk result (λ x. x.0.lane_width ≡ lane_width) }
{
    let starts = read_starts(total, bytes, count)?;
    let (values, rest) = read_values(alloc, total, after_mask(bytes), lane_width, count)?;
    Ok((Runs::from_parts(starts, values), rest))
}

/// Whether a value is greater than the last of those before it, if there is one.
fn rises_after(front: &[i64], value: i64) -> bool
    ensures { result ≡ is_above front.now value }
{
    front.is_empty() || front[front.len() - 1] < value
}

/// The values of a dictionary, at most 1024, at the front, and what comes after them.
#[tactic(auto, unfolding(crate::specs::VectorBytes::dictionary))]
fn read_dictionary(
    alloc: Global,
    total: usize,
    bytes: &[u8],
    lane_width: usize,
    count: usize,
) -> Result<(Values, &[u8]), Refusal>
    requires lane_width { IsLaneWidth lane_width }
    requires many { count ≤ 1024 }
    ensures read { Reads (λ x. (x.0.values, x.1.now)) result ((dictionary lane_width count).read total bytes.now) }
    ensures count { IfOk result (λ x. length x.0.values ≡ count) }
    ensures rises { IfOk result (λ x. IsAscending x.0.values) }
    ensures lanes { IfOk result (λ x. x.0.lane_width ≡ lane_width) }
{
    let mut room = [0; 1024];
    let mut rest = bytes;
    for i in 0..count {
        let (value, after) = read_value(total, rest, lane_width)?;
        if !rises_after(&room[..i], value) {
            return Err(Refusal::BadDictionary(place_of(total, rest)));
        }
        room[i] = value;
        rest = after;
    }
    Ok((Values::from_slice(alloc, lane_width, &room[..count])?, rest))
}

/// Whether the code of each of 1024 rows is below a count.
fn codes_fit(width: usize, codes: &Words, count: usize) -> bool
    requires words { codes.now.lane_width ≡ 16 }
    requires packed { HasWidth codes.now width }
    ensures value { result ≡ are_codes_below width count codes.now }
    ensures below { IsTrue result ↔ AreCodesBelow width codes.now count }
{
    Dict::codes_fit(width, codes, count)
}

/// The packed codes of a dictionary of a number of values at the front, and what comes after them.
#[tactic(auto, unfolding(crate::specs::VectorBytes::codes))]
fn read_codes(
    alloc: Global,
    total: usize,
    bytes: &[u8],
    width: usize,
    count: usize,
) -> Result<(Words, &[u8]), Refusal>
    requires { width ≤ 16 }
    ensures read { Reads (λ x. (x.0, x.1.now)) result ((codes width count).read total bytes.now) }
    ensures lanes { IfOk result (λ x. x.0.lane_width ≡ 16) }
    ensures width { IfOk result (λ x. HasWidth x.0 width) }
    ensures below { IfOk result (λ x. AreCodesBelow width x.0 count) }
{
    let (codes, rest) = read_words(alloc, total, bytes, 16, width)?;
    if !codes_fit(width, &codes, count) {
        return Err(Refusal::BadCode(place_of(total, bytes)));
    }
    Ok((codes, rest))
}

/// The payload of DICT at the front, and what comes after it.
#[tactic(auto, unfolding(crate::specs::VectorBytes::dict))]
fn read_dict(
    alloc: Global,
    total: usize,
    bytes: &[u8],
    lane_width: usize,
    width: usize,
    count: usize,
) -> Result<(Dict, &[u8]), Refusal>
    requires lane_width { IsLaneWidth lane_width }
    requires width { width ≤ 16 }
    requires count { count ≤ 1024 }
    ensures read { Reads (λ x. (x.0, x.1.now)) result ((dict lane_width width count).read total bytes.now) }
    ensures lanes { IfOk result (λ x. x.0.lane_width ≡ lane_width) }
{
    let (values, rest) = read_dictionary(alloc, total, bytes, lane_width, count)?;
    let (codes, rest) = read_codes(alloc, total, rest, width, count)?;
    Ok((Dict::from_parts(width, values, codes), rest))
}

/// The payload after a header at the front, and what comes after it.
fn read_payload(
    alloc: Global,
    total: usize,
    bytes: &[u8],
    lane_width: usize,
    header: Header,
) -> Result<(Coded, &[u8]), Refusal>
    requires lane_width { IsLaneWidth lane_width }
    requires width { is_width lane_width header.coding header.width ≡ true }
    requires count { is_count header.coding header.count ≡ true }
    ensures read { Reads (λ x. (x.0, x.1.now)) result ((payload lane_width header).read total bytes.now) }
    ensures lanes { IfOk result (λ x. lane_width_of x.0 ≡ lane_width) }
{
    match header.coding {
        Coding::For => {
            let (form, rest) = read_frame(alloc, total, bytes, lane_width, header.width)?;
            Ok((Coded::For(Boxed::new(alloc, form)?), rest))
        }
        Coding::Delta => {
            let (form, rest) = read_deltas(alloc, total, bytes, lane_width, header.width)?;
            Ok((Coded::Delta(Boxed::new(alloc, form)?), rest))
        }
        Coding::Runs => {
            let (form, rest) = read_runs(alloc, total, bytes, lane_width, header.count)?;
            Ok((Coded::Runs(Boxed::new(alloc, form)?), rest))
        }
        Coding::Dict => {
            let (form, rest) = read_dict(
                alloc,
                total,
                bytes,
                lane_width,
                header.width,
                header.count,
            )?;
            Ok((Coded::Dict(Boxed::new(alloc, form)?), rest))
        }
    }
}

/// The coded values at the front, and what comes after them.
#[tactic(auto, unfolding(crate::specs::VectorBytes::coded))]
fn read_coded(
    alloc: Global,
    total: usize,
    bytes: &[u8],
    lane_width: usize,
) -> Result<(Coded, &[u8]), Refusal>
    requires { IsLaneWidth lane_width }
    ensures read { Reads (λ x. (x.0, x.1.now)) result ((coded lane_width).read total bytes.now) }
    ensures lanes { IfOk result (λ x. lane_width_of x.0 ≡ lane_width) }
{
    let (header, rest) = read_header(total, bytes, lane_width)?;
    read_payload(alloc, total, rest, lane_width, header)
}

/// The vector of a number of rows, 1 to 1024, of `lane_width` bits, 8, 16, 32 or 64, at the front of what is left of an input of
/// `total` bytes, and what comes after it. Refused is the first fault of the bytes, or out of memory.
#[tactic(auto, unfolding(crate::specs::VectorBytes::vector))]
pub(crate) fn read_vector(
    alloc: Global,
    total: usize,
    bytes: &[u8],
    lane_width: usize,
    rows: usize,
) -> Result<(CodedVector, &[u8]), Refusal>
    requires lane_width { IsLaneWidth lane_width }
    requires some { 1 ≤ rows }
    requires limit { rows ≤ 1024 }
    ensures read { Reads (λ x. (x.0, x.1.now)) result ((vector lane_width rows).read total bytes.now) }
    ensures rows { IfOk result (λ x. x.0.rows ≡ rows) }
    ensures lanes { IfOk result (λ x. lane_width_of x.0.coded ≡ lane_width) }
    ensures form { IfOk result (λ x. IsVector x.0) }
{
    let (nulls, rest) = read_nulls(alloc, total, bytes, rows)?;
    let (coded, rest) = read_coded(alloc, total, rest, lane_width)?;
    Ok((CodedVector::from_parts(rows as u16, nulls, coded), rest))
}
