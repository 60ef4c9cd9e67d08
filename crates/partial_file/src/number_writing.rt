//! Numbers put at the end of bytes.
ghost use Rattle.std.specs.Prelude.{◌≡◌, ◌^◌, ◌<◌, ◌≤◌, ◌++◌, Some, FitsSigned, IfSome, IsSome, IsTrue, OnOk};
ghost use Rattle.std.specs.Int.{w64};
ghost use Rattle.segment_core.specs.Format.{Format, number, signed};
ghost use Rattle.partial_file.specs.PartialAnswerBytes.{cell, extreme, wide};

use byteorder::{ByteOrder, LittleEndian};
use std::alloc::AllocError;

/// Puts a number in `size` bytes, 1 to 8, which it fits, the lowest first.
pub fn push_number(bytes: &mut Vec<u8>, value: u64, size: usize) -> Result<(), AllocError>
    requires low { 1 ≤ size }
    requires high { size ≤ 8 }
    requires fits { value < 256 ^ size }
    ensures put { OnOk result (bytes.new.items ≡ bytes.old.items ++ (number size).spell value) }
    ensures valid { IsTrue ((number size).valid value) }
{
    let mut room = [0; 8];
    LittleEndian::write_uint(&mut room, value, size);
    bytes.extend_from_slice(&room[..size])
}

/// Puts a signed number in 8 bytes.
pub fn push_narrow(bytes: &mut Vec<u8>, value: i64) -> Result<(), AllocError>
    ensures put { OnOk result (bytes.new.items ≡ bytes.old.items ++ (signed 64).spell value) }
    ensures valid { IsTrue ((signed 64).valid value) }
{
    let mut room = [0; 8];
    LittleEndian::write_i64(&mut room, value);
    bytes.extend_from_slice(&room)
}

/// Puts a signed number in 16 bytes.
#[tactic(auto, using(crate::proofs::Spelled::wide_spelled))]
pub fn push_wide(bytes: &mut Vec<u8>, value: i128) -> Result<(), AllocError>
    ensures put { OnOk result (bytes.new.items ≡ bytes.old.items ++ wide.spell value) }
    ensures valid { IsTrue (wide.valid value) }
{
    let mut room = [0; 16];
    LittleEndian::write_i128(&mut room, value);
    bytes.extend_from_slice(&room)
}

/// A number as one of 64 bits, or `None` if it takes more.
pub(crate) fn narrow(value: i128) -> Option<i64>
    ensures value { IfSome result (λ narrow. narrow ≡ value) }
    ensures answers { FitsSigned w64 value → IsSome result }
{
    match i64::try_from(value) {
        Ok(narrow) => Some(narrow),
        Err(_) => None,
    }
}

/// Puts that there is a value of 8 bytes, and the value.
fn push_short(bytes: &mut Vec<u8>, value: i64) -> Result<(), AllocError>
    ensures { OnOk result (bytes.new.items ≡ bytes.old.items ++ ((number 1).spell 1 ++ (signed 64).spell value)) }
{
    push_number(bytes, 1, 1)?;
    push_narrow(bytes, value)?;
    Ok(())
}

/// Puts that there is a value of twice 8 bytes, and the value.
fn push_long(bytes: &mut Vec<u8>, value: i128) -> Result<(), AllocError>
    ensures { OnOk result (bytes.new.items ≡ bytes.old.items ++ ((number 1).spell 2 ++ wide.spell value)) }
{
    push_number(bytes, 2, 1)?;
    push_wide(bytes, value)?;
    Ok(())
}

/// Puts how many times 8 bytes a number takes, and the number.
fn push_value(bytes: &mut Vec<u8>, value: i128) -> Result<(), AllocError>
    ensures { OnOk result (bytes.new.items ≡ bytes.old.items ++ cell.spell (Some value)) }
{
    match narrow(value) {
        Some(short) => push_short(bytes, short),
        None => push_long(bytes, value),
    }
}

/// Puts a key's cell: how many times 8 bytes it takes, and its number.
pub fn push_cell(bytes: &mut Vec<u8>, number: Option<i128>) -> Result<(), AllocError>
    ensures put { OnOk result (bytes.new.items ≡ bytes.old.items ++ cell.spell number) }
    ensures valid { IsTrue (cell.valid number) }
{
    match number {
        None => push_number(bytes, 0, 1),
        Some(value) => push_value(bytes, value),
    }
}

/// Puts whether there is a value, and the value.
pub fn push_extreme(bytes: &mut Vec<u8>, most: Option<i64>) -> Result<(), AllocError>
    ensures put { OnOk result (bytes.new.items ≡ bytes.old.items ++ extreme.spell most) }
    ensures valid { IsTrue (extreme.valid most) }
{
    match most {
        None => push_number(bytes, 0, 1),
        Some(value) => push_short(bytes, value),
    }
}
