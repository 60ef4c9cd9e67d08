//! A text as a line shows it, and as a string of JSON.
ghost use Rattle.std.specs.Prelude.{◌≡◌, ◌<◌, ◌++◌, map, OnOk};
ghost use Rattle.partial_commands.specs.Coverage.{hex_digit, is_escaped, json_byte, json_text, shown_byte};

use std::alloc::AllocError;

/// A byte as a line shows it.
fn shown_byte(byte: u8) -> u8
    ensures { result ≡ shown_byte byte }
{
    if 32 <= byte && byte <= 126 { byte } else { 32 }
}

/// Puts a text as a line shows it behind another.
pub(crate) fn push_shown(out: &mut Vec<u8>, text: &[u8]) -> Result<(), AllocError>
    ensures { OnOk result (out.new.items ≡ out.old.items ++ map shown_byte text.now) }
{
    for byte in text {
        out.push(shown_byte(*byte))?;
    }
    Ok(())
}

/// A digit of a number to base 16.
fn hex_digit(value: u8) -> u8
    requires { value < 16 }
    ensures { result ≡ hex_digit value }
{
    if value < 10 { 48 + value } else { 87 + value }
}

/// Whether a byte can't stand in a string of JSON as it is.
fn is_escaped(byte: u8) -> bool
    ensures { result ≡ is_escaped byte }
{
    byte < 32 || byte == 34 || byte == 92
}

/// Puts a byte of a string of JSON behind a text.
fn push_json_byte(out: &mut Vec<u8>, byte: u8) -> Result<(), AllocError>
    ensures { OnOk result (out.new.items ≡ out.old.items ++ json_byte byte) }
{
    if !is_escaped(byte) {
        out.push(byte)?;
        return Ok(());
    }
    out.extend_from_slice(b"\\u00")?;
    out.push(hex_digit(byte / 16))?;
    out.push(hex_digit(byte % 16))?;
    Ok(())
}

/// Puts a string of JSON, without its quotes, behind a text.
pub(crate) fn push_json(out: &mut Vec<u8>, text: &[u8]) -> Result<(), AllocError>
    ensures { OnOk result (out.new.items ≡ out.old.items ++ json_text text.now) }
{
    for byte in text {
        push_json_byte(out, *byte)?;
    }
    Ok(())
}
