//! Names of files, as they are printed.

ghost use Rattle.std.specs.Prelude.{◌≡◌, ◌<◌, ◌++◌, IfOk, OnOk, string_bytes};
ghost use Rattle.std.specs.List.{flat_map};
ghost use Rattle.ssim_program.specs.print.Names.{digit_16, escaped_byte, is_direction, is_escaped};
ghost use Rattle.ssim_program.specs.print.Names.{printed_char, printed_name};

use ssim_values::Memory;
use std::alloc::Global;

/// A digit of base 16.
fn digit_16(value: u8) -> u8
    requires { value < 16 }
    ensures value { result ≡ digit_16 value }
    ensures ascii { result < 128 }
{
    if value < 10 { 48 + value } else { 87 + value }
}

/// Adds an escaped byte.
fn push_byte(printed: &mut String, byte: u8) -> Result<(), Memory>
    ensures { OnOk result
        (string_bytes printed.new ≡ string_bytes printed.old ++ escaped_byte byte) }
{
    printed.push_str("\\x")?;
    printed.push(char::from(digit_16(byte / 16)))?;
    printed.push(char::from(digit_16(byte % 16)))?;
    Ok(())
}

/// Adds escaped bytes.
fn push_escaped(printed: &mut String, bytes: &[u8]) -> Result<(), Memory>
    ensures { OnOk result
        (string_bytes printed.new ≡ string_bytes printed.old ++ flat_map escaped_byte bytes.now) }
{
    for byte in bytes {
        push_byte(printed, *byte)?;
    }
    Ok(())
}

/// Whether a character changes the direction of the characters after it.
fn is_direction(c: char) -> bool
    ensures { result ≡ is_direction c }
{
    let code = c as u32;
    (0x202A <= code && code <= 0x202E) || (0x2066 <= code && code <= 0x2069)
}

/// Whether a character of a name is escaped.
fn is_escaped(c: char) -> bool
    ensures { result ≡ is_escaped c }
{
    c.is_control() || c == '\\' || is_direction(c)
}

/// Adds a character of a name.
fn push_char(printed: &mut String, c: char) -> Result<(), Memory>
    ensures { OnOk result
        (string_bytes printed.new ≡ string_bytes printed.old ++ printed_char c) }
{
    if is_escaped(c) {
        let mut buffer = [0; 4];
        push_escaped(printed, c.encode_utf8(&mut buffer).as_bytes())
    } else {
        printed.push(c)?;
        Ok(())
    }
}

/// A name as it is printed, on one line and with nothing that a terminal acts on.
pub(crate) fn printed_name(alloc: Global, name: &str) -> Result<String, Memory>
    ensures { IfOk result (λ printed. string_bytes printed ≡ printed_name name.now) }
{
    let mut printed = String::new(alloc);
    for c in name.chars() {
        push_char(&mut printed, c)?;
    }
    Ok(printed)
}
