// Numbers and bytes as they are written, by their digits.
ghost use Rattle.std.specs.Prelude.{◌≡◌, ◌<◌, ◌≤◌, ◌++◌, OnOk, decimal, drop, false};
ghost use Rattle.std.specs.Fmt.{digit_glyph, signed_decimal};
ghost use Rattle.mem_base.specs.script.RefusalLines.{hex};
ghost use Rattle.mem_base.specs.script.Printing.{bytes_text};

use std::alloc::AllocError;

/// The glyph of a hexadecimal digit, in lower case.
pub fn glyph(digit: u8) -> u8
    requires { digit < 16 }
    ensures { result ≡ digit_glyph false digit }
{
    if digit < 10 {
        b'0' + digit
    } else {
        b'a' + (digit - 10)
    }
}

/// Adds bytes to a text, two lower-case digits each.
pub fn push_bytes(text: &mut Vec<u8>, bytes: &[u8]) -> Result<(), AllocError>
    ensures { OnOk result (text.new.items ≡ text.old.items ++ bytes_text bytes.now) }
{
    for byte in bytes {
        text.push(glyph(*byte / 16))?;
        text.push(glyph(*byte % 16))?;
    }
    Ok(())
}

// Writes the digits of a number at the end of a buffer, and gives where they begin.
fn fill_hex(number: u128, digits: &mut [u8; 64]) -> usize
    ensures bound { result ≤ 64 }
    ensures value { drop result digits.new ≡ hex number }
{
    let mut start = 64;
    let mut rest = number;
    while start > 0 {
        start -= 1;
        digits[start] = glyph((rest % 16) as u8);
        rest /= 16;
        if rest == 0 {
            break;
        }
    }
    start
}

// The same in decimal.
fn fill_decimal(number: u64, digits: &mut [u8; 64]) -> usize
    ensures bound { result ≤ 64 }
    ensures value { drop result digits.new ≡ decimal number }
{
    let mut start = 64;
    let mut rest = number;
    while start > 0 {
        start -= 1;
        digits[start] = glyph((rest % 10) as u8);
        rest /= 10;
        if rest == 0 {
            break;
        }
    }
    start
}

/// Adds a number in hexadecimal to a text.
pub fn push_hex(text: &mut Vec<u8>, number: u128) -> Result<(), AllocError>
    ensures { OnOk result (text.new.items ≡ text.old.items ++ hex number) }
{
    let mut digits = [0u8; 64];
    let start = fill_hex(number, &mut digits);
    text.extend_from_slice(&digits[start..])?;
    Ok(())
}

/// Adds a number in decimal to a text.
pub fn push_decimal(text: &mut Vec<u8>, number: u64) -> Result<(), AllocError>
    ensures { OnOk result (text.new.items ≡ text.old.items ++ decimal number) }
{
    let mut digits = [0u8; 64];
    let start = fill_decimal(number, &mut digits);
    text.extend_from_slice(&digits[start..])?;
    Ok(())
}

/// Adds a number in decimal to a text, with `-` before a negative one.
pub fn push_signed(text: &mut Vec<u8>, number: i32) -> Result<(), AllocError>
    ensures { OnOk result (text.new.items ≡ text.old.items ++ signed_decimal number) }
{
    let size = u64::from(number.unsigned_abs());
    if number < 0 {
        text.push(b'-')?;
        push_decimal(text, size)?;
        Ok(())
    } else {
        push_decimal(text, size)?;
        Ok(())
    }
}
