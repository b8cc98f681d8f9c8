ghost use Rattle.std.specs.Prelude.{◌≡◌, ◌<◌, ◌≤◌, ◌*◌, false, take, length, ◌++◌, OnOk};
ghost use Rattle.std.specs.String.{string_bytes};
ghost use Rattle.std.specs.Fmt.{digit_glyph};
ghost use Rattle.argo_model.specs.Runs.Report.{hex_of};

use std::alloc::AllocError;
use std::str;

// The most bytes whose digits are made at once.
const PART_BYTES: usize = 32;

/// Adds two digits a byte.
pub(crate) fn push_hex(text: &mut String, bytes: &[u8]) -> Result<(), AllocError>
    ensures { OnOk result (string_bytes text.new ≡ string_bytes text.old ++ hex_of bytes.now) }
{
    let mut rest = bytes;
    while !rest.is_empty() {
        let (part, others) = rest.split_at(PART_BYTES.min(rest.len()));
        push_part(text, part)?;
        rest = others;
    }
    Ok(())
}

fn push_part(text: &mut String, part: &[u8]) -> Result<(), AllocError>
    requires { length part.now ≤ PART_BYTES }
    ensures { OnOk result (string_bytes text.new ≡ string_bytes text.old ++ hex_of part.now) }
{
    let digits = digits_of(part);
    let (digits, _) = digits.split_at(2 * part.len());
    text.push_str(str::from_utf8(digits).unwrap())
}

// The digits of a part, and then zeros.
fn digits_of(part: &[u8]) -> [u8; 64]
    requires { length part.now ≤ PART_BYTES }
    ensures { take (2 * length part.now) result ≡ hex_of part.now }
{
    let mut digits = [0; 64];
    for (i, byte) in part.iter().enumerate() {
        digits[2 * i] = glyph(byte / 16);
        digits[2 * i + 1] = glyph(byte % 16);
    }
    digits
}

fn glyph(digit: u8) -> u8
    requires { digit < 16 }
    ensures { result ≡ digit_glyph false digit }
{
    if digit < 10 {
        b'0' + digit
    } else {
        b'a' - 10 + digit
    }
}
