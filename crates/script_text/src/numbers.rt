ghost use Rattle.std.specs.Prelude.{◌≡◌, ◌+◌, ◌*◌, ◌^◌, ◌<◌, ◌≤◌, ◌&&◌, nat_lt, if◌then◌else◌, Some, None};
ghost use Rattle.std.specs.Char.{digit_value, is_digit};
ghost use Rattle.script_text.specs.Numbers.{value_of, decimal_of, hexadecimal_of, number_of};
ghost use Rattle.script_text.specs.Entries.{number};

use crate::kind::ScriptKind;

/// The value of a digit of either case, and 36 for a byte that is none.
pub(crate) fn digit(byte: u8) -> u8
    ensures value { result ≡ digit_value byte }
    ensures small { result ≤ 36 }
{
    match byte {
        b'0'..=b'9' => byte - b'0',
        b'A'..=b'Z' => byte - b'A' + 10,
        b'a'..=b'z' => byte - b'a' + 10,
        _ => 36,
    }
}

// The value with one digit more, below 2^64.
fn next_value(value: u64, base: u8, byte: u8) -> Option<u64>
    ensures { result ≡ (
        if is_digit byte base && nat_lt (value * base + digit_value byte) (2 ^ 64)
        then Some (value * base + digit_value byte) else None) }
{
    let digit = digit(byte);
    if digit >= base {
        return None;
    }
    value
        .checked_mul(u64::from(base))?
        .checked_add(u64::from(digit))
}

// The value of digits, if they are digits of the base and it is below 2^64.
fn value_of(base: u8, digits: &[u8]) -> Option<u64>
    requires { 0 < base }
    ensures { result ≡ value_of base digits.now }
{
    let mut value = 0;
    for byte in digits {
        value = next_value(value, base, *byte)?;
    }
    Some(value)
}

fn decimal_of(word: &[u8]) -> Option<u64>
    ensures { result ≡ decimal_of word.now }
{
    let (first, others) = word.split_first()?;
    if *first == b'0' && !others.is_empty() {
        return None;
    }
    value_of(10, word)
}

fn hexadecimal_of(digits: &[u8]) -> Option<u64>
    ensures { result ≡ hexadecimal_of digits.now }
{
    if digits.is_empty() || digits.len() > 16 {
        return None;
    }
    value_of(16, digits)
}

fn number_of(word: &[u8]) -> Option<u64>
    ensures { result ≡ number_of word.now }
{
    match word.strip_prefix(b"0x".as_slice()) {
        Some(digits) => hexadecimal_of(digits),
        None => decimal_of(word),
    }
}

/// The number that a word of a script stands for.
pub(crate) fn number(word: &[u8]) -> Result<u64, ScriptKind>
    ensures { result ≡ number word.now }
{
    number_of(word).ok_or(ScriptKind::Number)
}
