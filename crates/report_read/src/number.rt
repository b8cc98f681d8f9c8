//! Decimal numbers at the start of a text.

ghost use Rattle.std.specs.Prelude.{◌≡◌, ◌≢◌, ℕ, ◌^◌, ◌<◌, ◌++◌, MatchOption};
ghost use Rattle.std.specs.Fmt.{decimal};
ghost use Rattle.std.specs.Str.Parse.{AllDigits};
ghost use Rattle.report_read.specs.Numbers.{IsNumberThen, HasNoNumber, NoDigitNext};

use std::str;

/// The number below 2^64 at the start of a text, written as a report writes it, and what stands behind its digits.
pub(crate) fn number(text: &[u8]) -> Option<(u64, &[u8])>
    ensures { MatchOption result (HasNoNumber text.now) (λ x. IsNumberThen text.now x.0 x.1.now) }
{
    let (digits, rest) = split_digits(text);
    Some((value_of(digits)?, rest))
}

// The digits at the start of a text, and what stands behind them.
fn split_digits(text: &[u8]) -> (&[u8], &[u8])
    ensures whole { text.now ≡ result.0.now ++ result.1.now }
    ensures digits { AllDigits 10 result.0.now }
    ensures stops { NoDigitNext result.1.now }
{
    for (end, byte) in text.iter().enumerate() {
        if !byte.is_ascii_digit() {
            return text.split_at(end);
        }
    }
    text.split_at(text.len())
}

// The number that digits spell, unless they begin with a zero that a report would not write.
fn value_of(digits: &[u8]) -> Option<u64>
    requires { AllDigits 10 digits.now }
    ensures { MatchOption result ((n : ℕ) → n < 2 ^ 64 → digits.now ≢ decimal n)
        (λ n. (digits.now ≡ decimal n) × (n < 2 ^ 64)) }
{
    if digits.len() > 1 && digits[0] == b'0' {
        return None;
    }
    let Ok(text) = str::from_utf8(digits) else {
        return None;
    };
    text.parse::<u64>().ok()
}
