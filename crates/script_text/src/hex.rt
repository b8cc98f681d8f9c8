ghost use Rattle.std.specs.Prelude.{◌≡◌, ◌+◌, ◌*◌, ◌<◌, length, IfOk, IsTrue};
ghost use Rattle.argo_model.specs.Runs.Script.{is_short};
ghost use Rattle.std.specs.Char.{digit_value};
ghost use Rattle.std.specs.List.{list_all};
ghost use Rattle.script_text.specs.Numbers.{is_hex_digit, is_hex, bytes_of};

use crate::numbers::digit;
use argo_base::{Bytes, NoMemory};
use std::alloc::Global;

fn are_hex_digits(word: &[u8]) -> bool
    ensures { result ≡ list_all is_hex_digit word.now }
{
    word.iter().all(|byte| digit(*byte) < 16)
}

/// Whether a word stands for bytes.
pub(crate) fn is_hex(word: &[u8]) -> bool
    ensures { result ≡ is_hex word.now }
{
    !word.is_empty() && word.len() % 2 == 0 && are_hex_digits(word)
}

/// Whether it stands for 1 to 64 bytes.
pub(crate) fn is_short_hex(word: &[u8]) -> bool
    requires { IsTrue (is_hex word.now) }
    ensures { result ≡ is_short (length (bytes_of word.now)) }
{
    word.len() <= 128
}

fn byte_of(high: u8, low: u8) -> u8
    requires high { digit_value high < 16 }
    requires low { digit_value low < 16 }
    ensures { result ≡ 16 * digit_value high + digit_value low }
{
    16 * digit(high) + digit(low)
}

/// The bytes that a word stands for.
pub(crate) fn bytes_of(alloc: Global, word: &[u8]) -> Result<Bytes, NoMemory>
    requires { IsTrue (is_hex word.now) }
    ensures { IfOk result (λ bytes. bytes ≡ bytes_of word.now) }
{
    let mut bytes = Bytes::new(alloc);
    let mut rest = word;
    while let [high, low, after @ ..] = rest {
        bytes.push(byte_of(*high, *low))?;
        rest = after;
    }
    Ok(bytes)
}
