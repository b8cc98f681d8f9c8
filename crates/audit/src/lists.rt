//! Lists of numbers, place by place.
ghost use Rattle.std.specs.Prelude.{◌≡◌, ◌<◌, ◌^◌, slice_index_or, length, max};
ghost use Rattle.audit.specs.First.{lists_differ, places};

use crate::values::{Values, differ};

/// How two lists of bytes differ. One that has ended has the number `ended`.
pub(crate) fn bytes_differ(ended: u64, threads: &[u8], machine: &[u8]) -> Option<Values>
    ensures { result ≡ lists_differ ended threads.now machine.now }
{
    for at in 0..threads.len().max(machine.len()) {
        let found = differ(byte_at(threads, at, ended), byte_at(machine, at, ended));
        if found.is_some() {
            return found;
        }
    }
    None
}

fn byte_at(bytes: &[u8], at: usize, ended: u64) -> u64
    ensures { result ≡ slice_index_or bytes.now at ended }
{
    match bytes.get(at) {
        Some(byte) => u64::from(*byte),
        None => ended,
    }
}

/// How two lists of numbers differ. One that has ended has the number `ended`.
pub(crate) fn numbers_differ(ended: u64, threads: &[u64], machine: &[u64]) -> Option<Values>
    ensures { result ≡ lists_differ ended threads.now machine.now }
{
    for at in 0..threads.len().max(machine.len()) {
        let found = differ(number_at(threads, at, ended), number_at(machine, at, ended));
        if found.is_some() {
            return found;
        }
    }
    None
}

fn number_at(numbers: &[u64], at: usize, ended: u64) -> u64
    ensures { result ≡ slice_index_or numbers.now at ended }
{
    match numbers.get(at) {
        Some(number) => *number,
        None => ended,
    }
}
