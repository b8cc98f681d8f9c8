//! A sink that compares what is written with a report, so that the text of the right report never stands in memory.

ghost use Rattle.std.specs.Prelude.{◌≡◌, ◌≢◌, ℕ, ◌≤◌, Some, None, length, take, slice_get, count_by, MatchOption};
ghost use Rattle.std.specs.Option.{ForSome, ForNone};
ghost use Rattle.argo_check.specs.Comparing.{told_of, IsWhole, IsOffIn};
ghost use Rattle.argo_check.specs.Differences.{is_line_feed};

use argo_outside::{Failed, Sink};

/// What was written is the first bytes of the report, and where it then goes on otherwise, one byte more. After that byte each
/// write is a fault.
#[derive(Debug, Drop)]
pub(crate) struct Comparer<'a> {
    report: &'a [u8],
    /// How many bytes of the report were written.
    same: usize,
    /// The first byte that was written in place of the report's next byte, or behind its end.
    other: Option<u8>,
    faults: u64,
    ghost within: { same ≤ length report.now },
    ghost differs: { ForSome other (λ byte. slice_get report.now same ≢ Some byte) },
    ghost stuck: { ForNone other (faults ≡ 0) },
}

impl<'a> Comparer<'a> {
    pub(crate) fn new(report: &'a [u8]) -> Comparer<'a>
        ensures report { result.report.now ≡ report.now }
        ensures same { result.same ≡ 0 }
        ensures other { result.other ≡ None }
        ensures faults { result.faults ≡ 0 }
    {
        Comparer {
            report,
            same: 0,
            other: None,
            faults: 0,
        }
    }

    /// The line, from 1, of the first byte at which the report differs from what was written, where that is all. None where it is
    /// the same.
    pub(crate) fn difference(&self) -> Option<u64>
        ensures { MatchOption result (IsWhole self.now.report.now self.now.same self.now.other)
            (λ line. IsOffIn line self.now.report.now self.now.same self.now.other) }
    {
        if self.other.is_none() && self.same == self.report.len() {
            return None;
        }
        let (same, _) = self.report.split_at(self.same);
        Some(line_feeds(same) + 1)
    }
}

impl Sink for Comparer<'_> {
    ghost written = { λ c. Some (told_of c.report.now c.same c.other) };

    ghost faults = { λ c. c.faults };

    fn write(&mut self, piece: &[u8]) -> Result<usize, Failed> {
        if self.other.is_some() {
            self.faults = self.faults.saturating_add(1);
            return Err(Failed);
        }
        let (_, rest) = self.report.split_at(self.same);
        let count = same_bytes(rest, piece);
        self.same += count;
        if count == piece.len() {
            return Ok(count);
        }
        let byte = piece[count];
        self.other = Some(byte);
        Ok(count + 1)
    }
}

// How many bytes at the start of two texts are the same.
fn same_bytes(one: &[u8], other: &[u8]) -> usize
    ensures within { (result ≤ length one.now) × (result ≤ length other.now) }
    ensures same { take result one.now ≡ take result other.now }
    ensures stops { (byte : ℕ) → slice_get other.now result ≡ Some byte
        → slice_get one.now result ≢ Some byte }
{
    let most = one.len().min(other.len());
    for at in 0..most {
        if one[at] != other[at] {
            return at;
        }
    }
    most
}

fn line_feeds(text: &[u8]) -> u64
    ensures count { result ≡ count_by is_line_feed text.now }
    ensures few { result ≤ length text.now }
{
    text.iter().filter(|byte| **byte == b'\n').count() as u64
}
