//! The rows by their serials, and by their keys.
ghost use Rattle.std.specs.Prelude.{◌≡◌, None};
ghost use Rattle.std.specs.Option.{option_copied};
ghost use Rattle.ring_table.specs.Scans as scans;

use super::{Bucket, Table};
use crate::Row;

impl<T> Table<T> {
    ghost use Rattle.std.specs.Prelude.{slice_get, option_map, IfSome, IfNone};
    ghost use Rattle.ring_table.specs.Rows.{entry_of};
    ghost use Rattle.ring_table.specs.Serials.{NoneAbove, IsNext};

    /// The row with the least serial above: from 0 on, one after another, every row whose serial is not 0.
    pub fn after(&self, serial: u64) -> Option<&Row<T>>
        ensures some { IfSome result (λ row. IsNext self.now serial row.now) }
        ensures none { IfNone result (NoneAbove self.now serial) }
    {
        next_of(self.buckets.as_slice(), serial)
    }

    /// The row with the least key: taken out one after another, the rows come by rising key.
    pub fn first(&self) -> Option<&Row<T>>
        ensures { option_map entry_of (option_copied result) ≡ slice_get self.now 0 }
    {
        first_of(self.buckets.as_slice())
    }
}

fn first_of<T>(buckets: &[Bucket<T>]) -> Option<&Row<T>>
    ensures { option_copied result ≡ scans.first_of None buckets.now }
{
    let mut best = None;
    for bucket in buckets {
        best = first_in(best, bucket);
    }
    best
}

// The best so far, and the first row of a bucket.
fn first_in<'a, T>(best: Option<&'a Row<T>>, bucket: &'a Bucket<T>) -> Option<&'a Row<T>>
    ensures { option_copied result ≡ scans.first_in (option_copied best.entry) bucket.now }
{
    let Some((_, row)) = bucket.first_key_value() else {
        return best;
    };
    match best {
        Some(best) if best.key <= row.key => Some(best),
        _ => Some(row),
    }
}

fn next_of<T>(buckets: &[Bucket<T>], serial: u64) -> Option<&Row<T>>
    ensures { option_copied result ≡ scans.next_of serial None buckets.now }
{
    let mut best = None;
    for bucket in buckets {
        best = next_in(best, bucket, serial);
    }
    best
}

// The best of those so far and of a bucket.
fn next_in<'a, T>(
    start: Option<&'a Row<T>>,
    bucket: &'a Bucket<T>,
    serial: u64,
) -> Option<&'a Row<T>>
    ensures { option_copied result ≡ scans.next_in serial (option_copied start.entry) bucket.now }
{
    if bucket.is_empty() {
        return start;
    }
    let mut best = start;
    for row in bucket.values() {
        best = nearer(best, row, serial);
    }
    best
}

// The best so far, and a row which counts where its serial is above.
fn nearer<'a, T>(best: Option<&'a Row<T>>, row: &'a Row<T>, serial: u64) -> Option<&'a Row<T>>
    ensures { option_copied result ≡ scans.nearer serial (option_copied best.entry) row.now }
{
    if row.serial <= serial {
        return best;
    }
    match best {
        Some(best) if best.serial <= row.serial => Some(best),
        _ => Some(row),
    }
}
