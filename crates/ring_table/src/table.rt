//! The table, and what it says of its rows.
ghost use Rattle.std.specs.Prelude.{◌≡◌, ◌<◌, ◌≤◌, [], length, None, option_map, IfNone};
ghost use Rattle.std.specs.Option.{option_copied};
ghost use Rattle.std.specs.List.Sorted.{IsStrictlySortedBy};
ghost use Rattle.std.specs.Map.{keys_of};
ghost use Rattle.argo_base.specs.Match.{key_cmp, match_of, at_key};
ghost use Rattle.ring_table.specs.Rows.{held_at, most_rows, row_of};
ghost use Rattle.ring_table.specs.Buckets as buckets;

mod counted;
mod edits;
mod listing;
mod scan;

use crate::Row;
use argo_base::{DomId, RingKey};
use std::alloc::Global;
use std::collections::BTreeMap;
use std::marker::Model;

/// The most rows of a table: the most rings that a domain may have.
pub const MOST_ROWS: u32 = 128;

const BUCKETS: usize = 8;

type Bucket<T> = BTreeMap<RingKey, Row<T>>;

/// Rows by their keys.
#[derive(Drop)]
pub struct Table<T> {
    buckets: Vec<Bucket<T>>,
    count: u32,
}

impl<T> Model for Table<T> {
    ghost use Rattle.std.specs.Prelude.{ℕ, List};
    ghost use Rattle.argo_base.specs.declared.ring_key.RingKey.{RingKey as Key};
    ghost use Rattle.ring_table.specs.Rows.{Held};
    ghost use Rattle.ring_table.specs.Buckets.{rows_in, IsTable};

    ghost Value = { List (Key × Held T) };

    ghost view = { λ t. rows_in t.buckets.items };

    ghost invariant = { λ t. IsTable t.buckets.items t.count };
}

// The bucket of a key.
fn bucket_of(key: RingKey) -> usize
    ensures which { result ≡ buckets.bucket_of key }
    ensures below { result < 8 }
{
    (((key.port as u64) + (key.partner.0 as u64)) % 8) as usize
}

impl<T> Table<T> {
    /// An empty table. It takes no memory.
    pub fn new(alloc: Global) -> Self
        ensures { result ≡ [] }
    {
        Table {
            buckets: Vec::new(alloc),
            count: 0,
        }
    }

    /// How many rows there are.
    pub fn count(&self) -> u32
        ensures value { result ≡ length self.now }
        ensures most { length self.now ≤ most_rows }
        ensures rising { IsStrictlySortedBy key_cmp (keys_of self.now) }
    {
        self.count
    }

    /// The row of a key.
    pub fn find_exact(&self, key: RingKey) -> Option<&Row<T>>
        ensures value { option_copied result ≡ option_map row_of (at_key self.now key) }
        ensures absent { IfNone result (held_at self.now key ≡ None) }
    {
        let Some(bucket) = self.buckets.get(bucket_of(key)) else {
            return None;
        };
        bucket.get(&key)
    }

    /// The row that a sender meets at a port: that of the port and the sender, else that of the port and `DomId::ANY`.
    pub fn find(&self, port: u32, sender: DomId) -> Option<&Row<T>>
        ensures { option_copied result ≡ option_map row_of (match_of self.now port sender) }
    {
        let exact = RingKey {
            port,
            partner: sender,
        };
        if let Some(row) = self.find_exact(exact) {
            return Some(row);
        }
        self.find_exact(RingKey {
            port,
            partner: DomId::ANY,
        })
    }
}
