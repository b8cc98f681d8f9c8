//! What changes a table.
ghost use Rattle.std.specs.Prelude.{◌≡◌, ◌⊎◌, false, Some, length, OnOk, OnErr, IfOk, IfErr};
ghost use Rattle.std.specs.BTreeMap.{Updates, IsOrdered};
ghost use Rattle.argo_base.specs.Match.{key_cmp};
ghost use Rattle.ring_table.specs.Buckets.{AreEmpty, Made};
ghost use Rattle.ring_table.specs.Edits.{given_back, is_full};

use super::{BUCKETS, Bucket, MOST_ROWS, Table, bucket_of};
use crate::{InsertFault, Row};
use argo_base::{NoMemory, RingKey};
use std::alloc::Global;
use std::collections::BTreeMap;

impl<T> Table<T> {
    ghost use Rattle.std.specs.Prelude.{◌≡◌};
    ghost use Rattle.std.specs.Option.{option_copied_mut};
    ghost use Rattle.std.specs.Borrow.{sem};
    ghost use Rattle.ring_table.specs.Rows.{value_at};
    ghost use Rattle.ring_table.specs.Edits.{without_row};
    ghost use Rattle.ring_table.specs.Lends.{lends_value};

    /// The value of a key, to be written.
    pub fn find_exact_mut(&mut self, key: RingKey) -> Option<&mut T>
        ensures* writes_back { sem 𝓛 (lends_value T.row self.entry key result) }
        ensures value { option_copied_mut result ≡ value_at self.old key }
    {
        let Some(bucket) = self.buckets.get_mut(bucket_of(key)) else {
            return None;
        };
        let Some(row) = bucket.get_mut(&key) else {
            return None;
        };
        Some(&mut row.value)
    }

    /// Takes a key's row out, and gives its value. It takes no memory.
    pub fn remove(&mut self, key: RingKey) -> Option<T>
        ensures value { result ≡ value_at self.old key }
        ensures rest { self.new ≡ without_row self.old key }
    {
        let Some(bucket) = self.buckets.get_mut(bucket_of(key)) else {
            return None;
        };
        let Some(row) = bucket.remove(&key) else {
            return None;
        };
        self.count -= 1;
        Some(row.value)
    }
}

impl<T: Drop> Table<T> {
    ghost use Rattle.std.specs.Prelude.{◌≡◌, ◌==◌, None, length, OnOk, OnErr, IfErr};
    ghost use Rattle.ring_table.specs.Rows.{held_at, most_rows};
    ghost use Rattle.ring_table.specs.Edits.{with_row};

    /// Puts a row in under a key that has none. The first row makes the buckets.
    pub fn insert(&mut self, key: RingKey, serial: u64, value: T) -> Result<(), InsertFault<T>>
        requires { held_at self.old key ≡ None }
        ensures ok { OnOk result (self.new ≡ with_row self.old key serial value) }
        ensures kept { OnErr result (self.new ≡ self.old) }
        ensures given_back { IfErr result (λ fault. given_back fault ≡ value) }
        ensures full { is_full result ≡ (length self.old == most_rows) }
    {
        if self.count == MOST_ROWS {
            return Err(InsertFault::Full(value));
        }
        let Ok(()) = make_buckets(&mut self.buckets) else {
            return Err(InsertFault::NoMemory(value));
        };
        let row = Row { key, serial, value };
        let at = bucket_of(row.key);
        if let Err(fault) = put_row(&mut self.buckets[at], row) {
            return Err(fault);
        }
        self.count += 1;
        Ok(())
    }
}

// Makes all the buckets where there are none.
fn make_buckets<T: Drop>(buckets: &mut Vec<Bucket<T>>) -> Result<(), NoMemory>
    requires { (length buckets.old.items ≡ 0) ⊎ (length buckets.old.items ≡ 8) }
    ensures ok { OnOk result (Made buckets.old.items buckets.new.items) }
    ensures err { OnErr result (buckets.new.items ≡ buckets.old.items) }
{
    if buckets.is_empty() {
        *buckets = empty_buckets(*buckets.allocator())?;
    }
    Ok(())
}

// All the buckets, with nothing in them.
fn empty_buckets<T: Drop>(alloc: Global) -> Result<Vec<Bucket<T>>, NoMemory>
    ensures { IfOk result (λ buckets. (length buckets.items ≡ 8) × AreEmpty buckets.items) }
{
    let mut buckets = Vec::with_capacity(alloc, BUCKETS)?;
    for _made in 0..BUCKETS {
        buckets.push(BTreeMap::new(alloc))?;
    }
    Ok(buckets)
}

// Puts a row in under its key.
fn put_row<T: Drop>(bucket: &mut Bucket<T>, row: Row<T>) -> Result<(), InsertFault<T>>
    ensures ok { OnOk result (Updates key_cmp bucket.old bucket.new row.key (Some row)) }
    ensures kept { OnErr result (bucket.new.entries ≡ bucket.old.entries) }
    ensures given_back { IfErr result (λ fault. given_back fault ≡ row.value) }
    ensures room { is_full result ≡ false }
    ensures ordered { IsOrdered key_cmp bucket.new }
{
    let Err(failed) = bucket.insert(row.key, row) else {
        return Ok(());
    };
    let (_, row) = failed.value;
    Err(InsertFault::NoMemory(row.value))
}
