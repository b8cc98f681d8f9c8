//! The keys, by rising order.
ghost use Rattle.std.specs.Prelude.{◌≡◌, [], IfOk, OnOk};
ghost use Rattle.ring_table.specs.Listing as listing;

use super::{Bucket, Table};
use argo_base::{NoMemory, RingKey};
use std::alloc::Global;
use std::collections::BTreeMap;

impl<T> Table<T> {
    /// Each key with its row's serial, by rising key.
    pub fn serials(&self, alloc: Global) -> Result<BTreeMap<RingKey, u64>, NoMemory>
        ensures { IfOk result (λ serials. serials.entries ≡ listing.serials_of self.now) }
    {
        list_all(alloc, self.buckets.as_slice())
    }
}

fn list_all<T>(alloc: Global, buckets: &[Bucket<T>]) -> Result<BTreeMap<RingKey, u64>, NoMemory>
    ensures { IfOk result (λ serials. serials.entries ≡ listing.listed_of [] buckets.now) }
{
    let mut serials = BTreeMap::new(alloc);
    for bucket in buckets {
        list(&mut serials, bucket)?;
    }
    Ok(serials)
}

// Puts the keys of a bucket in, each with its row's serial.
fn list<T>(serials: &mut BTreeMap<RingKey, u64>, bucket: &Bucket<T>) -> Result<(), NoMemory>
    ensures { OnOk result
        (serials.new.entries ≡ listing.listed_in serials.old.entries bucket.now.entries) }
{
    for (key, row) in bucket {
        serials.insert(*key, row.serial)?;
    }
    Ok(())
}
