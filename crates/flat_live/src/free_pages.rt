//! Which pages a ring may stand on.
ghost use Rattle.std.specs.Prelude.{◌≡◌, ◌/◌, ◌<◌, length, IfOk, IsTrue, IsFalse};
ghost use Rattle.std.specs.BTreeMap.{is_at};
ghost use Rattle.argo_base.specs.Match.{key_cmp};
ghost use Rattle.argo_model.specs.Rules.Register.{are_free_for};
ghost use Rattle.flat_live.specs.FreePages.{is_taken, with_pages, with_others, are_free_in};
ghost use Rattle.flat_live.specs.Memory.{are_there, stand_in};

use crate::live::Live;
use crate::ring::Ring;
use argo_base::{NoMemory, RingKey};
use std::alloc::Global;
use std::collections::BTreeMap;

impl Live {
    /// Whether a ring of this key may stand on the pages: the domain has each of them, once, and no other ring stands on one.
    pub(crate) fn are_free_for(
        &self,
        alloc: Global,
        key: &RingKey,
        pages: &[u64],
    ) -> Result<bool, NoMemory>
        ensures { IfOk result (λ free. free ≡ are_free_for self.now key.now pages.now) }
    {
        let mut table = vec![in alloc; false; self.bytes.len() / 4096]?;
        let taken = table.as_mut_slice();
        take_others(taken, &self.rings, key);
        Ok(take_if_free(taken, pages))
    }
}

// Takes the pages of all rings but the one of this key.
fn take_others(table: &mut [bool], rings: &BTreeMap<RingKey, Ring>, key: &RingKey)
    requires { IsTrue (stand_in (length table.old) rings.now.entries) }
    ensures { table.new ≡ with_others key.now table.old rings.now.entries }
{
    for (other, ring) in rings {
        if !is_same(key, other) {
            take(table, ring.pages.as_slice());
        }
    }
}

fn is_same(key: &RingKey, other: &RingKey) -> bool
    ensures { result ≡ is_at (key_cmp key.now) other.now }
{
    key.cmp(other).is_eq()
}

fn take(table: &mut [bool], pages: &[u64])
    requires { IsTrue (are_there (length table.old) pages.now) }
    ensures { table.new ≡ with_pages table.old pages.now }
{
    for page in pages {
        table[*page as usize] = true;
    }
}

// Whether each page is free when its turn comes, where it is then taken.
fn take_if_free(table: &mut [bool], pages: &[u64]) -> bool
    ensures { result ≡ are_free_in table.old pages.now }
{
    for page in pages {
        if is_taken(table, *page) {
            return false;
        }
        table[*page as usize] = true;
    }
    true
}

fn is_taken(table: &[bool], page: u64) -> bool
    ensures is { result ≡ is_taken table.now page }
    ensures inside { IsFalse result → page < length table.now }
{
    table.get(page as usize).copied().unwrap_or(true)
}
