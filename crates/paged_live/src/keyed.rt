//! Rings that are found, and ended, by their keys.
ghost use Rattle.std.specs.Prelude.{◌≡◌};

use crate::live::Live;
use argo_base::{DomId, RingKey};
use live_domain::KeyedRings;

impl KeyedRings for Live {
    fn has_ring(&self, key: RingKey) -> bool {
        self.rings.find_exact(key).is_some()
    }

    fn ring_count(&self) -> usize {
        self.rings.count() as usize
    }

    fn first_ring(&self) -> Option<RingKey> {
        self.lowest_key()
    }

    fn next_ring(&self, after: u64) -> Option<RingKey> {
        let Some(row) = self.rings.after(after) else {
            return None;
        };
        Some(row.key)
    }

    fn is_noted(&self, key: RingKey, dom: DomId) -> bool {
        let Some(row) = self.rings.find_exact(key) else {
            return false;
        };
        row.value.notices().size(dom).is_some()
    }

    fn noted(&self, key: RingKey) -> &[(DomId, u32)] {
        let Some(row) = self.rings.find_exact(key) else {
            return &[];
        };
        row.value.notices().as_slice()
    }

    fn end_ring(&mut self, key: RingKey) {
        self.take_ring(key);
    }

    fn forget_notice(&mut self, key: RingKey, dom: DomId) {
        self.end_notice(key, dom);
    }
}
