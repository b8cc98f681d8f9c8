//! What another domain had with the rings of a domain ends.
ghost use Rattle.std.specs.Prelude.{IfSome, IfNone};
ghost use Rattle.paged_live.specs.Forgets.{Forgot, IsAbove, NoneIsAbove};

use crate::live::Live;
use argo_base::{DomId, RingKey};

impl Live {
    /// The ring with the least serial above: its key, and its serial.
    pub(crate) fn ring_above(&self, serial: u64) -> Option<(RingKey, u64)>
        ensures some { IfSome result (λ e. IsAbove self.now serial e.0 e.1) }
        ensures none { IfNone result (NoneIsAbove self.now serial) }
    {
        let Some(row) = self.rings.after(serial) else {
            return None;
        };
        Some((row.key, row.serial))
    }

    /// Ends the ring where it is for the domain alone, and else the domain's notice on it.
    pub(crate) fn forget_on(&mut self, key: RingKey, dom: DomId)
        ensures { Forgot dom key self.old self.new }
    {
        self.rings.count();
        if key.partner == dom {
            self.take_ring(key);
            return;
        }
        self.end_notice(key, dom);
    }
}
