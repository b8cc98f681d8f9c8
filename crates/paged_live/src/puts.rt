//! Puts into the pages of a domain.
ghost use Rattle.std.specs.Prelude.{◌≡◌, ◌+◌, ◌*◌, ◌<◌, ◌≤◌, IfOk, OnOk, OnErr, length};
ghost use Rattle.argo_base.specs.Limits.{page_bytes};
ghost use Rattle.argo_model.specs.Rules.Act as acts;
ghost use Rattle.argo_model.specs.Rules.Effects as effects;
ghost use Rattle.paged_live.specs.Parts.{StandsStill};
ghost use Rattle.ring_core.specs.Held.{Becomes};
ghost use Rattle.ring_core.specs.Puts.{put_in};

use crate::home::home_at;
use crate::live::Live;
use argo_base::{NoMemory, PAGE_BYTES};
use argo_model::Outcome;
use ring_core::Ring;

impl Live {
    /// Puts bytes at an offset of a page. A page that stands in no ring takes its memory at its first put.
    pub(crate) fn put_bytes(
        &mut self,
        page: u64,
        off: u32,
        bytes: &[u8],
    ) -> Result<Outcome, NoMemory>
        requires { off + length bytes.now ≤ 4096 }
        ensures outcome { IfOk result
            (λ o. o ≡ (acts.put self.old page off bytes.now).outcome) }
        ensures left { OnOk result
            (self.new ≡ effects.after self.old (acts.put self.old page off bytes.now)) }
        ensures err { OnErr result (self.new ≡ self.old) }
    {
        let found = self.private.write(page, off, bytes)?;
        if found {
            return Ok(Outcome::Done);
        }
        let Some(home) = home_at(self.homes.as_slice(), page) else {
            return Ok(Outcome::Fault);
        };
        let Some(ring) = self.rings.find_exact_mut(home.key) else {
            return Ok(Outcome::Fault);
        };
        put_into(ring, home.place, off, bytes);
        Ok(Outcome::Done)
    }
}

// Puts bytes at an offset of the page at a place of a ring.
fn put_into(ring: &mut Ring, place: u32, off: u32, bytes: &[u8])
    requires inside { place < length ring.old.row }
    requires in_page { off + length bytes.now ≤ 4096 }
    ensures left { Becomes ring.old ring.new
        (λ p. put_in p (page_bytes * place + off) bytes.now) }
    ensures still { StandsStill ring.old ring.new }
{
    ring.len();
    if bytes.is_empty() {
        ring.row().count();
        return;
    }
    ring.write(PAGE_BYTES * place + off, bytes);
    ring.row().count();
}
