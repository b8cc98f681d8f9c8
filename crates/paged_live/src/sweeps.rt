//! The notices of a domain's rings are looked through, ring after ring.
ghost use Rattle.std.specs.Prelude.{◌≡◌, ◌≤◌, [], length, IfOk, OnOk, OnErr, vec_capacity};
ghost use Rattle.argo_model.specs.Rules.Effects as effects;
ghost use Rattle.argo_model.specs.Rules.Sweep as sweep;
ghost use Rattle.paged_live.specs.Parts.{StandsStill};
ghost use Rattle.ring_core.specs.Held.{Becomes, IsSaid};

use argo_base::{DomId, Ended, NoMemory};
use ring_core::Ring;
use std::alloc::Global;

/// Ends the notices of a ring that fit: the domains that are to be signalled. Where memory runs out all stay.
pub(crate) fn sweep_ring(alloc: Global, ring: &mut Ring) -> Result<Vec<DomId>, NoMemory>
    ensures signals { IfOk result
        (λ doms. IsSaid ring.old doms.items (λ p. (sweep.sweep_ring p).signals)) }
    ensures left { OnOk result
        (Becomes ring.old ring.new (λ p. effects.after p (sweep.sweep_ring p))) }
    ensures err { OnErr result (ring.new ≡ ring.old) }
    ensures still { StandsStill ring.old ring.new }
{
    ring.row().count();
    let mut doms = room_for(alloc, ring)?;
    let ended = ring.sweep();
    ring.row().count();
    list(&mut doms, &ended);
    Ok(doms)
}

/// Room for the domains that wait on a ring. Where none do it takes no memory.
pub(crate) fn room_for(alloc: Global, ring: &Ring) -> Result<Vec<DomId>, NoMemory>
    ensures none { IfOk result (λ doms. doms.items ≡ []) }
    ensures room { IfOk result (λ doms. length ring.now.notices ≤ vec_capacity doms) }
{
    Ok(Vec::with_capacity(alloc, ring.notices().len())?)
}

/// Lists the domains whose notices ended, in the room that was made for them.
pub(crate) fn list(doms: &mut Vec<DomId>, ended: &Ended)
    requires none { doms.old.items ≡ [] }
    requires room { length ended.now ≤ vec_capacity doms.old }
    ensures { doms.new.items ≡ ended.now }
{
    for dom in ended.as_slice() {
        doms.push_reserved(*dom);
    }
}
