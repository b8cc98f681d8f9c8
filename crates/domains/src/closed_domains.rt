//! The domains as they stand, copied with all that they hold.

ghost use Rattle.std.specs.Prelude.{◌≡◌, ◌<◌, ◌^◌, IfOk, IsTrue, map};
ghost use Rattle.argo_model.specs.Runs.Closed.{closed_domains, closed_life};
ghost use Rattle.section_world.specs.Young.{are_shown};

use crate::domain::Domain;
use crate::domains::Domains;
use argo_base::{Bytes, DomId, NoMemory};
use argo_model::{ClosedDomain, ClosedDomains, ClosedRings};
use live_domain::LiveDomain;
use std::alloc::Global;

impl<L: LiveDomain> Domains<L> {
    /// A row for each domain.
    pub fn closed(&self, alloc: Global) -> Result<ClosedDomains, NoMemory>
        requires { IsTrue (are_shown self.now) }
        ensures { IfOk result (λ closed. closed ≡ closed_domains self.now) }
    {
        let mut closed = ClosedDomains::new(alloc);
        for (id, domain) in self.domains.rows() {
            closed.push(domain_of(alloc, *id, domain)?)?;
        }
        Ok(closed)
    }
}

fn domain_of<L: LiveDomain>(
    alloc: Global,
    id: DomId,
    domain: &Domain<L>,
) -> Result<ClosedDomain, NoMemory>
    requires { domain.now.generation < 2 ^ 32 }
    ensures { IfOk result (λ closed. closed ≡ closed_life id domain.now domain.now.life) }
{
    let generation = domain.generation as u32;
    let Some(live) = &domain.life else {
        return Ok(ClosedDomain {
            id,
            alive: false,
            generation,
            flag: false,
            pages: Bytes::new(alloc),
            rings: ClosedRings::new(alloc),
        });
    };
    Ok(ClosedDomain {
        id,
        alive: true,
        generation,
        flag: live.flag(),
        pages: live.memory(alloc)?,
        rings: live.closed_rings(alloc)?,
    })
}
