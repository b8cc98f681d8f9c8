//! What a report shows of the domains, taken out of the world.

ghost use Rattle.std.specs.Prelude.{◌≡◌, ◌<◌, ◌^◌, IfOk, IsTrue, map};
ghost use Rattle.argo_model.specs.Runs.Final.{final_domain, final_life};
ghost use Rattle.section_world.specs.Young.{are_shown};

use crate::domain::Domain;
use crate::domains::Domains;
use argo_base::{DomId, NoMemory};
use argo_model::{FinalDomain, FinalDomains, FinalRings};
use live_domain::LiveDomain;
use std::alloc::Global;

impl<L: LiveDomain> Domains<L> {
    /// A row for each domain as a report shows it. Where memory runs out all is lost.
    pub fn into_finals(self, alloc: Global) -> Result<FinalDomains, NoMemory>
        requires { IsTrue (are_shown self) }
        ensures { IfOk result (λ finals. finals ≡ map final_domain self) }
    {
        let Domains { domains } = self;
        let mut finals = FinalDomains::new(alloc);
        for (id, domain) in domains.into_rows() {
            finals.push(domain_of(alloc, id, domain)?)?;
        }
        Ok(finals)
    }
}

fn domain_of<L: LiveDomain>(
    alloc: Global,
    id: DomId,
    domain: Domain<L>,
) -> Result<FinalDomain, NoMemory>
    requires { domain.generation < 2 ^ 32 }
    ensures { IfOk result (λ f. f ≡ final_life id domain domain.life) }
{
    let Domain {
        on,
        generation,
        life,
        ..
    } = domain;
    let generation = generation as u32;
    let Some(live) = life else {
        return Ok(FinalDomain {
            id,
            on,
            alive: false,
            generation,
            flag: false,
            rings: FinalRings::new(alloc),
        });
    };
    let flag = live.flag();
    Ok(FinalDomain {
        id,
        on,
        alive: true,
        generation,
        flag,
        rings: live.into_final_rings(alloc)?,
    })
}
