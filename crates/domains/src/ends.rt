//! Domains that end, are reset, or are forgotten by the others.
ghost use Rattle.std.specs.Prelude.{◌≡◌};
ghost use Rattle.argo_model.specs.Rules.Destroy as ends;
ghost use Rattle.argo_model.specs.Rules.State.{change_domain, change_life};

use crate::domain::Domain;
use crate::domains::Domains;
use argo_base::DomId;
use live_domain::LiveDomain;
use std::alloc::Global;

impl<L: LiveDomain> Domains<L> {
    /// Every domain ends the rings that are for this one alone, and this one's notices on the rings that stay.
    pub fn forget(&mut self, dom: DomId)
        ensures { self.new ≡ ends.forget self.old dom }
    {
        forget_in(self.domains.rows.as_mut_slice(), dom);
    }

    /// Ends one domain, where it is there.
    pub fn end_one(&mut self, dom: DomId)
        ensures { self.new ≡ change_domain self.old dom ends.gone_domain }
    {
        if let Some(domain) = self.domains.get_mut(dom) {
            domain.end();
        }
    }

    /// Resets one domain, where it is there.
    pub fn reset_one(&mut self, alloc: Global, dom: DomId)
        ensures { self.new ≡ change_domain self.old dom (change_life ends.reset_live) }
    {
        if let Some(domain) = self.domains.get_mut(dom) {
            domain.reset(alloc);
        }
    }
}

// Each row's domain ends the rings that are for this one alone, and this one's notices on the rings that stay.
fn forget_in<L: LiveDomain>(rows: &mut [(DomId, Domain<L>)], dom: DomId)
    ensures { rows.new ≡ ends.forget rows.old dom }
{
    for row in rows.iter_mut() {
        row.1.forget(dom);
    }
}
