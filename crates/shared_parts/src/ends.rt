//! Domains that end, are reset, or are made anew, by their lists. They are held for writing, so no lock that lies in them is taken.
ghost use Rattle.std.specs.Prelude.{◌≡◌, ◌⊎◌, false, Err, IsTrue, IsOk, IfOk, IfErr};
ghost use Rattle.argo_base.specs.declared.errno.Errno.TheVariants.{Srch, Exist};
ghost use Rattle.argo_model.specs.Rules.Possible.{is_destroyed};
ghost use Rattle.argo_model.specs.Runs.Script.{has_domain};
ghost use Rattle.shared_parts.specs.Domains.{begun, change_domain, ended, error_of, refusal_of, standing_at};

use crate::domain::Domain;
use crate::domains::Domains;
use crate::live::Live;
use crate::plan::Plan;
use argo_base::{DomId, Errno, NoMemory, RingId};
use pending_list::Notices;
use ring_table::MOST_ROWS;
use std::alloc::Global;
use std::collections::BTreeMap;

#[tactic(auto, using(std::proofs::lemmas::Map::Steps::set_value_same))]
impl<A: Plan> Domains<A> {
    /// Ends the rings of a domain, the rings that others have for it alone, and its notices. It takes no memory.
    pub fn reset(&mut self, dom: DomId)
        ensures { self.new ≡ self.old }
    {
        self.end_own_rings(dom);
        self.end_rings_for(dom);
        self.end_notices(dom);
    }

    /// As `reset`, and the domain is gone with all that it has. It takes no memory.
    pub fn destroy(&mut self, dom: DomId)
        requires { IsTrue (is_destroyed A.facts dom) }
        ensures { self.new ≡ change_domain self.old dom ended }
    {
        self.reset(dom);
        self.end_one(dom);
    }

    /// What a domain that is gone begins anew with: pages of zeros, and no rings. Or why there is no such.
    pub fn next_life(&self, alloc: Global, dom: DomId) -> Result<Result<Live, Errno>, NoMemory>
        ensures srch { IfOk result (λ r. r ≡ Err Srch → has_domain A.facts.domains dom ≡ false) }
        ensures gone { IfOk result (λ r. IsOk r → IsTrue (is_destroyed A.facts dom)) }
        ensures error { IfOk result (λ r. IfErr r (λ e. (e ≡ Srch) ⊎ (e ≡ Exist))) }
        ensures refusal { IfOk result (λ r. error_of r ≡ refusal_of (standing_at self.now dom)) }
    {
        let Some(domain) = self.domains.get(&dom) else {
            return Ok(Err(Errno::Srch));
        };
        if domain.life.is_some() {
            return Ok(Err(Errno::Exist));
        }
        Ok(Ok(Live::fresh(alloc, domain.pages)?))
    }

    /// The domain is alive in its next generation, with this.
    #[tactic(auto, using(crate::proofs::Standings::begin_keeps))]
    pub fn begin_anew(&mut self, dom: DomId, live: Live)
        requires { IsTrue (is_destroyed A.facts dom) }
        ensures { self.new ≡ change_domain self.old dom begun }
    {
        begin_in(&mut self.domains, dom, live);
    }

    // One domain is gone, with all that it has.
    #[tactic(auto, using(crate::proofs::Standings::end_keeps))]
    fn end_one(&mut self, dom: DomId)
        requires { IsTrue (is_destroyed A.facts dom) }
        ensures { self.new ≡ change_domain self.old dom ended }
    {
        end_in(&mut self.domains, dom);
    }

    // Ends each ring of a domain.
    fn end_own_rings(&mut self, dom: DomId)
        ensures { self.new ≡ self.old }
    {
        for _ in 0..MOST_ROWS {
            let Some(id) = self.first_ring(dom) else {
                return;
            };
            self.end_ring(id);
        }
    }

    // Ends each ring that another domain has for this one alone.
    fn end_rings_for(&mut self, dom: DomId)
        ensures { self.new ≡ self.old }
    {
        for _ in 0..self.count_sends(dom) {
            let Some(id) = self.next_send(dom) else {
                return;
            };
            self.end_ring(id);
        }
    }

    // Ends each notice that the domain has on a wildcard ring of another.
    fn end_notices(&mut self, dom: DomId)
        ensures { self.new ≡ self.old }
    {
        for _ in 0..self.count_wilds(dom) {
            let Some(id) = self.next_wild(dom) else {
                return;
            };
            self.forget(id, dom);
        }
    }

    fn first_ring(&mut self, dom: DomId) -> Option<RingId>
        ensures { self.new ≡ self.old }
    {
        let key = self.domains.get_mut(&dom)?.first_ring()?;
        Some(RingId {
            owner: dom,
            port: key.port,
            partner: key.partner,
        })
    }

    fn count_sends(&mut self, dom: DomId) -> usize
        ensures { self.new ≡ self.old }
    {
        match self.domains.get_mut(&dom) {
            Some(domain) => domain.count_sends(),
            None => 0,
        }
    }

    fn next_send(&mut self, dom: DomId) -> Option<RingId>
        ensures { self.new ≡ self.old }
    {
        self.domains.get_mut(&dom)?.next_send()
    }

    fn count_wilds(&mut self, dom: DomId) -> usize
        ensures { self.new ≡ self.old }
    {
        match self.domains.get_mut(&dom) {
            Some(domain) => domain.count_wilds(),
            None => 0,
        }
    }

    fn next_wild(&mut self, dom: DomId) -> Option<RingId>
        ensures { self.new ≡ self.old }
    {
        self.domains.get_mut(&dom)?.next_wild()
    }

    // Ends a ring of whatever domain, and takes it off each list that names it.
    fn end_ring(&mut self, id: RingId)
        ensures { self.new ≡ self.old }
    {
        let Some(owner) = self.domains.get_mut(&id.owner) else {
            return;
        };
        let notices = owner.end_ring(id.key());
        self.unlist(id, &notices);
    }

    // Takes a ring that has ended off each list that names it.
    fn unlist(&mut self, id: RingId, notices: &Notices)
        ensures { self.new ≡ self.old }
    {
        if id.partner.is_any() {
            self.drop_wilds(&id, notices);
        } else {
            self.drop_send(id);
        }
    }

    fn drop_wilds(&mut self, id: &RingId, notices: &Notices)
        ensures { self.new ≡ self.old }
    {
        for (dom, _) in notices.as_slice() {
            self.drop_wild(*dom, id);
        }
    }

    fn drop_send(&mut self, id: RingId)
        ensures { self.new ≡ self.old }
    {
        if let Some(partner) = self.domains.get_mut(&id.partner) {
            partner.drop_send(id);
        }
    }

    fn drop_wild(&mut self, dom: DomId, id: &RingId)
        ensures { self.new ≡ self.old }
    {
        if let Some(domain) = self.domains.get_mut(&dom) {
            domain.drop_wild(*id);
        }
    }

    // Takes the notice of a domain away from a ring.
    fn forget(&mut self, id: RingId, dom: DomId)
        ensures { self.new ≡ self.old }
    {
        if let Some(owner) = self.domains.get_mut(&id.owner) {
            owner.forget(id.key(), dom);
        }
    }
}

// One domain is gone, with all that it has.
fn end_in(domains: &mut BTreeMap<DomId, Domain>, dom: DomId)
    ensures { domains.new.entries ≡ change_domain domains.old.entries dom ended }
{
    if let Some(domain) = domains.get_mut(&dom) {
        domain.end();
    }
}

// One domain is alive in its next generation, with this.
fn begin_in(domains: &mut BTreeMap<DomId, Domain>, dom: DomId, live: Live)
    ensures { domains.new.entries ≡ change_domain domains.old.entries dom begun }
{
    if let Some(domain) = domains.get_mut(&dom) {
        domain.begin_anew(live);
    }
}
