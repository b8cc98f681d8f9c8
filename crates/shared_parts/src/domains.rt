//! The domains of the world, as whoever has their lock finds them.
ghost use Rattle.std.specs.Prelude.{◌≡◌, false, Some, IsTrue, OnOk, IfOk, IfSome, IfNone};
ghost use Rattle.std.specs.Ordering.{nat_cmp};
ghost use Rattle.std.specs.BTreeMap.{insert_entry};
ghost use Rattle.argo_model.specs.declared.scripts.Actor.TheVariants.{Vcpu};
ghost use Rattle.argo_model.specs.Rules.Possible.{facts_of, is_destroyed, may_be_away, may_be_gone};
ghost use Rattle.argo_model.specs.Runs.Script.{has_domain};
ghost use Rattle.shared_parts.specs.Domains.{IsParty, fresh, fresh_all, is_alive, is_alive_in, living, standing_at};

use crate::domain::Domain;
use crate::party::Party;
use crate::plan::Plan;
use argo_base::{DomId, NoMemory};
use argo_model::{DomainLine, Scripts};
use std::alloc::Global;
use std::collections::BTreeMap;
use std::marker::{Model, PhantomData};

/// The domains of a script by their ids, alive or gone. What its type keeps: each stands as a run of the script may leave it.
#[derive(Drop)]
pub struct Domains<A: Plan> {
    pub(crate) domains: BTreeMap<DomId, Domain>,
    of: PhantomData<A>,
}

impl<A: Plan> Model for Domains<A> {
    ghost use Rattle.std.specs.Prelude.{ℕ, List};
    ghost use Rattle.shared_parts.specs.Domains.{Standing, AreOf};

    ghost Value = { List (ℕ × Standing) };

    ghost view = { λ d. d.domains.entries };

    ghost invariant = { λ d. AreOf A.facts d.domains.entries };
}

impl<A: Plan> Domains<A> {
    /// Every domain of the script, alive with generation 1.
    #[tactic(auto, using(crate::proofs::Starts::start_fits))]
    pub fn new(alloc: Global, scripts: &Scripts) -> Result<Domains<A>, NoMemory>
        requires { A.facts ≡ facts_of scripts.now }
        ensures { IfOk result (λ domains. domains ≡ fresh_all scripts.now.domains) }
    {
        Ok(Domains {
            domains: fresh_domains(alloc, scripts.domains.as_slice())?,
            of: PhantomData,
        })
    }

    /// A domain, where it is alive.
    pub fn party(&self, dom: DomId) -> Option<Party<'_>>
        ensures id { IfSome result (λ p. p.id ≡ dom) }
        ensures party { IfSome result (λ p. IsParty A.facts dom p.on p.pages) }
        ensures first { IfSome result
            (λ p. (p.generation ≡ 1 → ⊥) → IsTrue (is_destroyed A.facts dom)) }
        ensures away { IfNone result (IsTrue (may_be_away A.facts dom)) }
        ensures found { IfSome result
            (λ p. standing_at self.now dom ≡ Some (living p.on p.pages p.generation)) }
        ensures none { IfNone result (is_alive (standing_at self.now dom) ≡ false) }
    {
        let domain = self.domains.get(&dom)?;
        let Some(live) = &domain.life else {
            return None;
        };
        Some(Party {
            id: dom,
            on: domain.on,
            pages: domain.pages,
            generation: domain.generation,
            live,
        })
    }

    /// A domain as the caller of its own action, where it is alive in the generation that its section names.
    pub fn caller(&self, dom: DomId, generation: u32) -> Option<Party<'_>>
        requires { IsTrue (has_domain A.facts.domains dom) }
        ensures id { IfSome result (λ p. (p.id ≡ dom) × (p.generation ≡ generation)) }
        ensures party { IfSome result (λ p. IsParty A.facts dom p.on p.pages) }
        ensures gone { IfNone result (IsTrue (may_be_gone A.facts (Vcpu dom generation))) }
        ensures found { IfSome result
            (λ p. standing_at self.now dom ≡ Some (living p.on p.pages generation)) }
        ensures none { IfNone result
            (is_alive_in generation (standing_at self.now dom) ≡ false) }
    {
        let Some(party) = self.party(dom) else {
            return None;
        };
        if party.generation != generation {
            return None;
        }
        Some(party)
    }
}

// The domains of these lines, as they start.
fn fresh_domains(alloc: Global, lines: &[DomainLine]) -> Result<BTreeMap<DomId, Domain>, NoMemory>
    ensures { IfOk result (λ m. m.entries ≡ fresh_all lines.now) }
{
    let mut domains = BTreeMap::new(alloc);
    for line in lines {
        put_fresh(alloc, &mut domains, line)?;
    }
    Ok(domains)
}

// The domain of a line, as it starts, is put in under its id.
fn put_fresh(
    alloc: Global,
    domains: &mut BTreeMap<DomId, Domain>,
    line: &DomainLine,
) -> Result<(), NoMemory>
    ensures { OnOk result (domains.new.entries
        ≡ insert_entry nat_cmp domains.old.entries line.now.id (fresh line.now)) }
{
    let domain = Domain::fresh(alloc, line)?;
    domains.insert(line.id, domain)?;
    Ok(())
}
