//! Domains with lists beside domains without, and how many rings an end comes to.
ghost use Rattle.std.specs.Prelude.{IsTrue, IfOk};
ghost use Rattle.argo_model.specs.Rules.Fit.{is_fit};

use crate::ListedDomains;
use crate::visits::Visits;
use argo_base::slots::{is_legal, page_count};
use argo_base::{Bytes, DomId, Errno, LONGEST_BODY, PageList, drawn, next_number};
use argo_model::{Action, Actor, ClosedDomains, DomainLine, Load, Outcome};
use flat_world::FlatDomains;
use paged_live::Live;
use section_world::{DomainActs, act};
use std::alloc::Global;
use std::marker::Model;
use std::process::Abort;
use std::test::Fail;

// Domains, and how many acts they had: so many that the next may be made.
#[derive(Drop)]
struct Trial<D: DomainActs> {
    domains: D,
    acts: u64,
}

impl<D: DomainActs> Model for Trial<D> {
    ghost use Rattle.std.specs.Prelude.{◌+◌};
    ghost use Rattle.argo_model.specs.Rules.State.{State};
    ghost use Rattle.section_world.specs.Young.{IsYoung};

    ghost Value = { State };

    ghost view = { λ t. D.state t.domains };

    ghost invariant = { λ t. IsYoung (t.acts + 1) (D.state t.domains) };
}

impl<D: DomainActs> Trial<D> {
    // Eight domains of so many pages.
    fn start(alloc: Global, pages: u32) -> Result<Trial<D>, Fail> {
        let mut lines = Vec::new(alloc);
        for id in 1..9u16 {
            lines.push(DomainLine {
                id: DomId(id),
                pages,
                on: true,
            })?;
        }
        Ok(Trial {
            domains: D::start(alloc, lines.as_slice())?,
            acts: 0,
        })
    }

    fn act(
        &mut self,
        rt: &impl Abort,
        alloc: Global,
        actor: Actor,
        action: Action,
    ) -> Result<Outcome, Fail>
        requires { IsTrue (is_fit action) }
    {
        assert!(rt; self.acts < 1_000_000);
        let outcome = act(&mut self.domains, alloc, actor, action)?;
        self.acts += 1;
        Ok(outcome)
    }

    fn closed(&self, rt: &impl Abort, alloc: Global) -> Result<ClosedDomains, Fail> {
        assert!(rt; self.acts < 1_000_000);
        let closed = self.domains.closed(alloc)?;
        Ok(closed)
    }
}

// A ring of 96 bytes on this page.
fn registers(
    rt: &impl Abort,
    alloc: Global,
    port: u32,
    partner: DomId,
    page: u64,
) -> Result<Action, Fail>
    ensures { IfOk result (λ a. IsTrue (is_fit a)) }
{
    let pages = PageList::copy_of(alloc, &[page])?;
    assert!(rt; is_legal(96));
    assert_eq!(rt; pages.len(), page_count(96) as usize);
    Ok(Action::Register {
        port,
        partner,
        len: 96,
        pages,
        fail_exist: false,
    })
}

// A message of 40 bytes: a ring of 96 takes one, and no second.
fn sends(rt: &impl Abort, alloc: Global, to: DomId, to_port: u32) -> Result<Action, Fail>
    ensures { IfOk result (λ a. IsTrue (is_fit a)) }
{
    let body = Bytes::copy_of(alloc, &[7; 40])?;
    assert!(rt; body.len() <= LONGEST_BODY as usize);
    Ok(Action::Deliver {
        port: 1,
        to,
        to_port,
        kind: 1,
        load: Load::Body(body),
    })
}

// Takes the messages of a ring of 96 bytes on this page by its first word.
fn takes(rt: &impl Abort, alloc: Global, page: u64) -> Result<Action, Fail>
    ensures { IfOk result (λ a. IsTrue (is_fit a)) }
{
    let bytes = Bytes::copy_of(alloc, &[64, 0, 0, 0])?;
    assert!(rt; bytes.len() <= 4096);
    Ok(Action::Put {
        page,
        off: 0,
        bytes,
    })
}

// An action by a drawn number.
fn action_of(rt: &impl Abort, alloc: Global, number: u64) -> Result<Action, Fail>
    ensures { IfOk result (λ a. IsTrue (is_fit a)) }
{
    let port = (number / 16 % 3) as u32;
    let dom = DomId((number / 64 % 4 + 1) as u16);
    let partner = if number / 256 % 2 == 0 {
        DomId::ANY
    } else {
        dom
    };
    match number % 16 {
        0..=2 => registers(rt, alloc, port, partner, number / 512 % 4),
        3 => Ok(Action::Unregister { port, partner }),
        4..=7 => sends(rt, alloc, dom, port),
        8 | 9 => takes(rt, alloc, number / 512 % 4),
        10 => Ok(Action::Sweep {
            after: number / 16 % 4,
        }),
        11 => Ok(Action::Query {
            to: dom,
            to_port: port,
            need: 40,
        }),
        12 => Ok(Action::Look),
        13 => Ok(Action::Destroy { dom }),
        14 => Ok(Action::Reset { dom }),
        _ => Ok(Action::Create { dom }),
    }
}

#[test]
fn domains_with_lists_do_as_those_without(rt: HostRuntime) -> Result<(), Fail> {
    let alloc = rt.alloc();
    let mut flat: Trial<FlatDomains> = Trial::start(alloc, 4)?;
    let mut listed: Trial<ListedDomains<Live>> = Trial::start(alloc, 4)?;
    let mut number = 1;
    let mut accepted = false;
    let mut waited = false;
    for _ in 0..1000u32 {
        number = next_number(number);
        let actor = Actor::Vcpu(
            DomId((drawn(number) % 4 + 1) as u16),
            (drawn(number) / 4 % 3 + 1) as u32,
        );
        number = next_number(number);
        let one = flat.act(&rt, alloc, actor, action_of(&rt, alloc, drawn(number))?)?;
        let other = listed.act(&rt, alloc, actor, action_of(&rt, alloc, drawn(number))?)?;
        accepted = accepted || matches!(one, Outcome::Accepted(_));
        waited = waited || matches!(one, Outcome::Refused(Errno::Again));
        let one = format!(in alloc; "{one:?}")?;
        let other = format!(in alloc; "{other:?}")?;
        assert_eq!(rt; one.as_str(), other.as_str());
    }
    assert!(rt; accepted && waited);
    let one = format!(in alloc; "{:?}", flat.closed(&rt, alloc)?)?;
    let other = format!(in alloc; "{:?}", listed.closed(&rt, alloc)?)?;
    assert!(rt; one.as_str() == other.as_str());
    Ok(())
}

// Eight domains of which the last seven have 100 wildcard rings each.
fn many_rings(rt: &impl Abort, alloc: Global) -> Result<Trial<ListedDomains<Live>>, Fail> {
    let mut trial = Trial::start(alloc, 128)?;
    for id in 2..9u16 {
        for port in 0..100u32 {
            let action = registers(rt, alloc, port, DomId::ANY, u64::from(port))?;
            trial.act(rt, alloc, Actor::Vcpu(DomId(id), 1), action)?;
        }
    }
    Ok(trial)
}

fn visits_of(trial: Trial<ListedDomains<Live>>, dom: DomId) -> Visits {
    let Trial { mut domains, .. } = trial;
    let (_, visits) = domains.destroy_by_lists(dom);
    visits
}

#[test]
fn the_end_of_a_domain_that_has_nothing_comes_to_no_ring(rt: HostRuntime) -> Result<(), Fail> {
    let trial = many_rings(&rt, rt.alloc())?;
    assert_eq!(rt; visits_of(trial, DomId(1)), Visits::NONE);
    Ok(())
}

#[test]
fn an_end_comes_to_the_rings_of_the_domain_and_to_those_for_it(
    rt: HostRuntime,
) -> Result<(), Fail> {
    let alloc = rt.alloc();
    let dead = DomId(1);
    let mut trial = many_rings(&rt, alloc)?;
    for port in 0..2u32 {
        let action = registers(&rt, alloc, port, DomId::ANY, u64::from(port))?;
        trial.act(&rt, alloc, Actor::Vcpu(dead, 1), action)?;
        trial.act(
            &rt,
            alloc,
            Actor::Vcpu(dead, 1),
            sends(&rt, alloc, DomId(5), 7)?,
        )?;
    }
    for id in 2..5u16 {
        let action = registers(&rt, alloc, 100, dead, 100)?;
        trial.act(&rt, alloc, Actor::Vcpu(DomId(id), 1), action)?;
    }
    let visits = Visits {
        rings: 2,
        senders: 3,
        notices: 1,
    };
    assert_eq!(rt; visits_of(trial, dead), visits);
    Ok(())
}
