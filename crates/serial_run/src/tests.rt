ghost use Rattle.std.specs.Prelude.{◌≡◌, [], ◌∷◌, IfOk};
ghost use Rattle.argo_model.specs.declared.scripts.Actor.TheVariants.{Vcpu};
ghost use Rattle.argo_model.specs.declared.line.Line.TheVariants.{Await};

use super::*;
use argo_base::{DomId, NoMemory};
use argo_machine::Machine;
use argo_model::{Actor, DomainLine, DomainLines, Line, Lines, Part, Parts, Run, Scripts};
use plain_world::PlainWorld;
use std::alloc::Global;
use std::test::Fail;

// A virtual CPU of domain 1 that looks once at its flag.
fn looks(alloc: Global) -> Result<Part, NoMemory>
    ensures { IfOk result (λ p. p ≡ record { actor = Vcpu 1 1; lines = Await 1 ∷ [] }) }
{
    let mut lines = Lines::new(alloc);
    lines.push(Line::Await { turns: 1 })?;
    Ok(Part {
        actor: Actor::Vcpu(DomId(1), 1),
        lines,
    })
}

fn two_sections(alloc: Global) -> Result<Scripts, NoMemory> {
    let mut domains = DomainLines::new(alloc);
    domains.push(DomainLine {
        id: DomId(1),
        pages: 1,
        on: true,
    })?;
    let mut parts = Parts::new(alloc);
    parts.push(looks(alloc)?)?;
    parts.push(looks(alloc)?)?;
    Ok(Scripts {
        version: 1,
        domains,
        parts,
    })
}

#[test]
fn a_seed_picks_the_schedule(rt: HostRuntime) -> Result<(), Fail> {
    let first = Run { vcpu: 0, count: 1 };
    let second = Run { vcpu: 1, count: 1 };
    let in_turn = run_scripts(rt.alloc(), 0, two_sections(rt.alloc())?)?;
    assert_eq!(rt; in_turn.runs.as_slice(), [first, second].as_slice());
    let picked = run_scripts(rt.alloc(), 3, two_sections(rt.alloc())?)?;
    assert_eq!(rt; picked.runs.as_slice(), [second, first].as_slice());
    Ok(())
}

#[test]
fn a_machine_is_closed_after_a_step(rt: HostRuntime) -> Result<(), Fail> {
    let scripts = two_sections(rt.alloc())?;
    let mut machine = Machine::<PlainWorld>::new(rt.alloc(), &scripts)?;
    if !machine.finished(1) {
        machine.step(1)?;
    }
    let (domains, heard) = machine.closed()?;
    let mut counts = Vec::new(rt.alloc());
    for domain in domains.as_slice() {
        counts.push(domain.pages.len())?;
    }
    for lines in heard.as_slice() {
        counts.push(lines.len())?;
    }
    assert_eq!(rt; counts.as_slice(), [4096, 0, 1].as_slice());
    Ok(())
}
