//! All sections, over the generator's draws.

ghost use Rattle.std.specs.Prelude.{◌≡◌, ◌<◌, ◌+◌, ◌*◌, ◌%◌, OnOk, IfOk};
ghost use Rattle.argo_model.specs.Examples.Words.{section};
ghost use Rattle.argo_base.specs.Generator.{number_after, drawn};
ghost use Rattle.gen_script.specs.Made.{round_count, lines_from, made};

use crate::draws::Draws;
use crate::lines::{Round, push_opening, push_round};
use argo_base::{DomId, NoMemory};
use argo_model::{Actor, DomainLine, DomainLines, Lines, Part, Parts, Scripts};
use std::alloc::Global;

/// The domains, each of which has one section. A round sends to one of them.
const DOMAINS: u16 = 8;

/// The pages of a domain: for its structures, its ring, and the bytes that it sends.
const PAGES: u32 = 3;

/// The rounds of a section.
const ROUNDS: u64 = 200;

/// Every round sends fewer bytes than this.
const BODY_END: u64 = 1024;

/// The scripts of this number, of format 1: 8 domains with a section each, and 8,032 lines in all.
pub fn gen_scripts(alloc: Global, n: u64) -> Result<Scripts, NoMemory>
    ensures { IfOk result (λ s. s ≡ made n) }
{
    let mut draws = Draws { number: n };
    let mut domains = DomainLines::new(alloc);
    let mut parts = Parts::new(alloc);
    'sections: for before in 0..DOMAINS {
        let d = before + 1;
        domains.push(DomainLine {
            id: DomId(d),
            pages: PAGES,
            on: true,
        })?;
        parts.push(section(alloc, &mut draws, d)?)?;
    }
    Ok(Scripts {
        version: 1,
        domains,
        parts,
    })
}

// The section of a domain, by the next draws.
fn section(alloc: Global, draws: &mut Draws, d: u16) -> Result<Part, NoMemory>
    requires { d < 256 }
    ensures part { IfOk result (λ p. p ≡ section d (lines_from draws.old.number d round_count)) }
    ensures draws { OnOk result
        (draws.new.number ≡ number_after draws.old.number (2 * round_count)) }
{
    let mut lines = Lines::new(alloc);
    push_opening(alloc, &mut lines, d)?;
    'rounds: for before in 0..ROUNDS {
        let round = next_round(draws, before + 1);
        push_round(alloc, &mut lines, d, round)?;
    }
    Ok(Part {
        actor: Actor::Vcpu(DomId(d), 1),
        lines,
    })
}

// The round of this number, by the next two draws.
fn next_round(draws: &mut Draws, number: u64) -> Round
    ensures number { result.number ≡ number }
    ensures to { result.to ≡ 1 + drawn (number_after draws.old.number 1) % 8 }
    ensures size { result.size ≡ drawn (number_after draws.old.number 2) % 1024 }
    ensures draws { draws.new.number ≡ number_after draws.old.number 2 }
{
    let to = 1 + draws.draw() % u64::from(DOMAINS);
    let size = draws.draw() % BODY_END;
    Round {
        number,
        to: to as u16,
        size: size as u32,
    }
}
