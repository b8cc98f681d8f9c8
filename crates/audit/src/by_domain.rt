//! Domains of one id.
ghost use Rattle.std.specs.Prelude.{◌≡◌, IfOk};
ghost use Rattle.std.specs.Option.{option_copied};
ghost use Rattle.audit.specs.Domains.{number_in, rings_in, memory_in, rings_differ, domain_differs, domains_differ};
ghost use Rattle.audit.specs.Rings.{number_of};

use crate::lists::bytes_differ;
use crate::names::{names, row_of};
use crate::rings::ring_differs;
use crate::rows::{DomainRow, RingRow};
use crate::values::{MISSING, Values, differ};
use argo_base::NoMemory;
use argo_model::{ClosedDomain, ClosedRing};
use std::alloc::Global;

/// How all domains differ in one of their parts, by rising id.
pub(crate) fn domains_differ(
    alloc: Global,
    row: DomainRow,
    threads: &[ClosedDomain],
    machine: &[ClosedDomain],
) -> Result<Option<Values>, NoMemory>
    ensures { IfOk result (λ r. r ≡ domains_differ row threads.now machine.now) }
{
    let ids = names(alloc, threads, machine)?;
    for id in &ids {
        let found = domain_differs(alloc, row, row_of(threads, id), row_of(machine, id))?;
        if found.is_some() {
            return Ok(found);
        }
    }
    Ok(None)
}

fn domain_differs(
    alloc: Global,
    row: DomainRow,
    threads: Option<&ClosedDomain>,
    machine: Option<&ClosedDomain>,
) -> Result<Option<Values>, NoMemory>
    ensures { IfOk result
        (λ r. r ≡ domain_differs row (option_copied threads.entry) (option_copied machine.entry)) }
{
    match row {
        DomainRow::Alive => Ok(differ(alive_in(threads), alive_in(machine))),
        DomainRow::Flag => Ok(differ(flag_in(threads), flag_in(machine))),
        DomainRow::Ring(row) => rings_differ(alloc, row, rings_in(threads), rings_in(machine)),
        DomainRow::Memory => Ok(bytes_differ(MISSING, memory_in(threads), memory_in(machine))),
        DomainRow::Generation => Ok(differ(generation_in(threads), generation_in(machine))),
    }
}

fn alive_in(domain: Option<&ClosedDomain>) -> u64
    ensures { result ≡ number_in (λ d. number_of d.alive) (option_copied domain.entry) }
{
    match domain {
        Some(domain) => u64::from(domain.alive),
        None => MISSING,
    }
}

fn flag_in(domain: Option<&ClosedDomain>) -> u64
    ensures { result ≡ number_in (λ d. number_of d.flag) (option_copied domain.entry) }
{
    match domain {
        Some(domain) => u64::from(domain.flag),
        None => MISSING,
    }
}

fn generation_in(domain: Option<&ClosedDomain>) -> u64
    ensures { result ≡ number_in (λ d. d.generation) (option_copied domain.entry) }
{
    match domain {
        Some(domain) => u64::from(domain.generation),
        None => MISSING,
    }
}

fn rings_in(domain: Option<&ClosedDomain>) -> &[ClosedRing]
    ensures { result.now ≡ rings_in (option_copied domain.entry) }
{
    match domain {
        Some(domain) => domain.rings.as_slice(),
        None => &[],
    }
}

fn memory_in(domain: Option<&ClosedDomain>) -> &[u8]
    ensures { result.now ≡ memory_in (option_copied domain.entry) }
{
    match domain {
        Some(domain) => domain.pages.as_slice(),
        None => &[],
    }
}

// The rings of a domain in one of their parts, by rising key.
fn rings_differ(
    alloc: Global,
    row: RingRow,
    threads: &[ClosedRing],
    machine: &[ClosedRing],
) -> Result<Option<Values>, NoMemory>
    ensures { IfOk result (λ r. r ≡ rings_differ row threads.now machine.now) }
{
    let keys = names(alloc, threads, machine)?;
    for key in &keys {
        let found = ring_differs(alloc, row, row_of(threads, key), row_of(machine, key))?;
        if found.is_some() {
            return Ok(found);
        }
    }
    Ok(None)
}
