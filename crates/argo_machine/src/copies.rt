//! Copies of scripts.

ghost use Rattle.std.specs.Prelude.{◌≡◌, IfOk};

use argo_base::NoMemory;
use argo_model::{DomainLines, Part, Parts, Scripts};
use std::alloc::Global;
use vcpu_machine::copy_of_part;

/// A script with copies of all its lines.
pub fn copy_of_scripts(alloc: Global, scripts: &Scripts) -> Result<Scripts, NoMemory>
    ensures { IfOk result (λ copy. copy ≡ scripts.now) }
{
    let domains = DomainLines::copy_of(alloc, scripts.domains.as_slice())?;
    let parts = copy_of_parts(alloc, scripts.parts.as_slice())?;
    Ok(Scripts {
        version: scripts.version,
        domains,
        parts,
    })
}

fn copy_of_parts(alloc: Global, parts: &[Part]) -> Result<Parts, NoMemory>
    ensures { IfOk result (λ copies. copies ≡ parts.now) }
{
    let mut copies = Parts::new(alloc);
    for part in parts {
        copies.push(copy_of_part(alloc, part)?)?;
    }
    Ok(copies)
}
