//! The virtual CPUs of all sections before the first step.

ghost use Rattle.std.specs.Prelude.{◌≡◌, ◌≤◌, [], length, sum_by, vec_capacity};
ghost use Rattle.argo_model.specs.Runs.Script.{turns_of};
ghost use Rattle.argo_machine.specs.Vcpus.{AreVcpusOf};

use argo_model::{Part, Parts};
use std::alloc::Global;
use vcpu_machine::Vcpu;

/// One for each section, in an empty vector that has room for them.
pub(crate) fn vcpus_of(alloc: Global, room: Vec<Vcpu>, parts: Parts) -> Vec<Vcpu>
    requires empty { room.items ≡ [] }
    requires room { length parts ≤ vec_capacity room }
    requires lines { sum_by (λ x. length x.lines) parts ≤ 8192 }
    requires turns { sum_by (λ x. sum_by turns_of x.lines) parts ≤ 1048576 }
    ensures { AreVcpusOf result.items parts }
{
    let mut vcpus = room;
    for part in parts.into_vec() {
        vcpus.push_reserved(Vcpu::taking(alloc, part));
    }
    vcpus
}

/// How many lines these sections have.
pub(crate) fn lines_of(parts: &[Part]) -> usize {
    let mut lines = 0usize;
    for part in parts {
        lines = lines.saturating_add(part.lines.len());
    }
    lines
}
