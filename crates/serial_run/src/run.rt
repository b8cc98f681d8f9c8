ghost use Rattle.std.specs.Prelude.{◌≡◌, ◌≤◌, vec_capacity, filter, IfOk};
ghost use Rattle.std.specs.List.{range_with_len};
ghost use Rattle.argo_model.specs.Runs.Run.{run, is_open};
ghost use Rattle.serial_run.specs.Picks.{IsRunByPicks};

use crate::picks::Picks;
use argo_base::NoMemory;
use argo_machine::Machine;
use argo_model::{Final, Scripts};
use plain_world::PlainWorld;
use std::alloc::Global;

/// Runs a script by the picks of a seed: for 0 each section to its end in its turn, else one step of a section picked by a
/// linear congruential generator. The script is given away: none of its lines is copied.
pub fn run_scripts(alloc: Global, seed: u64, scripts: Scripts) -> Result<Final, NoMemory>
    ensures { IfOk result (λ shown. IsRunByPicks scripts seed shown) }
{
    let count = scripts.parts.len();
    let mut machine = Machine::<PlainWorld>::taking(alloc, scripts)?;
    let mut picks = Picks::new(seed);
    let mut vcpus = Vec::with_capacity(alloc, count)?;
    list_open(&machine, count as u32, &mut vcpus);
    'steps: while !vcpus.is_empty() {
        let v = vcpus[picks.next_place(vcpus.len())];
        machine.go(v)?;
        if machine.finished(v) {
            list_open(&machine, count as u32, &mut vcpus);
        }
    }
    machine.finish()
}

// Lists the sections, of the first so many, that have a line left.
fn list_open(machine: &Machine<PlainWorld>, count: u32, vcpus: &mut Vec<u32>)
    requires { count ≤ vec_capacity vcpus.old }
    ensures open { vcpus.new.items
        ≡ filter (is_open (run machine.now.script machine.now.schedule)) (range_with_len 0 count) }
    ensures room { vec_capacity vcpus.new ≡ vec_capacity vcpus.old }
{
    vcpus.clear();
    for v in 0..count {
        if !machine.finished(v) {
            vcpus.push_reserved(v);
        }
    }
}
