ghost use Rattle.std.specs.Prelude.{◌≡◌, ◌<◌};
ghost use Rattle.argo_base.specs.Generator as generator;
ghost use Rattle.serial_run.specs.Picks.{place_by};

use argo_base::{drawn, next_number};

/// The generator that picks the section of each step.
#[derive(Clone, Copy)]
pub(crate) struct Picks {
    seed: u64,
    number: u64,
}

impl Picks {
    pub(crate) fn new(seed: u64) -> Picks
        ensures seed { result.seed ≡ seed }
        ensures number { result.number ≡ seed }
    {
        Picks { seed, number: seed }
    }

    /// The place of the next pick among so many open sections.
    pub(crate) fn next_place(&mut self, count: usize) -> usize
        requires { 0 < count }
        ensures seed { self.new.seed ≡ self.old.seed }
        ensures number { self.new.number ≡ generator.next_number self.old.number }
        ensures place { result ≡ place_by self.old.seed self.new.number count }
        ensures inside { result < count }
    {
        self.number = next_number(self.number);
        if self.seed == 0 {
            return 0;
        }
        drawn(self.number) as usize % count
    }
}
