//! The generator, one draw after another.

ghost use Rattle.std.specs.Prelude.{◌≡◌};
ghost use Rattle.argo_base.specs.Generator as generator;

use argo_base::{drawn, next_number};

/// A linear congruential generator, of whose numbers a draw gives the upper 31 bits.
#[derive(Drop)]
pub(crate) struct Draws {
    pub(crate) number: u64,
}

impl Draws {
    pub(crate) fn draw(&mut self) -> u64
        ensures number { self.new.number ≡ generator.next_number self.old.number }
        ensures drawn { result ≡ generator.drawn self.new.number }
    {
        self.number = next_number(self.number);
        drawn(self.number)
    }
}
