//! Edits that count the rows that they reach.
use super::Table;
use crate::Steps;
use argo_base::RingKey;
use std::sync::ledger::Ledger;

impl<T> Table<T> {
    ghost use Rattle.std.specs.Prelude.{◌≡◌, ◌+◌};
    ghost use Rattle.std.specs.Option.{option_copied_mut};
    ghost use Rattle.std.specs.Borrow.{sem};
    ghost use Rattle.ring_table.specs.Rows.{value_at};
    ghost use Rattle.ring_table.specs.Edits.{without_row};
    ghost use Rattle.ring_table.specs.Lends.{lends_value};

    /// `remove`, counted as one.
    pub fn take_row<L: Ledger>(&mut self, key: RingKey, steps: &mut Steps<L>) -> Option<T>
        ensures value { result ≡ value_at self.old key }
        ensures rest { self.new ≡ without_row self.old key }
        ensures counted { steps.new ≡ steps.old + 1 }
    {
        steps.tick();
        self.remove(key)
    }

    /// `find_exact_mut`, counted as one.
    pub fn reach_row<L: Ledger>(&mut self, key: RingKey, steps: &mut Steps<L>) -> Option<&mut T>
        ensures* writes_back { sem 𝓛 (lends_value T.row self.entry key result) }
        ensures value { option_copied_mut result ≡ value_at self.old key }
        ensures counted { steps.new ≡ steps.old + 1 }
    {
        steps.tick();
        self.find_exact_mut(key)
    }
}
