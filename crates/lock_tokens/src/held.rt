//! The ranks that one caller holds.
ghost use Rattle.std.specs.Prelude.{◌≡◌, ◌<◌, [], ◌∷◌, ◌++◌, length};
ghost use Rattle.lock_tokens.specs.Ranks.{IsAboveAll, without_last};

use std::marker::Model;

/// The ranks that a caller holds, each above the one before it. Contracts see it as that list.
///
/// A program makes one for each of its callers and never a second: whoever makes another says that nothing is held.
#[derive(Drop)]
pub struct Held {
    ranks: [u8; 256],
    count: usize,
}

impl Model for Held {
    ghost use Rattle.std.specs.Prelude.{ℕ, ◌≤◌, List, take};
    ghost use Rattle.lock_tokens.specs.Ranks.{RiseFrom};

    ghost Value = { List ℕ };

    ghost view = { λ h. take h.count h.ranks };

    ghost invariant = { λ h. (h.count ≤ 256) × RiseFrom 0 (take h.count h.ranks) };
}

impl Held {
    /// Nothing is held.
    pub fn empty() -> Held
        ensures { result ≡ [] }
    {
        Held {
            ranks: [0; 256],
            count: 0,
        }
    }

    /// A lock of this rank is taken.
    pub(crate) fn add(&mut self, rank: u8)
        requires { IsAboveAll rank self.old }
        ensures { self.new ≡ self.old ++ rank ∷ [] }
    {
        self.ranks[self.count] = rank;
        self.count += 1;
    }

    /// The lock that was taken last is given back.
    pub(crate) fn drop_last(&mut self)
        requires { 0 < length self.old }
        ensures { self.new ≡ without_last self.old }
    {
        self.count -= 1;
    }
}
