//! A plain lock with its rank.
ghost use Rattle.std.specs.Prelude.{◌≡◌, [], ◌∷◌, ◌++◌};
ghost use Rattle.lock_tokens.specs.Ranks.{IsAboveAll, IsLast, without_last};

use crate::Held;
use std::marker::Model;
use std::sync::{Mutex, MutexGuard, Wait};

/// A value behind a lock of this rank. What always holds of the value is said by its type, and holds each time it is got.
#[derive(Drop)]
pub struct Gate<T, const RANK: u8> {
    lock: Mutex<T>,
}

impl<T, const RANK: u8> Gate<T, RANK> {
    pub fn new(value: T) -> Self {
        Gate {
            lock: Mutex::new(value),
        }
    }

    /// Waits until no other caller has the value.
    pub fn lock<R: Wait>(&self, rt: &R, held: &mut Held) -> LockPart<'_, T, RANK>
        requires { IsAboveAll RANK held.old }
        ensures { held.new ≡ held.old ++ RANK ∷ [] }
    {
        held.add(RANK);
        LockPart {
            guard: self.lock.lock(rt),
        }
    }

    /// The value of a gate that nobody else has. It takes no lock.
    pub fn get_mut(&mut self) -> &mut T {
        self.lock.get_mut()
    }

    /// The value of a gate that is no longer needed. It takes no lock.
    pub fn into_inner(self) -> T {
        let Gate { lock } = self;
        lock.into_inner()
    }
}

/// A locked value, which contracts see as the value. It cannot be let go but by `release`.
pub struct LockPart<'a, T, const RANK: u8> {
    guard: MutexGuard<'a, T>,
}

impl<'a, T, const RANK: u8> Model for LockPart<'a, T, RANK> {
    ghost use Rattle.std.specs.Sync.Mutex.{mutex_guard_value};

    ghost Value = { T };

    ghost view = { λ p. mutex_guard_value p.guard };
}

impl<'a, T, const RANK: u8> LockPart<'a, T, RANK> {
    pub fn value(&self) -> &T
        ensures { result.now ≡ self.now }
    {
        &self.guard
    }

    pub fn value_mut(&mut self) -> &mut T
        ensures { result.now ≡ self.old }
    {
        &mut self.guard
    }

    /// Gives the lock back. It has to be the last that was taken.
    pub fn release(self, held: &mut Held)
        requires { IsLast RANK held.old }
        ensures { held.new ≡ without_last held.old }
    {
        let LockPart { guard } = self;
        drop(guard);
        held.drop_last();
    }
}
