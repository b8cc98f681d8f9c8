//! A lock with its rank, which many readers or one writer may have.
ghost use Rattle.std.specs.Prelude.{◌≡◌, [], ◌∷◌, ◌++◌};
ghost use Rattle.lock_tokens.specs.Ranks.{IsAboveAll, IsLast, without_last};

use crate::Held;
use std::marker::Model;
use std::sync::{RwLock, RwLockReadGuard, RwLockWriteGuard, Wait};

/// A value behind a lock of this rank, for many readers or one writer. What always holds of the value is said by its type, and holds
/// each time it is got.
#[derive(Drop)]
pub struct RwGate<T, const RANK: u8> {
    lock: RwLock<T>,
}

impl<T, const RANK: u8> RwGate<T, RANK> {
    pub fn new(value: T) -> Self {
        RwGate {
            lock: RwLock::new(value),
        }
    }

    /// Waits until no other caller writes.
    pub fn read<R: Wait>(&self, rt: &R, held: &mut Held) -> ReadPart<'_, T, RANK>
        requires { IsAboveAll RANK held.old }
        ensures { held.new ≡ held.old ++ RANK ∷ [] }
    {
        held.add(RANK);
        ReadPart {
            guard: self.lock.read(rt),
        }
    }

    /// Waits until no other caller reads or writes.
    pub fn write<R: Wait>(&self, rt: &R, held: &mut Held) -> WritePart<'_, T, RANK>
        requires { IsAboveAll RANK held.old }
        ensures { held.new ≡ held.old ++ RANK ∷ [] }
    {
        held.add(RANK);
        WritePart {
            guard: self.lock.write(rt),
        }
    }

    /// The value of a gate that nobody else has. It takes no lock.
    pub fn get_mut(&mut self) -> &mut T {
        self.lock.get_mut()
    }

    /// The value of a gate that is no longer needed. It takes no lock.
    pub fn into_inner(self) -> T {
        let RwGate { lock } = self;
        lock.into_inner()
    }
}

/// A value that is read, which contracts see as the value. It cannot be let go but by `release`.
pub struct ReadPart<'a, T, const RANK: u8> {
    guard: RwLockReadGuard<'a, T>,
}

impl<'a, T, const RANK: u8> Model for ReadPart<'a, T, RANK> {
    ghost use Rattle.std.specs.Sync.RwLock.{read_guard_value};

    ghost Value = { T };

    ghost view = { λ p. read_guard_value p.guard };
}

impl<'a, T, const RANK: u8> ReadPart<'a, T, RANK> {
    pub fn value(&self) -> &T
        ensures { result.now ≡ self.now }
    {
        &self.guard
    }

    /// Gives the lock back. It has to be the last that was taken.
    pub fn release(self, held: &mut Held)
        requires { IsLast RANK held.old }
        ensures { held.new ≡ without_last held.old }
    {
        let ReadPart { guard } = self;
        drop(guard);
        held.drop_last();
    }
}

/// A value that is written, which contracts see as the value. It cannot be let go but by `release`.
pub struct WritePart<'a, T, const RANK: u8> {
    guard: RwLockWriteGuard<'a, T>,
}

impl<'a, T, const RANK: u8> Model for WritePart<'a, T, RANK> {
    ghost use Rattle.std.specs.Sync.RwLock.{write_guard_value};

    ghost Value = { T };

    ghost view = { λ p. write_guard_value p.guard };
}

impl<'a, T, const RANK: u8> WritePart<'a, T, RANK> {
    pub fn value(&self) -> &T
        ensures { result.now ≡ self.now }
    {
        &self.guard
    }

    pub fn value_mut(&mut self) -> &mut T
        ensures { result.now ≡ self.old }
    {
        &mut self.guard
    }

    /// Gives the lock back. It has to be the last that was taken.
    pub fn release(self, held: &mut Held)
        requires { IsLast RANK held.old }
        ensures { held.new ≡ without_last held.old }
    {
        let WritePart { guard } = self;
        drop(guard);
        held.drop_last();
    }
}
