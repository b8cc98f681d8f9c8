//! What a virtual CPU holds of a world.
ghost use Rattle.std.specs.Prelude.{◌≡◌, ◌<◌, [], ◌∷◌, ◌++◌, true};
ghost use Rattle.argo_model.specs.Rules.Shorts.{short_of as the_short};
ghost use Rattle.argo_board.specs.Board.{most_steps, tally};
ghost use Rattle.argo_board.specs.Journal.{IsOutcome};
ghost use Rattle.lock_tokens.specs.Ranks.{IsAboveAll, IsLast, without_last};
ghost use Rattle.shared_steps.specs.Passes.{carried, noted, stepped};

use crate::short::short_of;
use argo_board::{Board, Entry, FlagChange, Pass};
use argo_model::Outcome;
use lock_tokens::{Gate, Held, LockPart, ReadPart, RwGate, WritePart};
use std::marker::Model;
use std::sync::Wait;
use std::sync::ledger::Ledger;

/// The right of one virtual CPU to act, with its part of the board and the locks that it holds. It belongs to the world of the same three
/// ledgers. Contracts see its number and totals, and the ranks that are held.
#[derive(Drop)]
pub struct WorldPass<A: Ledger, B: Ledger, C: Ledger> {
    vcpu: u32,
    pass: Pass<A, B, C>,
    held: Held,
}

impl<A: Ledger, B: Ledger, C: Ledger> Model for WorldPass<A, B, C> {
    ghost use Rattle.std.specs.Prelude.{◌≡◌};
    ghost use Rattle.shared_steps.specs.Passes.{Carried, carried};

    ghost Value = { Carried };

    ghost view = { λ p. carried p.pass p.held };

    ghost invariant = { λ p. p.pass.vcpu ≡ p.vcpu };
}

impl<A: Ledger, B: Ledger, C: Ledger> WorldPass<A, B, C> {
    /// A pass that holds no lock. A world makes one for each of its sections.
    pub fn new(vcpu: u32, pass: Pass<A, B, C>) -> Self
        requires { pass.vcpu ≡ vcpu }
        ensures { result ≡ carried pass [] }
    {
        WorldPass {
            vcpu,
            pass,
            held: Held::empty(),
        }
    }

    /// Its number.
    pub fn vcpu(&self) -> u32
        ensures { result ≡ self.now.tally.vcpu }
    {
        self.vcpu
    }

    /// Its number and its totals.
    pub fn pass(&self) -> &Pass<A, B, C>
        ensures { result.now ≡ self.now.tally }
    {
        &self.pass
    }

    /// The pass of the board that it was made of, with its totals.
    pub fn into_pass(self) -> Pass<A, B, C>
        ensures { result ≡ self.tally }
    {
        let WorldPass {
            vcpu: _,
            pass,
            held: _held,
        } = self;
        pass
    }

    /// Waits until nobody else writes behind the gate.
    pub fn read<'g, R: Wait, T, const RANK: u8>(
        &mut self,
        rt: &R,
        gate: &'g RwGate<T, RANK>,
    ) -> ReadPart<'g, T, RANK>
        requires { IsAboveAll RANK self.old.held }
        ensures { self.new ≡ carried self.old.tally (self.old.held ++ RANK ∷ []) }
    {
        gate.read(rt, &mut self.held)
    }

    /// Waits until nobody else has what lies behind the gate.
    pub fn write<'g, R: Wait, T, const RANK: u8>(
        &mut self,
        rt: &R,
        gate: &'g RwGate<T, RANK>,
    ) -> WritePart<'g, T, RANK>
        requires { IsAboveAll RANK self.old.held }
        ensures { self.new ≡ carried self.old.tally (self.old.held ++ RANK ∷ []) }
    {
        gate.write(rt, &mut self.held)
    }

    /// Waits until nobody else has what lies behind the gate.
    pub fn lock<'g, R: Wait, T, const RANK: u8>(
        &mut self,
        rt: &R,
        gate: &'g Gate<T, RANK>,
    ) -> LockPart<'g, T, RANK>
        requires { IsAboveAll RANK self.old.held }
        ensures { self.new ≡ carried self.old.tally (self.old.held ++ RANK ∷ []) }
    {
        gate.lock(rt, &mut self.held)
    }

    /// Gives back what it took last by `read`.
    pub fn end_read<T, const RANK: u8>(&mut self, part: ReadPart<'_, T, RANK>)
        requires { IsLast RANK self.old.held }
        ensures { self.new ≡ carried self.old.tally (without_last self.old.held) }
    {
        part.release(&mut self.held);
    }

    /// Gives back what it took last by `write`.
    pub fn end_write<T, const RANK: u8>(&mut self, part: WritePart<'_, T, RANK>)
        requires { IsLast RANK self.old.held }
        ensures { self.new ≡ carried self.old.tally (without_last self.old.held) }
    {
        part.release(&mut self.held);
    }

    /// Gives back what it took last by `lock`.
    pub fn unlock<T, const RANK: u8>(&mut self, part: LockPart<'_, T, RANK>)
        requires { IsLast RANK self.old.held }
        ensures { self.new ≡ carried self.old.tally (without_last self.old.held) }
    {
        part.release(&mut self.held);
    }

    /// Appends the entry of a step with this outcome, for which there is room, and gives the outcome.
    pub fn append(
        &mut self,
        board: &mut Board<A, B, C>,
        outcome: Outcome,
        change: FlagChange,
    ) -> Outcome
        requires reserved { board.old.reserved ≡ true }
        requires few { self.old.tally.steps < most_steps }
        requires short { IsOutcome (the_short outcome) }
        ensures outcome { result ≡ outcome }
        ensures pass { self.new ≡ stepped self.old outcome }
        ensures entry { board.new.entries ≡ noted board.old.entries self.old outcome change }
    {
        let entry = Entry {
            vcpu: self.vcpu,
            short: short_of(&outcome),
            change,
        };
        board.append(&mut self.pass, entry);
        outcome
    }
}
