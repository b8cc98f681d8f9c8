//! What a virtual CPU holds of a board: its number, its own totals, and its part of each ledger.
ghost use Rattle.std.specs.Prelude.{◌≡◌, ◌+◌, ◌<◌};
ghost use Rattle.argo_board.specs.Board.{tally, counted, most_steps};
ghost use Rattle.argo_board.specs.Books.{portion};
ghost use Rattle.argo_board.specs.Journal.{IsOutcome, accepted_in, bytes_in};

use crate::books::{Books, Shares};
use argo_model::Short;
use std::marker::Model;
use std::sync::ledger::Ledger;

/// The tag of an accepted send.
const ACCEPTED: u8 = 4;

/// The right of one virtual CPU to append, with its own totals. It belongs to the board of the same three ledgers. Contracts see its
/// number and its totals.
#[derive(Drop)]
pub struct Pass<A: Ledger, B: Ledger, C: Ledger> {
    vcpu: u64,
    steps: u64,
    accepted: u64,
    bytes: u64,
    has: Shares<A, B, C>,
}

impl<A: Ledger, B: Ledger, C: Ledger> Model for Pass<A, B, C> {
    ghost use Rattle.argo_board.specs.Board.{Tally, IsPass, tally};

    ghost Value = { Tally };

    ghost view = { λ p. tally p.vcpu p.steps p.accepted p.bytes };

    ghost invariant = { λ p. IsPass A.parts (tally p.vcpu p.steps p.accepted p.bytes) p.has };
}

impl<A: Ledger, B: Ledger, C: Ledger> Pass<A, B, C> {
    /// A pass that has made no step, with room for all that it can make.
    pub(crate) fn new(vcpu: u64, has: Shares<A, B, C>) -> Self
        requires own { vcpu + 1 < A.parts }
        requires has { has ≡ portion 1 most_steps 0 0 }
        ensures { result ≡ tally vcpu 0 0 0 }
    {
        Pass {
            vcpu,
            steps: 0,
            accepted: 0,
            bytes: 0,
            has,
        }
    }

    /// The number of its virtual CPU, from 0.
    pub fn vcpu(&self) -> u64
        ensures { result ≡ self.now.vcpu }
    {
        self.vcpu
    }

    /// How many entries it appended.
    pub fn steps(&self) -> u64
        ensures { result ≡ self.now.steps }
    {
        self.steps
    }

    /// How many of its entries are accepted sends.
    pub fn accepted(&self) -> u64
        ensures { result ≡ self.now.accepted }
    {
        self.accepted
    }

    /// The bytes of its accepted sends.
    pub fn bytes(&self) -> u64
        ensures { result ≡ self.now.bytes }
    {
        self.bytes
    }

    /// Counts a step, in its own totals and in the books.
    pub(crate) fn count(&mut self, books: &mut Books<A, B, C>, short: Short)
        requires room { self.old.steps < most_steps }
        requires outcome { IsOutcome short }
        ensures own { self.new ≡ counted self.old short }
        ensures vcpu { self.old.vcpu + 1 < A.parts }
        ensures room { books.new.room + 1 ≡ books.old.room }
        ensures sends { books.new.sends ≡ books.old.sends + accepted_in short }
        ensures loads { books.new.loads ≡ books.old.loads + bytes_in short }
    {
        books.step(&mut self.has);
        self.steps += 1;
        if short.tag == ACCEPTED {
            books.accept(&mut self.has, short.value);
            self.accepted += 1;
            self.bytes += short.value;
        }
    }

    /// Gives its part of each ledger back. What it has not used of its room stands there.
    pub(crate) fn hand_in(self, to: &mut Shares<A, B, C>)
        ensures parts { to.new.parts ≡ to.old.parts + 1 }
        ensures room { to.new.room + self.steps ≡ to.old.room + most_steps }
        ensures sends { to.new.sends ≡ to.old.sends + self.accepted }
        ensures loads { to.new.loads ≡ to.old.loads + self.bytes }
    {
        let Pass {
            vcpu: _,
            steps: _,
            accepted: _,
            bytes: _,
            has,
        } = self;
        to.merge(has);
    }
}
