//! The ledgers of a board: a book of each, and parts of each that stand together.
ghost use Rattle.std.specs.Prelude.{◌≡◌, ◌+◌, ◌-◌, ◌<◌};
ghost use Rattle.argo_board.specs.Books.{amounts, joined, portion};

use std::marker::Model;
use std::sync::ledger::{Blank, Book, Ledger, Share};

/// The books of room, of accepted sends and of their bytes, which have as many parts each. Contracts see their totals.
#[derive(Drop)]
pub(crate) struct Books<A: Ledger, B: Ledger, C: Ledger> {
    room: Book<A>,
    sends: Book<B>,
    loads: Book<C>,
}

impl<A: Ledger, B: Ledger, C: Ledger> Model for Books<A, B, C> {
    ghost use Rattle.std.specs.Prelude.{◌≡◌};
    ghost use Rattle.argo_board.specs.Books.{Amounts, amounts};

    ghost Value = { Amounts };

    ghost view = { λ b. amounts b.room.total b.sends.total b.loads.total };

    ghost invariant = { λ b. (B.parts ≡ A.parts) × (C.parts ≡ A.parts) };
}

/// As many parts of each ledger, with their amounts.
#[derive(Drop)]
pub(crate) struct Shares<A: Ledger, B: Ledger, C: Ledger> {
    room: Share<A>,
    sends: Share<B>,
    loads: Share<C>,
}

impl<A: Ledger, B: Ledger, C: Ledger> Model for Shares<A, B, C> {
    ghost use Rattle.std.specs.Prelude.{◌≡◌};
    ghost use Rattle.argo_board.specs.Books.{Portion, portion};

    ghost Value = { Portion };

    ghost view = { λ s. portion s.room.parts s.room.amount s.sends.amount s.loads.amount };

    ghost invariant = { λ s. (s.sends.parts ≡ s.room.parts) × (s.loads.parts ≡ s.room.parts) };
}

impl<A: Ledger, B: Ledger, C: Ledger> Books<A, B, C> {
    /// New ledgers, with all parts in one hand and nothing in them.
    pub(crate) fn open(room: Blank, sends: Blank, loads: Blank) -> (Self, Shares<A, B, C>)
        requires room { (room.name ≡ A.name) × (room.parts ≡ A.parts) }
        requires sends { (sends.name ≡ B.name) × (sends.parts ≡ B.parts) }
        requires loads { (loads.name ≡ C.name) × (loads.parts ≡ C.parts) }
        requires alike { (B.parts ≡ A.parts) × (C.parts ≡ A.parts) }
        ensures books { result.0 ≡ amounts 0 0 0 }
        ensures shares { result.1 ≡ portion A.parts 0 0 0 }
    {
        let (room, room_share) = room.open::<A>();
        let (sends, sends_share) = sends.open::<B>();
        let (loads, loads_share) = loads.open::<C>();
        let books = Books { room, sends, loads };
        let shares = Shares {
            room: room_share,
            sends: sends_share,
            loads: loads_share,
        };
        (books, shares)
    }

    /// Gives room for so many entries.
    pub(crate) fn grant(&mut self, to: &mut Shares<A, B, C>, steps: u64)
        requires { 0 < to.old.parts }
        ensures books { self.new ≡ amounts (self.old.room + steps) self.old.sends self.old.loads }
        ensures to { to.new ≡ portion to.old.parts (to.old.room + steps) to.old.sends to.old.loads }
    {
        self.room.add(&mut to.room, steps);
    }

    /// Takes room for one entry.
    pub(crate) fn step(&mut self, by: &mut Shares<A, B, C>)
        requires { 0 < by.old.room }
        ensures books { self.new ≡ amounts (self.old.room - 1) self.old.sends self.old.loads }
        ensures room { 0 < self.old.room }
        ensures by { by.new ≡ portion by.old.parts (by.old.room - 1) by.old.sends by.old.loads }
    {
        self.room.sub(&mut by.room, 1);
    }

    /// Counts an accepted send of so many bytes.
    pub(crate) fn accept(&mut self, by: &mut Shares<A, B, C>, bytes: u64)
        requires { 0 < by.old.parts }
        ensures books { self.new
            ≡ amounts self.old.room (self.old.sends + 1) (self.old.loads + bytes) }
        ensures by { by.new
            ≡ portion by.old.parts by.old.room (by.old.sends + 1) (by.old.loads + bytes) }
    {
        self.sends.add(&mut by.sends, 1);
        self.loads.add(&mut by.loads, bytes);
    }

    /// All parts together have the totals.
    pub(crate) fn audit(&mut self, all: &mut Shares<A, B, C>)
        requires { all.old.parts ≡ A.parts }
        ensures room { all.old.room ≡ self.old.room }
        ensures sends { all.old.sends ≡ self.old.sends }
        ensures loads { all.old.loads ≡ self.old.loads }
    {
        self.room.audit(&mut all.room);
        self.sends.audit(&mut all.sends);
        self.loads.audit(&mut all.loads);
    }
}

impl<A: Ledger, B: Ledger, C: Ledger> Shares<A, B, C> {
    /// One part of each, with nothing in it.
    pub(crate) fn split_one(&mut self) -> Self
        requires parts { 1 < self.old.parts }
        ensures rest { self.new
            ≡ portion (self.old.parts - 1) self.old.room self.old.sends self.old.loads }
        ensures one { result ≡ portion 1 0 0 0 }
    {
        Shares {
            room: self.room.split_off(1, 0),
            sends: self.sends.split_off(1, 0),
            loads: self.loads.split_off(1, 0),
        }
    }

    pub(crate) fn merge(&mut self, other: Self)
        ensures { self.new ≡ joined self.old other }
    {
        let Shares { room, sends, loads } = other;
        self.room.merge(room);
        self.sends.merge(sends);
        self.loads.merge(loads);
    }
}
