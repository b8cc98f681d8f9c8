//! The journal of all steps, the flags of the domains, and the books of the three ledgers.
ghost use Rattle.std.specs.Prelude.{◌≡◌, ◌+◌, ◌<◌, ◌≤◌, true, [], ◌∷◌, ◌++◌, All, IfOk, OnOk, OnErr, length, map, sum_by};
ghost use Rattle.argo_board.specs.Board.{AreFresh, counted, totals_of, most_steps, most_vcpus, StandInOrder};
ghost use Rattle.argo_board.specs.Journal.{IsFit, IsOutcome, is_raised, accepted_of, bytes_of};

use crate::books::{Books, Shares};
use crate::flags::Flags;
use crate::journal::Journal;
use crate::totals::{fresh_passes, settle, totals_by_vcpu};
use crate::{Entry, EntryList, Pass};
use argo_base::{DomId, NoMemory};
use argo_model::TotalList;
use std::alloc::Global;
use std::marker::Model;
use std::sync::ledger::{Blank, Ledger};

/// The most virtual CPUs of a board.
const MOST_VCPUS: u32 = 64;

/// The journal of a run with the flags that its entries leave, under one lock. The three ledgers tie the passes to it: what they
/// used of their room is how many entries there are, and their totals add up to those of the entries. Contracts see the entries from
/// the first to the last, and whether an append may follow.
#[derive(Drop)]
pub struct Board<A: Ledger, B: Ledger, C: Ledger> {
    alloc: Global,
    journal: Journal,
    flags: Flags,
    books: Books<A, B, C>,
    kept: Shares<A, B, C>,
}

impl<A: Ledger, B: Ledger, C: Ledger> Model for Board<A, B, C> {
    ghost use Rattle.argo_board.specs.Board.{Seen, IsBoard};

    ghost Value = { Seen };

    ghost view = { λ b. b.journal };

    ghost invariant = { λ b. IsBoard A.parts b.journal.entries b.flags b.books b.kept };
}

impl<A: Ledger, B: Ledger, C: Ledger> Board<A, B, C> {
    /// A board without entries, and a pass for each virtual CPU. It opens the blanks of the three ledgers, which have a part for each
    /// virtual CPU and one more.
    pub fn build(
        alloc: Global,
        vcpus: u32,
        room: Blank,
        sends: Blank,
        loads: Blank,
    ) -> Result<(Self, Vec<Pass<A, B, C>>), NoMemory>
        requires most { vcpus ≤ most_vcpus }
        requires parts { (A.parts ≡ vcpus + 1) × (B.parts ≡ vcpus + 1) × (C.parts ≡ vcpus + 1) }
        requires room { (room.name ≡ A.name) × (room.parts ≡ A.parts) }
        requires sends { (sends.name ≡ B.name) × (sends.parts ≡ B.parts) }
        requires loads { (loads.name ≡ C.name) × (loads.parts ≡ C.parts) }
        ensures entries { IfOk result (λ r. r.0.entries ≡ []) }
        ensures count { IfOk result (λ r. length r.1.items ≡ vcpus) }
        ensures passes { IfOk result (λ r. AreFresh r.1.items) }
    {
        let journal = Journal::new(alloc)?;
        let flags = Flags::clear(alloc)?;
        let (mut books, mut kept) = Books::open(room, sends, loads);
        let passes = fresh_passes(alloc, vcpus, &mut books, &mut kept)?;
        let board = Board {
            alloc,
            journal,
            flags,
            books,
            kept,
        };
        Ok((board, passes))
    }

    /// Makes room for one entry. Until the next `append`, that one takes no memory.
    pub fn reserve(&mut self) -> Result<(), NoMemory>
        ensures entries { self.new.entries ≡ self.old.entries }
        ensures reserved { OnOk result (self.new.reserved ≡ true) }
        ensures refused { OnErr result (self.new ≡ self.old) }
    {
        self.journal.reserve(self.alloc)
    }

    /// Adds the entry of one step of the pass, counts it in the pass's totals, and changes the flags as the entry says.
    pub fn append(&mut self, pass: &mut Pass<A, B, C>, e: Entry)
        requires reserved { self.old.reserved ≡ true }
        requires room { pass.old.steps < most_steps }
        requires own { e.vcpu ≡ pass.old.vcpu }
        requires outcome { IsOutcome e.short }
        ensures entries { self.new.entries ≡ self.old.entries ++ e ∷ [] }
        ensures pass { pass.new ≡ counted pass.old e.short }
    {
        pass.count(&mut self.books, e.short);
        self.flags.apply(&e.change);
        self.journal.append(e);
    }

    /// Whether the flag of the domain is set after all entries.
    pub fn look(&self, dom: DomId) -> bool
        ensures { result ≡ is_raised dom self.now.entries }
    {
        self.flags.is_set(dom)
    }

    /// All entries, and the totals of each pass. After a refusal the board and its passes are gone.
    pub fn close(self, passes: Vec<Pass<A, B, C>>) -> Result<(EntryList, TotalList), NoMemory>
        requires count { length passes.items + 1 ≡ A.parts }
        requires order { StandInOrder passes.items }
        ensures entries { IfOk result (λ r. r.0 ≡ self.entries) }
        ensures fit { IfOk result (λ r. All (IsFit (length passes.items)) r.0) }
        ensures totals { IfOk result (λ r. r.1 ≡ map totals_of passes.items) }
        ensures steps { IfOk result (λ r. sum_by (λ t. t.steps) r.1 ≡ length r.0) }
        ensures accepted { IfOk result (λ r. sum_by (λ t. t.accepted) r.1 ≡ accepted_of r.0) }
        ensures bytes { IfOk result (λ r. sum_by (λ t. t.bytes) r.1 ≡ bytes_of r.0) }
    {
        let Board {
            alloc,
            journal,
            flags: _flags,
            books,
            kept,
        } = self;
        let totals = totals_by_vcpu(alloc, &passes)?;
        settle(books, kept, passes);
        let entries = journal.in_order(alloc)?;
        Ok((EntryList::from_vec(entries), totals))
    }
}
