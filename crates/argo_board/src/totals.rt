//! The passes of a board, as they are made and as they come back.
ghost use Rattle.std.specs.Prelude.{◌≡◌, ◌+◌, ◌*◌, ◌≤◌, IfOk, length, map, sum_by};
ghost use Rattle.argo_board.specs.Board.{AreFresh, totals_of, most_steps, most_vcpus};
ghost use Rattle.argo_board.specs.Books.{amounts, portion};

use crate::Pass;
use crate::books::{Books, Shares};
use argo_base::{Items, NoMemory};
use argo_model::{TotalList, Totals};
use std::alloc::Global;
use std::sync::ledger::Ledger;

/// The steps that one virtual CPU can make.
const MOST_STEPS: u64 = 1 << 32;

/// A pass for each virtual CPU, with room for all its steps. One part of each ledger is left.
pub(crate) fn fresh_passes<A: Ledger, B: Ledger, C: Ledger>(
    alloc: Global,
    vcpus: u32,
    books: &mut Books<A, B, C>,
    kept: &mut Shares<A, B, C>,
) -> Result<Vec<Pass<A, B, C>>, NoMemory>
    requires parts { (A.parts ≡ vcpus + 1) × (vcpus ≤ most_vcpus) }
    requires books { books.old ≡ amounts 0 0 0 }
    requires kept { kept.old ≡ portion A.parts 0 0 0 }
    ensures count { IfOk result (λ r. length r.items ≡ vcpus) }
    ensures fresh { IfOk result (λ r. AreFresh r.items) }
    ensures room { IfOk result (λ r. books.new ≡ amounts (most_steps * vcpus) 0 0) }
    ensures rest { IfOk result (λ r. kept.new ≡ portion 1 0 0 0) }
{
    let mut passes = Vec::with_capacity(alloc, vcpus as usize)?;
    for vcpu in 0..u64::from(vcpus) {
        let mut has = kept.split_one();
        books.grant(&mut has, MOST_STEPS);
        passes.push(Pass::new(vcpu, has))?;
    }
    Ok(passes)
}

/// The totals of the passes, in their order.
pub(crate) fn totals_by_vcpu<A: Ledger, B: Ledger, C: Ledger>(
    alloc: Global,
    passes: &Vec<Pass<A, B, C>>,
) -> Result<TotalList, NoMemory>
    ensures { IfOk result (λ r. r ≡ map totals_of passes.now.items) }
{
    let mut totals = Vec::with_capacity(alloc, passes.len())?;
    for pass in passes.iter() {
        totals.push(Totals {
            steps: pass.steps(),
            accepted: pass.accepted(),
            bytes: pass.bytes(),
        })?;
    }
    Ok(Items::from_vec(totals))
}

/// The passes give their parts back, and then all parts together have what the books have. It does nothing when it runs.
pub(crate) fn settle<A: Ledger, B: Ledger, C: Ledger>(
    books: Books<A, B, C>,
    kept: Shares<A, B, C>,
    passes: Vec<Pass<A, B, C>>,
)
    requires count { length passes.items + 1 ≡ A.parts }
    requires kept { kept ≡ portion 1 0 0 0 }
    ensures room { sum_by (λ p. p.steps) passes.items + books.room
        ≡ most_steps * length passes.items }
    ensures sends { books.sends ≡ sum_by (λ p. p.accepted) passes.items }
    ensures loads { books.loads ≡ sum_by (λ p. p.bytes) passes.items }
{
    let mut books = books;
    let mut kept = kept;
    let mut passes = passes;
    while let Some(pass) = passes.pop() {
        pass.hand_in(&mut kept);
    }
    books.audit(&mut kept);
}
