//! A world is closed: its journal, its totals, and its domains as they stand.
ghost use Rattle.std.specs.Prelude.{◌≡◌, ◌+◌, All, IfOk, length, map, sum_by};
ghost use Rattle.argo_board.specs.Board.{totals_of};
ghost use Rattle.argo_board.specs.Journal.{IsFit, accepted_of, bytes_of};
ghost use Rattle.shared_parts.specs.Closed.{AreRowsOf, Rise};
ghost use Rattle.shared_world.specs.Closed.{AreFlagsOf, flagged};
ghost use Rattle.shared_steps.specs.Passes.{StandInOrder};

use crate::Closed;
use crate::world::World;
use argo_base::NoMemory;
use argo_board::{Board, Pass};
use argo_model::{ClosedDomain, ClosedDomains, Heard};
use shared_parts::Plan;
use shared_steps::{Pause, Steps, WorldPass};
use std::alloc::Global;
use std::sync::ledger::Ledger;

#[tactic(auto, using(crate::proofs::ClosedLaws::flags_shown, crate::proofs::ClosedLaws::rows_shown, crate::proofs::ClosedLaws::rise_shown, crate::proofs::ClosedLaws::order_kept, crate::proofs::ClosedLaws::totals_kept))]
impl<A: Plan, B: Ledger, C: Ledger, P: Pause> World<A, B, C, P> {
    /// The journal, the totals of the passes, and the domains as they stand, beside the replies that were heard. Where memory runs out,
    /// the world is lost.
    pub fn close(self, passes: Vec<WorldPass<A, B, C>>, heard: Heard) -> Result<Closed, NoMemory>
        requires count { length passes.items + 1 ≡ A.parts }
        requires order { StandInOrder passes.items }
        ensures fit { IfOk result (λ c. All (IsFit (length passes.items)) c.entries) }
        ensures totals { IfOk result (λ c. c.totals ≡ map (λ p. totals_of p.tally) passes.items) }
        ensures steps { IfOk result (λ c. sum_by (λ t. t.steps) c.totals ≡ length c.entries) }
        ensures accepted { IfOk result
            (λ c. sum_by (λ t. t.accepted) c.totals ≡ accepted_of c.entries) }
        ensures bytes { IfOk result (λ c. sum_by (λ t. t.bytes) c.totals ≡ bytes_of c.entries) }
        ensures flags { IfOk result (λ c. AreFlagsOf c.entries c.domains) }
        ensures rows { IfOk result (λ c. AreRowsOf A.facts.domains c.domains) }
        ensures rise { IfOk result (λ c. Rise c.domains) }
        ensures heard { IfOk result (λ c. c.heard ≡ heard) }
    {
        let World {
            steps,
            actors: _actors,
            domains,
        } = self;
        let Steps {
            alloc,
            pause: _pause,
            board,
        } = steps;
        let board = board.into_inner();
        let rows = domains.into_inner().into_closed(alloc)?;
        let domains = with_flags(rows, &board);
        let passes = plain_passes(alloc, passes)?;
        let (entries, totals) = board.close(passes)?;
        Ok(Closed {
            entries,
            totals,
            domains,
            heard,
        })
    }
}

// The passes of the board.
fn plain_passes<A: Ledger, B: Ledger, C: Ledger>(
    alloc: Global,
    passes: Vec<WorldPass<A, B, C>>,
) -> Result<Vec<Pass<A, B, C>>, NoMemory>
    ensures { IfOk result (λ r. r.items ≡ map (λ p. p.tally) passes.items) }
{
    let mut plain = Vec::with_capacity(alloc, passes.len())?;
    for pass in passes {
        plain.push(pass.into_pass())?;
    }
    Ok(plain)
}

// The rows, each with the flag that the entries leave.
fn with_flags<A: Ledger, B: Ledger, C: Ledger>(
    rows: ClosedDomains,
    board: &Board<A, B, C>,
) -> ClosedDomains
    ensures { result ≡ map (flagged board.now.entries) rows }
{
    let mut rows = rows.into_vec();
    set_flags(rows.as_mut_slice(), board);
    ClosedDomains::from_vec(rows)
}

// Each row has the flag that the entries leave.
fn set_flags<A: Ledger, B: Ledger, C: Ledger>(rows: &mut [ClosedDomain], board: &Board<A, B, C>)
    ensures { rows.new ≡ map (flagged board.now.entries) rows.old }
{
    for row in rows.iter_mut() {
        row.flag = board.look(row.id);
    }
}
