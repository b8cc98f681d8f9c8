//! How a caller notes a step.
ghost use Rattle.std.specs.Prelude.{◌≡◌, ◌<◌, [], ◌∷◌, ◌++◌, OnErr, OnOk};
ghost use Rattle.argo_board.specs.Board.{counted, most_steps};
ghost use Rattle.argo_board.specs.Journal.{IsOutcome};

use crate::{Board, Entry, Pass};
use argo_base::NoMemory;
use std::sync::ledger::Ledger;

/// Makes room for the entry of a step before anything of the step is done, and then appends it, which cannot fail.
pub fn noted<A: Ledger, B: Ledger, C: Ledger>(
    board: &mut Board<A, B, C>,
    pass: &mut Pass<A, B, C>,
    e: Entry,
) -> Result<(), NoMemory>
    requires room { pass.old.steps < most_steps }
    requires own { e.vcpu ≡ pass.old.vcpu }
    requires outcome { IsOutcome e.short }
    ensures entries { OnOk result (board.new.entries ≡ board.old.entries ++ e ∷ []) }
    ensures pass { OnOk result (pass.new ≡ counted pass.old e.short) }
    ensures refused { OnErr result ((board.new ≡ board.old) × (pass.new ≡ pass.old)) }
{
    board.reserve()?;
    board.append(pass, e);
    Ok(())
}
