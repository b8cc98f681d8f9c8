//! A line that looks at its flag.

ghost use Rattle.std.specs.Prelude.{◌≡◌};
ghost use Rattle.vcpu_machine.specs.Looking.{is_signal as tells_signal, LookMoves};

use argo_model::{Outcome, Reply};

/// The reply with an outcome of a look, with so many to come; none where the line looks again.
pub(crate) fn looked(later: &mut u32, outcome: &Outcome) -> Option<Reply>
    ensures { LookMoves later.old outcome.now result later.new }
{
    if let Outcome::Gone = outcome {
        return Some(Reply::Gone);
    }
    if is_signal(outcome) {
        return Some(Reply::Signal);
    }
    if *later == 0 {
        return Some(Reply::NoSignal);
    }
    *later -= 1;
    None
}

// Whether the flag was found set.
fn is_signal(outcome: &Outcome) -> bool
    ensures { result ≡ tells_signal outcome.now }
{
    matches!(outcome, Outcome::Flag(true))
}
