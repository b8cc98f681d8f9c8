//! What an act on a part of the world came to.
ghost use Rattle.std.specs.Prelude.{◌≡◌, []};

use argo_base::DomId;
use argo_model::Outcome;
use std::alloc::Global;

/// What an act on a part of the world came to, beside what it left: its outcome, and whom it signals.
#[derive(Drop)]
pub struct Change {
    pub outcome: Outcome,
    pub signals: Vec<DomId>,
}

impl Change {
    /// The outcome, and nobody is signalled.
    pub fn quiet(alloc: Global, outcome: Outcome) -> Change
        ensures outcome { result.outcome ≡ outcome }
        ensures signals { result.signals.items ≡ [] }
    {
        Change {
            outcome,
            signals: Vec::new(alloc),
        }
    }
}
