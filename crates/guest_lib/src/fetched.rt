//! What a fetch that shows no bytes comes to.

ghost use Rattle.std.specs.Prelude.{◌≢◌, ℕ, List};
ghost use Rattle.argo_model.specs.Rules.Access.{outcome_unseen};
ghost use Rattle.guest_lib.specs.Ends.{EndsFetch, EndsPut};
ghost use Rattle.guest_lib.specs.Receiving.{IsShort};

use crate::received::Received;
use argo_base::Message;
use argo_model::{Outcome, Unseen};

/// What the library came to with the outcome of a fetch that is not its bytes.
pub(crate) fn missed_by(outcome: &Outcome) -> Received
    requires { (bytes : List ℕ) → outcome.now ≢ Outcome.Bytes bytes }
    ensures ends { EndsFetch outcome.now result }
    ensures short { IsShort result }
{
    match outcome {
        Outcome::Gone => Received::Gone,
        _ => Received::Fault,
    }
}

/// What the library came to where a fetch showed no bytes.
pub(crate) fn unseen_by(unseen: Unseen) -> Received
    ensures ends { EndsFetch (outcome_unseen unseen) result }
    ensures short { IsShort result }
    ensures ends_put { (message : Message) → EndsPut message (outcome_unseen unseen) result }
{
    match unseen {
        Unseen::Gone => Received::Gone,
        Unseen::Fault => Received::Fault,
    }
}
