//! The reply of a hypercall that is refused.

ghost use Rattle.std.specs.Prelude.{◌≡◌};
ghost use Rattle.argo_model.specs.Programs.Asks.{Say, refusal as refusal_of};

use argo_base::Errno;
use argo_model::Reply;

/// A hypercall's refusal.
pub(crate) fn refusal(e: Errno) -> Reply
    ensures { Say result ≡ refusal_of e }
{
    Reply::Number(-i64::from(e.number()))
}
