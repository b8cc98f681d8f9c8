//! An outcome in short.
ghost use Rattle.std.specs.Prelude.{◌≡◌};
ghost use Rattle.argo_model.specs.Rules.Shorts.{short_of as the_short};

use argo_model::{Outcome, Short};

/// An outcome as two numbers, as its entry has it.
pub(crate) fn short_of(outcome: &Outcome) -> Short
    ensures { result ≡ the_short outcome.now }
{
    let (tag, value) = match outcome {
        Outcome::Done => (0, 0),
        Outcome::Bytes(bytes) => (1, bytes.as_slice().len() as u64),
        Outcome::Fault => (2, 0),
        Outcome::Refused(e) => (3, e.number() as u64),
        Outcome::Accepted(n) => (4, u64::from(*n)),
        Outcome::Swept(serial) => (5, *serial),
        Outcome::NoMore => (6, 0),
        Outcome::Answer(answer) => (7, u64::from(answer.flags)),
        Outcome::Flag(set) => (8, u64::from(*set)),
        Outcome::Gone => (9, 0),
    };
    Short { tag, value }
}
