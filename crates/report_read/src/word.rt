//! The words of a schedule, each behind a space.

ghost use Rattle.std.specs.Prelude.{◌≡◌, ◌≢◌, List, ℕ, ◌∷◌, MatchOption};
ghost use Rattle.report_read.specs.Words.{IsWordThen, HasNoWord};

use crate::number::number;
use argo_model::Run;

/// A space and the word `V*C` at the start of a text, and what stands behind it.
pub(crate) fn next_run(text: &[u8]) -> Option<(Run, &[u8])>
    ensures { MatchOption result (HasNoWord text.now) (λ x. IsWordThen text.now x.0 x.1.now) }
{
    let after_space = behind(b' ', text)?;
    let (number_read, after_vcpu) = number(after_space)?;
    let after_star = behind(b'*', after_vcpu)?;
    let (count, rest) = number(after_star)?;
    if count == 0 || number_read > u64::from(u32::MAX) {
        return None;
    }
    let vcpu = number_read as u32;
    Some((Run { vcpu, count }, rest))
}

/// What stands behind the first byte of a text, if it is this one.
pub(crate) fn behind(byte: u8, text: &[u8]) -> Option<&[u8]>
    ensures { MatchOption result ((rest : List ℕ) → text.now ≢ byte ∷ rest)
        (λ rest. text.now ≡ byte ∷ rest.now) }
{
    match text {
        [first, rest @ ..] if *first == byte => Some(rest),
        _ => None,
    }
}
