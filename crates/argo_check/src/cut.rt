//! The input is cut at the mark between script and report.

ghost use Rattle.std.specs.Prelude.{◌≡◌, ◌≢◌, ◌≤◌, List, ℕ, length, MatchOption, MatchBool};
ghost use Rattle.argo_check.specs.Cut.{EndsLine, BeginsWithMark, IsMarkBetween, IsCut, HasNoMark};

/// What stands before the first line that is exactly `%%`, and what stands behind it.
pub(crate) fn cut(text: &[u8]) -> Option<(&[u8], &[u8])>
    ensures { MatchOption result (HasNoMark text.now) (λ x. IsCut text.now x.0.now x.1.now) }
{
    for at in 0..text.len() {
        if let Some(parts) = cut_at(text, at) {
            return Some(parts);
        }
    }
    None
}

// What stands before and behind the mark, if that is the line that begins at this place.
fn cut_at(text: &[u8], at: usize) -> Option<(&[u8], &[u8])>
    requires { at ≤ length text.now }
    ensures { MatchOption result ((before after : List ℕ) → IsMarkBetween text.now before after
        → length before ≢ at)
        (λ x. IsMarkBetween text.now x.0.now x.1.now × (length x.0.now ≡ at)) }
{
    let (before, behind) = text.split_at(at);
    let after = behind_mark(behind)?;
    if ends_line(before) {
        Some((before, after))
    } else {
        None
    }
}

// What stands behind the mark, if the text begins with that line.
fn behind_mark(text: &[u8]) -> Option<&[u8]>
    ensures { MatchOption result ((rest : List ℕ) → ¬ BeginsWithMark text.now rest)
        (λ rest. BeginsWithMark text.now rest.now) }
{
    match text {
        [b'%', b'%'] => Some(&[]),
        [b'%', b'%', b'\n', rest @ ..] => Some(rest),
        _ => None,
    }
}

fn ends_line(text: &[u8]) -> bool
    ensures { MatchBool result (EndsLine text.now) (¬ EndsLine text.now) }
{
    match text.last() {
        Some(byte) => *byte == b'\n',
        None => true,
    }
}
