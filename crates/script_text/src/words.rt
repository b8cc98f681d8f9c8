ghost use Rattle.std.specs.Prelude.{◌≡◌, not, position, [], ◌∷◌, MatchOption, MatchResult, option_map};
ghost use Rattle.script_text.specs.Lines.{is_blank, words_of};
ghost use Rattle.script_text.specs.Entries.{no_words, one_word, two_words, five_words, domain_words, vcpu_words};
ghost use Rattle.script_text.specs.Gives.{Reads, HasWord};

use crate::kind::ScriptKind;

fn is_blank(byte: u8) -> bool
    ensures { result ≡ is_blank byte }
{
    byte == b' ' || byte == b'\t'
}

fn first_blank(text: &[u8]) -> Option<usize>
    ensures { result ≡ position is_blank text.now }
{
    text.iter().position(|byte| is_blank(*byte))
}

fn first_in_word(text: &[u8]) -> Option<usize>
    ensures { result ≡ position (λ b. not (is_blank b)) text.now }
{
    text.iter().position(|byte| !is_blank(*byte))
}

/// The first word of a line, and what stands behind it.
pub(crate) fn next_word(line: &[u8]) -> Option<(&[u8], &[u8])>
    ensures { MatchOption result (words_of line.now ≡ [])
        (λ x. words_of line.now ≡ x.0.now ∷ words_of x.1.now) }
{
    let start = first_in_word(line)?;
    let (_, text) = line.split_at(start);
    let end = first_blank(text).unwrap_or(text.len());
    Some(text.split_at(end))
}

// A word that the line must have.
fn word(line: &[u8]) -> Result<(&[u8], &[u8]), ScriptKind>
    ensures { MatchResult result (λ x. words_of line.now ≡ x.0.now ∷ words_of x.1.now)
        (λ k. (k ≡ ScriptKind.Count) × (words_of line.now ≡ [])) }
{
    next_word(line).ok_or(ScriptKind::Count)
}

// The end of the words.
fn no_more(line: &[u8]) -> Result<(), ScriptKind>
    ensures { MatchResult result (λ _. words_of line.now ≡ [])
        (λ k. (k ≡ ScriptKind.Count) × HasWord (words_of line.now)) }
{
    match next_word(line) {
        None => Ok(()),
        Some(_) => Err(ScriptKind::Count),
    }
}

/// No word.
pub(crate) fn no_words(line: &[u8]) -> Result<(), ScriptKind>
    ensures { Reads (λ u. u) result (no_words (words_of line.now)) }
{
    no_more(line)
}

/// The one word of a line.
pub(crate) fn one_word(line: &[u8]) -> Result<&[u8], ScriptKind>
    ensures { Reads (λ w. w.now) result (one_word (words_of line.now)) }
{
    let (first, rest) = word(line)?;
    no_more(rest)?;
    Ok(first)
}

/// The two words of a line.
pub(crate) fn two_words(line: &[u8]) -> Result<(&[u8], &[u8]), ScriptKind>
    ensures { Reads (λ w. (w.0.now, w.1.now)) result (two_words (words_of line.now)) }
{
    let (first, rest) = word(line)?;
    let (second, rest) = word(rest)?;
    no_more(rest)?;
    Ok((first, second))
}

/// The five words of a line.
pub(crate) fn five_words(line: &[u8]) -> Result<(&[u8], &[u8], &[u8], &[u8], &[u8]), ScriptKind>
    ensures { Reads (λ w. (w.0.now, w.1.now, w.2.now, w.3.now, w.4.now)) result
        (five_words (words_of line.now)) }
{
    let (first, rest) = word(line)?;
    let (second, rest) = word(rest)?;
    let (third, rest) = word(rest)?;
    let (fourth, rest) = word(rest)?;
    let (fifth, rest) = word(rest)?;
    no_more(rest)?;
    Ok((first, second, third, fourth, fifth))
}

/// The three words of a line, and a fourth where it has one.
pub(crate) fn domain_words(line: &[u8]) -> Result<(&[u8], &[u8], &[u8], Option<&[u8]>), ScriptKind>
    ensures { Reads (λ w. (w.0.now, w.1.now, w.2.now, option_map (λ o. o.now) w.3)) result
        (domain_words (words_of line.now)) }
{
    let (first, rest) = word(line)?;
    let (second, rest) = word(rest)?;
    let (third, rest) = word(rest)?;
    let Some((fourth, rest)) = next_word(rest) else {
        return Ok((first, second, third, None));
    };
    no_more(rest)?;
    Ok((first, second, third, Some(fourth)))
}

/// The one word of a line, and two more where it has three.
pub(crate) fn vcpu_words(line: &[u8]) -> Result<(&[u8], Option<(&[u8], &[u8])>), ScriptKind>
    ensures { Reads (λ w. (w.0.now, option_map (λ o. (o.0.now, o.1.now)) w.1)) result
        (vcpu_words (words_of line.now)) }
{
    let (first, rest) = word(line)?;
    let Some((second, rest)) = next_word(rest) else {
        return Ok((first, None));
    };
    let (third, rest) = word(rest)?;
    no_more(rest)?;
    Ok((first, Some((second, third))))
}
