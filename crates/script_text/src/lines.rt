ghost use Rattle.std.specs.Prelude.{◌≡◌, ◌+◌, ◌^◌, ◌<◌, ◌≤◌, position, [], ◌∷◌, length, MatchOption, IfSome};
ghost use Rattle.script_text.specs.Lines.{is_line_feed, lines_of, without_return, words_of, is_skipped, said_from};

use crate::words::next_word;

/// A line that says something: its number, its bytes without their end, and the text behind it.
#[derive(Clone, Copy)]
pub(crate) struct TextLine<'a> {
    pub(crate) number: u32,
    pub(crate) text: &'a [u8],
    pub(crate) rest: &'a [u8],
}

fn first_line_feed(text: &[u8]) -> Option<usize>
    ensures { result ≡ position is_line_feed text.now }
{
    text.iter().position(|byte| *byte == b'\n')
}

// The first line, without its line feed, and the text behind it.
fn cut_line(text: &[u8]) -> (&[u8], &[u8])
    requires { 0 < length text.now }
    ensures lines { lines_of text.now ≡ result.0.now ∷ lines_of result.1.now }
    ensures shorter { length result.1.now < length text.now }
{
    let Some(end) = first_line_feed(text) else {
        return text.split_at(text.len());
    };
    let (line, rest) = text.split_at(end);
    let (_, rest) = rest.split_at(1);
    (line, rest)
}

fn without_return(line: &[u8]) -> &[u8]
    ensures { result.now ≡ without_return line.now }
{
    match line.split_last() {
        Some((last, front)) if *last == b'\r' => front,
        _ => line,
    }
}

fn is_skipped(line: &[u8]) -> bool
    ensures { result ≡ is_skipped (words_of line.now) }
{
    match next_word(line) {
        None => true,
        Some((word, _)) => matches!(word, [b'#', ..]),
    }
}

/// The first line of a text that says something, where the first line of all has this number.
pub(crate) fn next_line(number: u32, text: &[u8]) -> Option<TextLine<'_>>
    requires { number + length text.now < 2 ^ 32 }
    ensures line { MatchOption result (said_from number (lines_of text.now) ≡ [])
        (λ l. said_from number (lines_of text.now)
        ≡ (l.number, words_of l.text.now) ∷ said_from (l.number + 1) (lines_of l.rest.now)) }
    ensures count { IfSome result
        (λ l. l.number + 1 + length l.rest.now ≤ number + length text.now) }
    ensures shorter { IfSome result (λ l. length l.rest.now < length text.now) }
{
    let mut number = number;
    let mut rest = text;
    while !rest.is_empty() {
        let (line, after) = cut_line(rest);
        let text = without_return(line);
        if !is_skipped(text) {
            return Some(TextLine {
                number,
                text,
                rest: after,
            });
        }
        number += 1;
        rest = after;
    }
    None
}
