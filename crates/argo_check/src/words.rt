//! The words of the command line.

ghost use Rattle.std.specs.Prelude.{◌≡◌, ◌+◌, ◌≤◌, ◌^◌, Some, None, map};
ghost use Rattle.std.specs.String.{string_bytes};
ghost use Rattle.argo_check.specs.Words.{is_digit, decimal_value, number_of, place_of, form_with, form_of};

/// What the words ask for.
#[derive(Clone, Copy, Debug, PartialEq, Eq)]
pub(crate) enum Form {
    /// No words: whether the report is right.
    Plain,
    /// `why V K`: beside that, the steps and the reply of that line.
    Why(Place),
}

/// A line of a script: the number of its section, and its place there from 1.
#[derive(Clone, Copy, Debug, PartialEq, Eq)]
pub(crate) struct Place {
    pub(crate) vcpu: u64,
    pub(crate) line: u64,
}

/// The form of the words, if they have one.
pub(crate) fn form_of(words: &Vec<String>) -> Option<Form>
    ensures { result ≡ form_of (map string_bytes words.now.items) }
{
    match words.as_slice() {
        [] => Some(Form::Plain),
        [name, vcpu, line] => form_with(name.as_str(), vcpu.as_bytes(), line.as_bytes()),
        _ => None,
    }
}

fn form_with(name: &str, vcpu: &[u8], line: &[u8]) -> Option<Form>
    ensures { result ≡ form_with name.now vcpu.now line.now }
{
    match name {
        "why" => Some(Form::Why(place_of(vcpu, line)?)),
        _ => None,
    }
}

fn place_of(vcpu: &[u8], line: &[u8]) -> Option<Place>
    ensures { result ≡ place_of vcpu.now line.now }
{
    Some(Place {
        vcpu: number_of(vcpu)?,
        line: number_of(line)?,
    })
}

// The number that a word spells, of 1 to 20 decimal digits.
fn number_of(word: &[u8]) -> Option<u64>
    ensures { result ≡ number_of word.now }
{
    if word.is_empty() || word.len() > 20 {
        return None;
    }
    let mut n: u64 = 0;
    for digit in word {
        if !digit.is_ascii_digit() {
            return None;
        }
        n = n.checked_mul(10)?.checked_add(u64::from(*digit - b'0'))?;
    }
    Some(n)
}
