//! The words of the command line.

ghost use Rattle.std.specs.Prelude.{◌≡◌, ◌+◌, ◌≤◌, ◌^◌, Some, None, map};
ghost use Rattle.std.specs.String.{string_bytes};
ghost use Rattle.argo_run.specs.Words.{is_digit, decimal_value, number_of, form_alone, form_with, form_of};

/// How the script of the input is run.
#[derive(Clone, Copy, Debug, PartialEq, Eq)]
pub(crate) enum Way {
    /// `serial N`: by the picks of this seed.
    Serial(u64),
    /// `threads`: in threads.
    Threads,
}

/// What the words ask for.
#[derive(Clone, Copy, Debug, PartialEq, Eq)]
pub(crate) enum Form {
    /// The script of the input is run.
    Run(Way),
    /// `gen N`: the scripts of this number are run by its picks.
    Gen(u64),
}

/// The form of the words, if they have one.
pub(crate) fn form_of(words: &Vec<String>) -> Option<Form>
    ensures { result ≡ form_of (map string_bytes words.now.items) }
{
    match words.as_slice() {
        [name] => form_alone(name.as_str()),
        [name, number] => form_with(name.as_str(), number_of(number.as_bytes())?),
        _ => None,
    }
}

fn form_alone(name: &str) -> Option<Form>
    ensures { result ≡ form_alone name.now }
{
    match name {
        "threads" => Some(Form::Run(Way::Threads)),
        _ => None,
    }
}

fn form_with(name: &str, n: u64) -> Option<Form>
    ensures { result ≡ form_with name.now n }
{
    match name {
        "serial" => Some(Form::Run(Way::Serial(n))),
        "gen" => Some(Form::Gen(n)),
        _ => None,
    }
}

// The number that a word spells, of 1 to 20 decimal digits.
fn number_of(word: &[u8]) -> Option<u64>
    ensures { result ≡ number_of word.now }
{
    if word.is_empty() || word.len() > 20 {
        return None;
    }
    let mut n: u64 = 0;
    for digit in word {
        if !digit.is_ascii_digit() {
            return None;
        }
        n = n.checked_mul(10)?.checked_add(u64::from(*digit - b'0'))?;
    }
    Some(n)
}
