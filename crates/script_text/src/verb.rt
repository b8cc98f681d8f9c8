ghost use Rattle.std.specs.Prelude.{◌≡◌};
ghost use Rattle.std.specs.Str.{bytes_eq};
ghost use Rattle.script_text.specs.Verbs.{verb_of_one, verb_of};

/// The first word of a line behind the header.
#[derive(Clone, Copy, Debug, PartialEq, Eq)]
pub(crate) enum Verb {
    Domain,
    Vcpu,
    Control,
    Store,
    Load,
    Op,
    Await,
    Recv,
    Destroy,
    Reset,
    Create,
}

/// Whether a word is the one of that name.
pub(crate) fn is_word(word: &[u8], name: &[u8]) -> bool
    ensures { result ≡ bytes_eq word.now name.now }
{
    word == name
}

fn verb_of_one(word: &[u8]) -> Option<Verb>
    ensures { result ≡ verb_of_one word.now }
{
    let verb = if is_word(word, b"domain") {
        Verb::Domain
    } else if is_word(word, b"vcpu") {
        Verb::Vcpu
    } else if is_word(word, b"control") {
        Verb::Control
    } else if is_word(word, b"store") {
        Verb::Store
    } else if is_word(word, b"load") {
        Verb::Load
    } else if is_word(word, b"op") {
        Verb::Op
    } else if is_word(word, b"await") {
        Verb::Await
    } else if is_word(word, b"recv") {
        Verb::Recv
    } else if is_word(word, b"destroy") {
        Verb::Destroy
    } else {
        return None;
    };
    Some(verb)
}

/// The verb that a word is in a format.
pub(crate) fn verb_of(version: u32, word: &[u8]) -> Option<Verb>
    ensures { result ≡ verb_of version word.now }
{
    if version == 2 && is_word(word, b"reset") {
        return Some(Verb::Reset);
    }
    if version == 2 && is_word(word, b"create") {
        return Some(Verb::Create);
    }
    verb_of_one(word)
}
