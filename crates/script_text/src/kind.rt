ghost use Rattle.std.specs.Prelude.{◌≡◌};
ghost use Rattle.script_text.specs.Kind.{kind_text};
ghost use Rattle.script_text.specs.declared.kind.Cause.TheVariants as causes;
ghost use Rattle.script_text.specs.declared.kind.ReadFault.TheVariants as faults;

use argo_base::NoMemory;

/// What is wrong with a line of a script. The fault of a script is that of its first line with one, and the fault of a line
/// the first in this order, where a wrong `pages`, `off` or `gen` comes right after `Count`.
#[derive(Clone, Copy, Debug, PartialEq, Eq)]
pub enum ScriptKind {
    /// The script has more bytes than a script may have.
    Size,
    /// The first line that says something is not `argo 1` or `argo 2`.
    Header,
    /// A word is none that may stand there.
    Word,
    /// The line may not stand there.
    Place,
    /// The line has too few words or too many.
    Count,
    /// A word should be a number.
    Number,
    /// A word should be an even number of hexadecimal digits.
    Hex,
    /// A number is out of its range, or the bytes are too many.
    Range,
    /// The domain was named before where it should be new, or was not where it should be known.
    Domain,
    /// The script as a whole has too much of something.
    Limit,
}

impl ScriptKind {
    /// The word for it in a message.
    pub fn text(self) -> &'static str
        ensures { result.now ≡ kind_text self }
    {
        match self {
            ScriptKind::Size => "size",
            ScriptKind::Header => "header",
            ScriptKind::Word => "word",
            ScriptKind::Place => "place",
            ScriptKind::Count => "count",
            ScriptKind::Number => "number",
            ScriptKind::Hex => "hex",
            ScriptKind::Range => "range",
            ScriptKind::Domain => "domain",
            ScriptKind::Limit => "limit",
        }
    }
}

/// The first fault of a script. Lines count from 1; line 0 stands for the script as a whole.
#[derive(Clone, Copy, Debug, PartialEq, Eq)]
pub struct ScriptFault {
    pub line: u32,
    pub kind: ScriptKind,
}

/// Why there are no scripts.
#[derive(Clone, Copy, Debug, PartialEq, Eq)]
pub enum ReadFault {
    Script(ScriptFault),
    NoMemory,
}

impl From<NoMemory> for ReadFault {
    ghost from_gives = { λ _ fault. fault ≡ faults.NoMemory };

    fn from(_error: NoMemory) -> ReadFault {
        ReadFault::NoMemory
    }
}

/// Why a line was not read.
#[derive(Clone, Copy, Debug, PartialEq, Eq)]
pub(crate) enum Cause {
    Kind(ScriptKind),
    NoMemory,
}

impl From<ScriptKind> for Cause {
    ghost from_gives = { λ kind cause. cause ≡ causes.Kind kind };

    fn from(kind: ScriptKind) -> Cause {
        Cause::Kind(kind)
    }
}

impl From<NoMemory> for Cause {
    ghost from_gives = { λ _ cause. cause ≡ causes.NoMemory };

    fn from(_error: NoMemory) -> Cause {
        Cause::NoMemory
    }
}
