//! How a check ends.

ghost use Rattle.std.specs.Prelude.{◌≡◌};
ghost use Rattle.argo_check.specs.Numbers.{status_number};

use script_text::ScriptKind;

/// How a check ends.
#[derive(Clone, Copy, Debug, PartialEq, Eq)]
pub enum CheckStatus {
    /// The report is that of the script under its schedule, and the schedule is complete.
    Yes,
    /// It is not: the first line that is wrong. Lines count from 1, and each with its line feed.
    No { line: u64 },
    /// The words have no form that the program knows, and the line of usage was written. Nothing was read.
    Usage,
    /// The source failed, and counted the fault. Nothing was written.
    SourceFault,
    /// The sink failed, and counted the fault. A part of the text that was due was written, and not all of it.
    SinkFault,
    /// What stands before the mark is no script. A line of the fault was written; line 0 is the script as a whole.
    Script { line: u32, kind: ScriptKind },
    /// Memory ran out. Nothing was written, or a part of the text that was due.
    NoMemory,
    /// No line of the input is the mark `%%`, which stands between script and report.
    Mark,
    /// The input has more than 268,435,456 bytes.
    Large,
}

impl CheckStatus {
    /// The exit status of the program.
    pub fn number(self) -> u8
        ensures { result ≡ status_number self }
    {
        match self {
            CheckStatus::Yes => 0,
            CheckStatus::No { .. } => 1,
            CheckStatus::Usage => 2,
            CheckStatus::SourceFault => 3,
            CheckStatus::SinkFault => 4,
            CheckStatus::Script { .. } => 5,
            CheckStatus::NoMemory => 7,
            CheckStatus::Mark => 9,
            CheckStatus::Large => 10,
        }
    }
}
