//! How a run ends.

ghost use Rattle.std.specs.Prelude.{◌≡◌};
ghost use Rattle.argo_run.specs.Numbers.{status_number};

use audit::Split;
use script_text::ScriptKind;
use shared_world::Closed;

/// How a run ends.
#[derive(Debug, Drop)]
pub enum Status {
    /// The text that is due was written whole.
    Done,
    /// The words have no form that the program knows, and the line of usage was written.
    Usage,
    /// The source failed, and counted the fault. Nothing was written.
    SourceFault,
    /// The sink failed, and counted the fault. A part of the text that was due was written, and not all of it.
    SinkFault,
    /// The bytes are no script. A line of the fault was written; line 0 is the script as a whole.
    Script { line: u32, kind: ScriptKind },
    /// The threads did not do what the machine does, first at this place, and the line of it was written; with the world as they left
    /// it. It comes of runs in threads alone, and is a fault of this program.
    Split(Split, Closed),
    /// Memory ran out. Nothing was written, or a part of the text that was due.
    NoMemory,
}

impl Status {
    /// The exit status of the program.
    pub fn number(&self) -> u8
        ensures { result ≡ status_number self.now }
    {
        match self {
            Status::Done => 0,
            Status::Usage => 2,
            Status::SourceFault => 3,
            Status::SinkFault => 4,
            Status::Script { .. } => 5,
            Status::Split(_, _) => 6,
            Status::NoMemory => 7,
        }
    }
}
