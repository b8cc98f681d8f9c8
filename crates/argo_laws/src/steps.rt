//! What each step of a run does to flags and notices.

ghost use Rattle.argo_laws.specs.Headline.{FlagsStayNext, NoticesStandNext};
ghost use Rattle.argo_model.specs.Runs.Script.{Script};
ghost use Rattle.std.specs.Prelude.{List, ℕ};

/// In every run of every script, whichever section steps next, a notice stands until it ends legally, and is made legally.
pub fn notices_stand()
    ensures { (s : Script) (schedule : List ℕ) → NoticesStandNext s schedule }
{}

/// In every run of every script, whichever section steps next, a flag is set and cleared by the steps that may do so alone.
pub fn flags_stay()
    ensures { (s : Script) (schedule : List ℕ) → FlagsStayNext s schedule }
{}
