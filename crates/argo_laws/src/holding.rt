//! What clean rings hold, in every run.

ghost use Rattle.argo_laws.specs.Headline.{CleanRingsHold};
ghost use Rattle.argo_model.specs.Runs.Script.{Script};
ghost use Rattle.std.specs.Prelude.{List, ℕ};

/// After every schedule of every script, each clean ring holds, whole and in order, the messages that it accepted since its last
/// start and that its owner has not taken.
pub fn clean_rings_hold()
    ensures { (s : Script) (schedule : List ℕ) → CleanRingsHold s schedule }
{}
