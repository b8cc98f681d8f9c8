//! The laws in one record, as the program's promise reads.

ghost use Rattle.argo_laws.specs.Headline.{Headline};
ghost use Rattle.argo_model.specs.Runs.Script.{Script};
ghost use Rattle.std.specs.Prelude.{List, ℕ};

/// At every point of every run: what clean rings hold, why each reply came, how long notices stand, and which steps set and clear flags.
pub fn headline_holds()
    ensures { (s : Script) (schedule : List ℕ) → Headline s schedule }
{}
