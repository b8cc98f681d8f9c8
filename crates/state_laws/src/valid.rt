//! States that are valid: every one that a run comes to.

ghost use Rattle.std.specs.Prelude.{IsTrue, List, ℕ};
ghost use Rattle.argo_model.specs.Rules.Act.{act};
ghost use Rattle.argo_model.specs.Rules.Fit.{is_fit_for};
ghost use Rattle.argo_model.specs.Rules.State.{State};
ghost use Rattle.argo_model.specs.Runs.Run.{run, start};
ghost use Rattle.argo_model.specs.Runs.Script.{Script};
ghost use Rattle.argo_model.specs.declared.action.Action.{Action};
ghost use Rattle.argo_model.specs.declared.scripts.Actor.{Actor};
ghost use Rattle.state_laws.specs.Valid.{IsValid};

/// Every script starts in a valid state.
pub fn starts_are_valid()
    ensures { (s : Script) → IsValid (start s).state }
{}

/// Each action that its section may perform leaves a valid state valid.
pub fn acts_keep()
    ensures { (actor : Actor) (a : Action) (s : State) → IsTrue (is_fit_for actor a) → IsValid s
        → IsValid (act actor a s).state }
{}

/// Every run of every script comes to valid states alone, after each of its steps: a schedule is any list of section numbers.
pub fn runs_are_valid()
    ensures { (s : Script) (schedule : List ℕ) → IsValid (run s schedule).state }
{}
