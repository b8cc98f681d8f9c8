//! What else holds of rings and of their names in every run, and which rings start clean.

ghost use Rattle.argo_laws.specs.Beside.{NameIsOnce, StandsWell, StartsCleanWhereEqual};
ghost use Rattle.argo_model.specs.Laws.RingNames.{RingName, standing};
ghost use Rattle.argo_model.specs.Rules.Matches.{RingAt};
ghost use Rattle.argo_model.specs.Runs.Run.{run};
ghost use Rattle.argo_model.specs.Runs.Script.{Script};
ghost use Rattle.std.specs.Prelude.{◌≡◌, List, Some, ℕ};

/// Every ring that stands in a run stands well: few rings a domain, few notices a ring and one a domain, each of a domain that may
/// wait there, and every page in one ring and at one place of it.
pub fn rings_stand_well()
    ensures { (s : Script) (schedule : List ℕ) (name : RingName) (at : RingAt)
        → standing (run s schedule).state name ≡ Some at
        → StandsWell (run s schedule).state at }
{}

/// No other ring ever has a ring's name: in every run, a name that stood after some steps and stands no more after more of them never
/// stands again, however the run goes on; and as long as it stands it has one key.
pub fn names_are_once()
    ensures { (s : Script) (steps more rest : List ℕ) (name : RingName)
        → NameIsOnce s steps more rest name }
{}

/// A ring starts clean exactly where its two index words are equal after its start.
pub fn equal_words_start_clean()
    ensures { StartsCleanWhereEqual }
{}
