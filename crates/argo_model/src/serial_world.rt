//! A world in which a run goes on one step after another.

ghost use Rattle.std.specs.Prelude.{◌≡◌, ◌-◌, ◌<◌, ◌^◌, IfOk, Some, length, map, slice_get, option_map};
ghost use Rattle.argo_model.specs.Rules.Access.{steps_of};
ghost use Rattle.argo_model.specs.Rules.State.{State, start_state};
ghost use Rattle.argo_model.specs.Runs.Closed.{closed_domains};
ghost use Rattle.argo_model.specs.Runs.Final.{final_domain, no_steps};

use crate::{Access, ClosedDomains, FinalDomains, Scripts, TotalList};
use argo_base::NoMemory;
use std::alloc::Global;

/// A world in which a run goes on one step after another. It tells its state from the start, so each action is the rules'.
pub trait SerialWorld: Access + Sized {
    /// The world as a run of the script starts in it.
    fn start(alloc: Global, scripts: &Scripts) -> Result<Self, NoMemory>
        ensures state { IfOk result
            (λ w. Self.told w ≡ Some (start_state scripts.now.domains)) }
        ensures actors { IfOk result
            (λ w. Self.actors w ≡ map (λ x. x.actor) scripts.now.sections) }
        ensures totals { IfOk result
            (λ w. Self.totals w ≡ map (λ x. no_steps) scripts.now.sections) };

    /// How many steps section `v` has made.
    fn steps(&self, v: u32) -> u64
        requires { v < length (Self.totals self.now) }
        ensures { option_map (λ t. t.steps) (slice_get (Self.totals self.now) v) ≡ Some result };

    /// The domains as they stand, copied with all that they hold.
    fn closed(&self) -> Result<ClosedDomains, NoMemory>
        requires { steps_of (Self.totals self.now) < 2 ^ 32 - 1 }
        ensures { (s : State) → Self.told self.now ≡ Some s
            → IfOk result (λ domains. domains ≡ closed_domains s) };

    /// What a report shows of the domains, and the totals of each section. Where memory runs out, the world is lost.
    fn into_finals(self) -> Result<(FinalDomains, TotalList), NoMemory>
        requires { steps_of (Self.totals self) < 2 ^ 32 - 1 }
        ensures domains { (s : State) → Self.told self ≡ Some s
            → IfOk result (λ shown. shown.0 ≡ map final_domain s) }
        ensures totals { IfOk result (λ shown. shown.1 ≡ Self.totals self) };
}
