//! The way to a world in which sections perform their actions.

ghost use Rattle.std.specs.Prelude.{◌≡◌, List, Option, length, IsTrue, IfOk, IfErr, OnErr};
ghost use Rattle.argo_model.specs.declared.scripts.Actor.{Actor as AnyActor};
ghost use Rattle.argo_model.specs.declared.closing.Totals.{Totals as AnyTotals};
ghost use Rattle.argo_model.specs.declared.action.Action.TheVariants.{Put};
ghost use Rattle.argo_model.specs.declared.action.Outcome.TheVariants.{Bytes, Done};
ghost use Rattle.argo_model.specs.Rules.Access.{is_fit_at, has_steps_left, ActsIn, counted_at, fetch_of, outcome_unseen, delivered_to};
ghost use Rattle.argo_model.specs.Rules.Outcomes.{can_have};
ghost use Rattle.argo_model.specs.Rules.State.{State};

use crate::{Action, Address, Load, Outcome, Unseen};
use argo_base::{NoMemory, Piece};

/// A world in which the sections of a script perform their actions. Contracts see who its sections are, which never changes, and
/// the totals of each; and its state, where it tells that. Then each outcome and each new state are exactly the rules'.
pub trait Access {
    ghost told: { Self → Option State };

    ghost actors: { Self → List AnyActor };

    ghost totals: { Self → List AnyTotals };

    /// Performs an action of section `v`. Where memory runs out, all is as before.
    fn act(&mut self, v: u32, a: Action) -> Result<Outcome, NoMemory>
        requires fit { IsTrue (is_fit_at (actors self.old) v a) }
        requires few { IsTrue (has_steps_left (totals self.old) v) }
        ensures can { IfOk result (λ o. IsTrue (can_have a o)) }
        ensures acts { IfOk result
            (λ o. ActsIn (actors self.old) v a (told self.old) o (told self.new)) }
        ensures counts { IfOk result (λ o. totals self.new ≡ counted_at (totals self.old) v o) }
        ensures actors_stay { actors self.new ≡ actors self.old }
        ensures err_told { OnErr result (told self.new ≡ told self.old) }
        ensures err_totals { OnErr result (totals self.new ≡ totals self.old) };

    /// The bytes of a fetch of section `v`, where they stand. Nothing changes: `count` counts its step.
    fn seen(&self, v: u32, piece: Piece) -> Result<&[u8], Unseen>
        requires { IsTrue (is_fit_at (actors self.now) v (fetch_of piece)) }
        ensures size { IfOk result (λ bytes. length bytes.now ≡ piece.n) }
        ensures bytes { IfOk result (λ bytes. ActsIn (actors self.now) v (fetch_of piece)
            (told self.now) (Bytes bytes.now) (told self.now)) }
        ensures unseen { IfErr result (λ u. ActsIn (actors self.now) v (fetch_of piece)
            (told self.now) (outcome_unseen u) (told self.now)) };

    /// Counts a step of section `v` that accepts no message.
    fn count(&mut self, v: u32)
        requires { IsTrue (has_steps_left (totals self.old) v) }
        ensures counts { totals self.new ≡ counted_at (totals self.old) v Done }
        ensures told_stays { told self.new ≡ told self.old }
        ensures actors_stay { actors self.new ≡ actors self.old };

    /// Performs a put of section `v`. Where memory runs out, all is as before.
    fn put(&mut self, v: u32, page: u64, off: u32, bytes: &[u8]) -> Result<Outcome, NoMemory>
        requires fit { IsTrue (is_fit_at (actors self.old) v (Put page off bytes.now)) }
        requires few { IsTrue (has_steps_left (totals self.old) v) }
        ensures can { IfOk result (λ o. IsTrue (can_have (Put page off bytes.now) o)) }
        ensures acts { IfOk result (λ o. ActsIn (actors self.old) v (Put page off bytes.now)
            (told self.old) o (told self.new)) }
        ensures counts { IfOk result (λ o. totals self.new ≡ counted_at (totals self.old) v o) }
        ensures actors_stay { actors self.new ≡ actors self.old }
        ensures err_told { OnErr result (told self.new ≡ told self.old) }
        ensures err_totals { OnErr result (totals self.new ≡ totals self.old) };

    /// Delivers a load of section `v`, which is taken. Where memory runs out, all is as before, the load too.
    fn deliver(&mut self, v: u32, at: Address, load: &mut Load) -> Result<Outcome, NoMemory>
        requires fit { IsTrue (is_fit_at (actors self.old) v (delivered_to at load.old)) }
        requires few { IsTrue (has_steps_left (totals self.old) v) }
        ensures can { IfOk result (λ o. IsTrue (can_have (delivered_to at load.old) o)) }
        ensures acts { IfOk result (λ o. ActsIn (actors self.old) v (delivered_to at load.old)
            (told self.old) o (told self.new)) }
        ensures counts { IfOk result (λ o. totals self.new ≡ counted_at (totals self.old) v o) }
        ensures actors_stay { actors self.new ≡ actors self.old }
        ensures err_told { OnErr result (told self.new ≡ told self.old) }
        ensures err_totals { OnErr result (totals self.new ≡ totals self.old) }
        ensures err_load { OnErr result (load.new ≡ load.old) };
}
