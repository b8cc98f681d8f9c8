//! The action of each stage, and what follows its outcome.

ghost use Rattle.std.specs.Prelude.{◌≡◌, ◌≢◌, ◌^◌, ◌<◌, ℕ, List, length, true, false, IsTrue, IfOk, OnOk};
ghost use Rattle.argo_base.specs.Slots.{is_legal};
ghost use Rattle.argo_model.specs.Rules.Fit.{is_fit};
ghost use Rattle.guest_lib.specs.Ends.{EndsPut};
ghost use Rattle.guest_lib.specs.declared.own_ring.OwnRing.{OwnRing as AnyRing};
ghost use Rattle.guest_lib.specs.Receiving.{Step, action_of, step_left, IsShort};

use crate::ask::Ask;
use crate::fetched::missed_by;
use crate::own_ring::OwnRing;
use crate::received::Received;
use crate::stage::{Onward, Stage};
use argo_base::{Message, NoMemory};
use argo_model::Outcome;
use std::alloc::Global;

impl Stage {
    ghost use Rattle.guest_lib.specs.Stage.{IsStage, StaysReady, IsAction, CanHear, Follows, Hears, step_of};

    /// The next action, with the memory that its outcome will want.
    #[inline(always)]
    pub(crate) fn ask(&mut self, ring: OwnRing) -> Result<Ask, NoMemory>
        requires some { 0 < step_left (step_of self.old) }
        requires ready { IsStage ring.len false self.old }
        requires ring { IsTrue (is_legal ring.len) }
        ensures does { IfOk result (λ a. IsAction ring (step_of self.old) (action_of a)) }
        ensures fit { IfOk result (λ a. IsTrue (is_fit (action_of a))) }
        ensures alike { step_of self.new ≡ step_of self.old }
        ensures room { OnOk result (IsStage ring.len true self.new) }
        ensures keeps { StaysReady ring.len self.old self.new }
    {
        match self {
            Stage::Rx => Ok(ring.fetch(0, 4)),
            Stage::Tx { .. } => Ok(ring.fetch(4, 4)),
            Stage::Head { rx, .. } => Ok(ring.fetch(64 + *rx, 16)),
            Stage::Body(body) => body.ask(),
            Stage::Word { word, .. } => Ok(Ask::Put {
                page: u64::from(ring.page),
                off: 0,
                word: word.to_le_bytes(),
            }),
            Stage::Done => unreachable!(),
        }
    }

    /// Goes on with the bytes of a fetch, or answers what the recv came to.
    #[inline(always)]
    pub(crate) fn hear(&mut self, alloc: Global, ring: OwnRing, bytes: &[u8]) -> Option<Received>
        requires ready { IsStage ring.len true self.old }
        requires ring { IsTrue (is_legal ring.len) }
        requires can { CanHear ring (step_of self.old) (Outcome.Bytes bytes.now) }
        ensures { Hears ring (step_of self.old) bytes.now result self.new }
    {
        match self {
            Stage::Rx => self.goes(ring.rx_heard(bytes)),
            Stage::Tx { rx } => {
                let onward = ring.tx_heard(*rx, bytes);
                self.goes(onward)
            }
            Stage::Head { rx, tx } => {
                let onward = ring.head_heard(alloc, *rx, *tx, bytes);
                self.goes(onward)
            }
            Stage::Body(body) => {
                if body.hear(bytes) {
                    return None;
                }
                *self = body.word_stage(alloc);
                None
            }
            Stage::Word { .. } | Stage::Done => unreachable!(),
        }
    }

    // Goes on to the next stage, or answers what the recv came to.
    #[inline(always)]
    fn goes(&mut self, onward: Onward) -> Option<Received>
        ensures { (ring : AnyRing) (step : Step) (bytes : List ℕ) →
            Follows ring step (Outcome.Bytes bytes) onward → Hears ring step bytes result self.new }
    {
        match onward {
            Onward::To(stage) => {
                *self = stage;
                None
            }
            Onward::Ended(received) => {
                *self = Stage::Done;
                Some(received)
            }
        }
    }

    /// What the recv came to with an outcome that is not the bytes of a fetch.
    pub(crate) fn ended_by(self, ring: OwnRing, outcome: &Outcome) -> Received
        requires ready { IsStage ring.len true self }
        requires ring { IsTrue (is_legal ring.len) }
        requires can { CanHear ring (step_of self) outcome.now }
        requires no_bytes { (bytes : List ℕ) → outcome.now ≢ Outcome.Bytes bytes }
        ensures { Follows ring (step_of self) outcome.now (Onward.Ended result) }
    {
        match self {
            Stage::Word { message, .. } => taken(message, outcome),
            _ => missed_by(outcome),
        }
    }
}

// What the library comes to with the outcome of the put of the rx word.
fn taken(message: Message, outcome: &Outcome) -> Received
    requires { length message.body < 2 ^ 32 }
    ensures ends { EndsPut message outcome.now result }
    ensures short { IsShort result }
{
    match outcome {
        Outcome::Done => Received::Msg(message),
        Outcome::Gone => Received::Gone,
        _ => Received::Fault,
    }
}
