//! The body of a message, fetched piece by piece.

ghost use Rattle.std.specs.Prelude.{◌≡◌, ◌+◌, ◌<◌, ◌≤◌, ℕ, Bool, length, true, false, IsTrue, IsFalse, IfOk, OnOk};
ghost use Rattle.guest_lib.specs.declared.own_ring.OwnRing.{OwnRing as AnyRing};
ghost use Rattle.argo_model.specs.Rules.Fit.{is_fit};
ghost use Rattle.guest_lib.specs.Receiving.{action_of, step_left};

use crate::ask::Ask;
use crate::stage::{BodyRead, Onward, Stage};
use argo_base::{Bytes, DomId, Message, NoMemory};
use argo_model::Outcome;
use std::alloc::Global;
use std::mem;

impl BodyRead {
    ghost use Rattle.guest_lib.specs.Stage.{IsBody, HasBodySize, IsStage, Follows, GoAlike, IsAction, CanHearPiece, read_body, step_of, word_stage};

    /// The fetch of the next piece, with the memory for all of the body.
    #[inline(always)]
    pub(crate) fn ask(&mut self) -> Result<Ask, NoMemory>
        requires some { 0 < length self.old.slots }
        requires size { HasBodySize self.old }
        ensures does { IfOk result (λ a. (ring : AnyRing)
            → IsAction ring (read_body self.old) (action_of a)) }
        ensures fit { IfOk result (λ a. IsTrue (is_fit (action_of a))) }
        ensures alike { read_body self.new ≡ read_body self.old }
        ensures room { OnOk result (IsBody true self.new) }
        ensures keeps { (ready : Bool) → IsBody ready self.old → IsBody ready self.new }
    {
        let size = self.head.len.saturating_sub(16) as usize;
        self.got.reserve_exact(size - self.got.len())?;
        let Some(piece) = self.slots.first() else {
            unreachable!();
        };
        Ok(Ask::Fetch(piece))
    }

    /// Takes the bytes of the next piece: whether others are to come.
    #[inline(always)]
    pub(crate) fn hear(&mut self, bytes: &[u8]) -> bool
        requires ready { IsBody true self.old }
        requires can { CanHearPiece self.old (Outcome.Bytes bytes.now) }
        ensures more { IsTrue result → (ring : AnyRing) → Follows ring (read_body self.old)
            (Outcome.Bytes bytes.now) (Onward.To (Stage.Body self.new)) }
        ensures last { IsFalse result → (ring : AnyRing) → Follows ring (read_body self.old)
            (Outcome.Bytes bytes.now) (Onward.To (word_stage self.new)) }
    {
        self.got.extend_from_slice(bytes).unwrap();
        self.slots.drop_first();
        self.slots.first().is_some()
    }

    /// The put of the rx word, with the message.
    #[inline(always)]
    pub(crate) fn word_stage(&mut self, alloc: Global) -> Stage
        ensures { result ≡ word_stage self.old }
    {
        let got = mem::replace(&mut self.got, Vec::new(alloc));
        Stage::Word {
            word: self.word,
            message: Message {
                src: DomId(self.head.source.domain_id),
                port: self.head.source.aport,
                kind: self.head.message_type,
                body: Bytes::from_vec(got),
            },
        }
    }

    /// The stage after the bytes so far: the next piece, or the put of the rx word.
    #[inline(always)]
    pub(crate) fn stage(mut self, alloc: Global) -> Stage
        requires { HasBodySize self }
        ensures alike { GoAlike (step_of result) (read_body self) }
        ensures ready { (len : ℕ) → IsStage len false result }
        ensures some { 0 < step_left (step_of result) }
        ensures few { step_left (step_of result) ≤ length self.slots + 1 }
    {
        if self.slots.first().is_some() {
            return Stage::Body(self);
        }
        self.word_stage(alloc)
    }
}
