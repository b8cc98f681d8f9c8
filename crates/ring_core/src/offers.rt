//! A message that is offered to a ring.
ghost use Rattle.std.specs.Prelude.{◌≡◌, ℕ, ◌≤◌, IsTrue, None, length};
ghost use Rattle.argo_base.specs.Limits.{longest_body};
ghost use Rattle.argo_model.specs.Rules.Deliver as deliver;
ghost use Rattle.argo_model.specs.Rules.Effects.{after};
ghost use Rattle.argo_model.specs.Rules.Fit.{is_fit_load};
ghost use Rattle.ring_core.specs.Held.{paged, Becomes, IsSaid};
ghost use Rattle.ring_core.specs.Offers.{outcome_of, refusal_of, refusal_in, has_room_for, turned_away};

use crate::accept::{Accept, Offer};
use crate::ring::Ring;
use crate::spelling::write_message;
use argo_base::{DomId, Message, slots};
use argo_model::Load;
use pending_list::Note;
use ring_space::write_tx;

impl Ring {
    /// Takes an offer: the buffers may have been refused, the body be too big, or not fit now, or have met a fault; else it is
    /// taken in as a message. It takes no memory.
    pub fn accept(&mut self, offer: Offer) -> Accept
        requires reserved { IsTrue self.old.has_room }
        requires short { IsTrue (is_fit_load offer.load) }
        ensures outcome { (owner : ℕ) →
            IsSaid self.old (outcome_of result) (λ p. (deliver.offer p owner offer).outcome) }
        ensures refusal { refusal_of result ≡ refusal_in offer.load }
        ensures left { (owner : ℕ) →
            Becomes self.old self.new (λ p. after p (deliver.offer p owner offer)) }
        ensures id { self.new.id ≡ self.old.id }
    {
        let Offer {
            src,
            port,
            kind,
            load,
        } = offer;
        match load {
            Load::Refused(error) => Accept::Refused(error),
            Load::Faulted(size) => {
                if !self.has_room(size) {
                    return self.turn_away(src, size);
                }
                Accept::Faulted
            }
            Load::Body(body) => {
                let size = body.len() as u32;
                if !self.has_room(size) {
                    return self.turn_away(src, size);
                }
                self.take_in(Message {
                    src,
                    port,
                    kind,
                    body,
                });
                Accept::Accepted(size)
            }
        }
    }

    // Whether a body of `size` bytes can fit, and does now.
    fn has_room(&self, size: u32) -> bool
        ensures { result ≡ has_room_for (paged 0 self.now) size }
    {
        !slots::too_big(self.len, size) && slots::fits_into(self.free(), size)
    }

    // Refuses a body that does not fit: ever, or now, and then the sender is noted.
    fn turn_away(&mut self, sender: DomId, size: u32) -> Accept
        ensures outcome { IsSaid self.old (outcome_of result)
            (λ p. (turned_away p sender size).outcome) }
        ensures refusal { refusal_of result ≡ None }
        ensures left { Becomes self.old self.new (λ p. after p (turned_away p sender size)) }
        ensures id { self.new.id ≡ self.old.id }
    {
        if slots::too_big(self.len, size) {
            return Accept::TooBig;
        }
        match self.notices.note(sender, size) {
            Note::Busy => Accept::Busy,
            Note::Noted => Accept::NoRoom,
        }
    }

    // Takes a message in: its bytes into the slots, and it into the untaken messages where the ring is clean.
    fn take_in(&mut self, message: Message)
        requires reserved { IsTrue self.old.has_room }
        requires room { IsTrue (has_room_for (paged 0 self.old) (length message.body)) }
        requires short { length message.body ≤ longest_body }
        ensures left { Becomes self.old self.new (λ p. deliver.with_message p message) }
        ensures id { self.new.id ≡ self.old.id }
    {
        let at = self.tx;
        let tx = slots::advance(self.len, at, message.body.len() as u32);
        write_message(&mut self.row, self.len, at, &message);
        write_tx(&mut self.row, tx);
        self.tx = tx;
        if !self.clean {
            return;
        }
        self.untaken.push_reserved(message);
    }
}
