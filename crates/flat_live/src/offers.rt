//! A message that is offered to a ring.
ghost use Rattle.std.specs.Prelude.{◌≡◌, ℕ, ◌/◌, ◌≤◌, List, ◌&&◌, not, IsTrue, IfOk, OnOk, OnErr, length};
ghost use Rattle.argo_base.specs.Iovs.{longest_body};
ghost use Rattle.argo_base.specs.Slots.{fits, is_place, is_too_big, room};
ghost use Rattle.argo_model.specs.Rules.Deliver as deliver;
ghost use Rattle.argo_model.specs.Rules.Effects.{after};
ghost use Rattle.argo_model.specs.Rules.Fit.{is_fit_load};
ghost use Rattle.argo_model.specs.Rules.Messages.{room_of};
ghost use Rattle.argo_model.specs.Rules.RingBytes.{paged, free, laid};
ghost use Rattle.flat_live.specs.Memory.{are_there};
ghost use Rattle.flat_live.specs.Offers.{IfBody, turned_away, offered};

use crate::memory::write_tx;
use crate::ring::Ring;
use crate::spelling::write_message;
use argo_base::{Bytes, DomId, Errno, Message, NoMemory, slots};
use argo_model::{Load, Outcome};
use live_domain::Offer;
use std::mem;

impl Ring {
    /// Takes an offer to this ring of a domain with this memory. Where memory runs out all stays, the offer too.
    pub(crate) fn offer(
        &mut self,
        memory: &mut Bytes,
        offer: &mut Offer,
    ) -> Result<Outcome, NoMemory>
        requires there { IsTrue (are_there (length memory.old / 4096) self.old.pages) }
        requires short { IsTrue (is_fit_load offer.old.load) }
        ensures outcome { IfOk result
            (λ o. (owner : ℕ) → o
            ≡ (deliver.offer (paged memory.old self.old) owner offer.old).outcome) }
        ensures ring { OnOk result
            ((owner : ℕ) → self.new ≡ (offered memory.old self.old owner offer.old).ring) }
        ensures memory { OnOk result
            ((owner : ℕ) → memory.new
            ≡ laid self.old.pages (offered memory.old self.old owner offer.old).own memory.old) }
        ensures err_ring { OnErr result (self.new ≡ self.old) }
        ensures err_memory { OnErr result (memory.new ≡ memory.old) }
        ensures err_offer { OnErr result (offer.new ≡ offer.old) }
        ensures pages { self.new.pages ≡ self.old.pages }
        ensures length { length memory.new ≡ length memory.old }
    {
        let size = match &offer.load {
            Load::Refused(error) => return Ok(Outcome::Refused(*error)),
            Load::Faulted(size) => {
                if !self.has_room(memory.as_slice(), *size) {
                    return self.turn_away(offer.sender, *size);
                }
                return Ok(Outcome::Refused(Errno::Fault));
            }
            Load::Body(body) => body.len() as u32,
        };
        if !self.has_room(memory.as_slice(), size) {
            return self.turn_away(offer.sender, size);
        }
        self.accept(memory, offer)?;
        Ok(Outcome::Accepted(size))
    }

    // Whether a body of `size` bytes can fit, and does now.
    fn has_room(&self, memory: &[u8], size: u32) -> bool
        requires { IsTrue (are_there (length memory.now / 4096) self.now.pages) }
        ensures is { result
            ≡ (not (is_too_big self.now.len size) && fits (free (paged memory.now self.now)) size) }
        ensures held { IsTrue result → room size ≤ self.now.len }
    {
        !slots::too_big(self.len, size) && slots::fits_into(self.free(memory), size)
    }

    // Refuses a body that does not fit: for good, or for now, and then the sender is noted.
    fn turn_away(&mut self, sender: DomId, size: u32) -> Result<Outcome, NoMemory>
        ensures outcome { IfOk result
            (λ o. (own : List ℕ) → o
            ≡ (turned_away (record { ring = self.old; own = own }) sender size).outcome) }
        ensures ring { OnOk result ((own : List ℕ) →
            self.new
            ≡ (after (record { ring = self.old; own = own })
            (turned_away (record { ring = self.old; own = own }) sender size)).ring) }
        ensures err { OnErr result (self.new ≡ self.old) }
        ensures pages { self.new.pages ≡ self.old.pages }
    {
        if slots::too_big(self.len, size) {
            return Ok(Outcome::Refused(Errno::MsgSize));
        }
        if self.notices.is_busy(sender) {
            return Ok(Outcome::Refused(Errno::Busy));
        }
        self.notices.note(sender, size)?;
        Ok(Outcome::Refused(Errno::Again))
    }

    // Takes the message of an offer in: into the memory of the ring's owner, and into the untaken ones where the ring is clean.
    fn accept(&mut self, memory: &mut Bytes, offer: &mut Offer) -> Result<(), NoMemory>
        requires there { IsTrue (are_there (length memory.old / 4096) self.old.pages) }
        requires room { IfBody offer.old (λ message. room_of message ≤ self.old.len) }
        requires short { IfBody offer.old (λ message. length message.body ≤ longest_body) }
        ensures ring { OnOk result
            (IfBody offer.old (λ message. self.new ≡ deliver.ring_with self.old message)) }
        ensures memory { OnOk result
            (IfBody offer.old (λ message. memory.new
            ≡ laid self.old.pages
            (deliver.bytes_with (paged memory.old self.old) message) memory.old)) }
        ensures err_ring { OnErr result (self.new ≡ self.old) }
        ensures err_memory { OnErr result (memory.new ≡ memory.old) }
        ensures err_offer { OnErr result (offer.new ≡ offer.old) }
        ensures pages { self.new.pages ≡ self.old.pages }
        ensures length { length memory.new ≡ length memory.old }
    {
        self.untaken.reserve()?;
        let Load::Body(body) = mem::replace(&mut offer.load, Load::Faulted(0)) else {
            return Ok(());
        };
        let message = Message {
            src: offer.sender,
            port: offer.port,
            kind: offer.kind,
            body,
        };
        self.tx = self.write(memory, &message);
        if self.clean {
            self.untaken.push_reserved(message);
        }
        Ok(())
    }

    // Writes a message at the ring's tx, and the next tx, into the memory of the ring's owner: that tx.
    fn write(&self, memory: &mut Bytes, message: &Message) -> u32
        requires there { IsTrue (are_there (length memory.old / 4096) self.now.pages) }
        requires room { room_of message.now ≤ self.now.len }
        requires short { length message.now.body ≤ longest_body }
        ensures tx { result ≡ (deliver.ring_with self.now message.now).tx }
        ensures place { IsTrue (is_place self.now.len result) }
        ensures memory { memory.new
            ≡ laid self.now.pages
            (deliver.bytes_with (paged memory.old self.now) message.now) memory.old }
        ensures length { length memory.new ≡ length memory.old }
    {
        let tx = slots::advance(self.len, self.tx, message.body.len() as u32);
        let pages = self.pages.as_slice();
        write_message(memory, pages, self.len, self.tx, message);
        write_tx(memory, pages, tx);
        tx
    }
}
