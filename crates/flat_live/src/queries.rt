//! A sender that asks for room in a ring.
ghost use Rattle.std.specs.Prelude.{◌≡◌, ◌/◌, IsTrue, IfOk, OnOk, OnErr, length};
ghost use Rattle.argo_model.specs.Rules.RingBytes.{paged, with_notices};
ghost use Rattle.argo_model.specs.Rules.Query.{standing_flags, request, answer_of};
ghost use Rattle.flat_live.specs.Memory.{are_there};

use crate::ring::Ring;
use argo_base::{DomId, NoMemory, RingKey, slots};
use argo_model::Answer;

const EXISTS: u16 = 1;

const SHARED: u16 = 2;

const EMPTY: u16 = 4;

const SUFFICIENT: u16 = 8;

const MSGSIZE: u16 = 16;

const BUSY: u16 = 32;

impl Ring {
    /// Answers a sender that asks for room in this ring, which stands under the key. Where memory runs out the ring stays.
    pub(crate) fn answer(
        &mut self,
        memory: &[u8],
        key: RingKey,
        sender: DomId,
        need: u32,
    ) -> Result<Answer, NoMemory>
        requires { IsTrue (are_there (length memory.now / 4096) self.old.pages) }
        ensures answer { IfOk result
            (λ a. a ≡ answer_of (paged memory.now self.old) key sender need) }
        ensures left { OnOk result
            (self.new
            ≡ (with_notices (paged memory.now self.old)
            (request (paged memory.now self.old) sender need).notices).ring) }
        ensures err { OnErr result (self.new ≡ self.old) }
        ensures pages { self.new.pages ≡ self.old.pages }
    {
        let flags = self.standing(memory, key);
        let most = self.len - 32;
        let flag = self.request(memory, sender, need)?;
        Ok(Answer {
            flags: flags + flag,
            need,
            most,
        })
    }

    // The flags that say how the ring stands.
    fn standing(&self, memory: &[u8], key: RingKey) -> u16
        requires { IsTrue (are_there (length memory.now / 4096) self.now.pages) }
        ensures { result ≡ standing_flags (paged memory.now self.now) key }
    {
        let shared = if key.partner.is_any() { SHARED } else { 0 };
        let empty = if self.is_empty(memory) { EMPTY } else { 0 };
        EXISTS + shared + empty
    }

    // Asks for room for a body of `need` bytes: the flag that tells what came of it.
    fn request(&mut self, memory: &[u8], sender: DomId, need: u32) -> Result<u16, NoMemory>
        requires { IsTrue (are_there (length memory.now / 4096) self.old.pages) }
        ensures flag { IfOk result
            (λ flag. flag ≡ (request (paged memory.now self.old) sender need).flag) }
        ensures left { OnOk result
            (self.new
            ≡ (with_notices (paged memory.now self.old)
            (request (paged memory.now self.old) sender need).notices).ring) }
        ensures err { OnErr result (self.new ≡ self.old) }
        ensures pages { self.new.pages ≡ self.old.pages }
    {
        if slots::too_big(self.len, need) {
            return Ok(MSGSIZE);
        }
        if slots::fits_into(self.free(memory), need) {
            self.notices.withdraw(sender);
            return Ok(SUFFICIENT);
        }
        if self.notices.is_busy(sender) {
            return Ok(BUSY);
        }
        self.notices.note(sender, need)?;
        Ok(0)
    }
}
