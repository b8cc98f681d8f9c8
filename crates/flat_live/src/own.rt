//! Acts of a domain on its own memory, flag and rings.
ghost use Rattle.std.specs.Prelude.{◌≡◌, ◌+◌, ◌≤◌, length, nat_lt, ◌/◌, IfOk, IfSome, IfNone};
ghost use Rattle.argo_model.specs.declared.action.Outcome.TheVariants.{Bytes, Fault};
ghost use Rattle.argo_model.specs.Rules.Act as acts;
ghost use Rattle.argo_model.specs.Rules.Effects.{after};
ghost use Rattle.live_domain.specs.Own.{take_away};

use crate::live::Live;
use crate::memory::start_of;
use crate::puts::put_into_rings;
use argo_base::{Bytes, Errno, NoMemory, Piece, RingKey};
use argo_model::Outcome;
use std::alloc::Global;

impl Live {
    /// The bytes of a piece, where its page is there.
    pub(crate) fn shown(&self, piece: Piece) -> Option<&[u8]>
        requires { piece.off + piece.n ≤ 4096 }
        ensures some { IfSome result
            (λ bytes. acts.fetch self.now piece.page piece.off piece.n ≡ Bytes bytes.now) }
        ensures none { IfNone result
            (acts.fetch self.now piece.page piece.off piece.n ≡ Fault) }
    {
        let memory = self.bytes.as_slice();
        if !is_there(memory, piece.page) {
            return None;
        }
        let (_, rest) = memory.split_at(start_of(memory, piece.page) + piece.off as usize);
        let (part, _) = rest.split_at(piece.n as usize);
        Some(part)
    }

    /// Fetches a piece.
    pub(crate) fn fetch(&self, alloc: Global, piece: Piece) -> Result<Outcome, NoMemory>
        requires { piece.off + piece.n ≤ 4096 }
        ensures { IfOk result
            (λ o. o ≡ acts.fetch self.now piece.page piece.off piece.n) }
    {
        match self.shown(piece) {
            Some(bytes) => Ok(Outcome::Bytes(Bytes::copy_of(alloc, bytes)?)),
            None => Ok(Outcome::Fault),
        }
    }

    /// Puts bytes at an offset of a page.
    pub(crate) fn put_bytes(&mut self, page: u64, off: u32, bytes: &[u8]) -> Outcome
        requires { off + length bytes.now ≤ 4096 }
        ensures outcome { result ≡ (acts.put self.old page off bytes.now).outcome }
        ensures left { self.new ≡ after self.old (acts.put self.old page off bytes.now) }
    {
        let memory = self.bytes.as_slice();
        if !is_there(memory, page) {
            return Outcome::Fault;
        }
        let at = start_of(memory, page) + off as usize;
        put_into_rings(&mut self.rings, memory, page, off, bytes);
        self.bytes.write(at, bytes);
        Outcome::Done
    }

    /// Tells the flag, and clears it.
    pub(crate) fn look(&mut self) -> Outcome
        ensures outcome { result ≡ (acts.look self.old).outcome }
        ensures left { self.new ≡ after self.old (acts.look self.old) }
    {
        let flag = self.flag;
        self.flag = false;
        Outcome::Flag(flag)
    }

    /// Takes a ring away.
    pub(crate) fn unregister(&mut self, key: RingKey) -> Outcome
        ensures outcome { result ≡ (take_away self.old key).outcome }
        ensures left { self.new ≡ after self.old (take_away self.old key) }
    {
        if self.rings.remove(&key).is_none() {
            return Outcome::Refused(Errno::NoEnt);
        }
        Outcome::Done
    }
}

// Whether the memory has the page.
fn is_there(memory: &[u8], page: u64) -> bool
    ensures { result ≡ nat_lt page (length memory.now / 4096) }
{
    page < (memory.len() / 4096) as u64
}
