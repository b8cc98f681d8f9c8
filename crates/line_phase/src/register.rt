//! The calls that register a ring, or take one away.

ghost use Rattle.std.specs.Prelude.{◌≡◌, ◌&&◌, ◌==◌, length, IsTrue};
ghost use Rattle.line_phase.specs.Followed.{Leads};
ghost use Rattle.line_phase.specs.Registering.{is_lawful_head};
ghost use Rattle.argo_model.specs.Programs.Register.{register_head, unregister_head};

use crate::cursor::Cursor;
use crate::fetch::reading;
use crate::layout::{register_ring, unregister_ring};
use crate::phase::{Followed, Phase, Question, Reader};
use crate::reads::{NewRing, RegisterRead};
use crate::refusal::refusal;
use argo_abi::RegisterRing;
use argo_base::{DomId, Errno, PageList, slots};
use argo_model::Action;
use std::alloc::Global;

impl NewRing {
    ghost use Rattle.line_phase.specs.Registering.{register_on};

    /// The act that registers the ring on these pages.
    pub(crate) fn on(&self, pages: PageList) -> Action
        ensures { result ≡ register_on self.now pages }
    {
        Action::Register {
            port: self.port,
            partner: self.partner,
            len: self.len,
            pages,
            fail_exist: self.fail_exist,
        }
    }
}

impl RegisterRead {
    ghost use Rattle.line_phase.specs.Registering.{after_register_read, register_size, IsRegisterRead, most_after_register};
    ghost use Rattle.line_phase.specs.Followed.{Leads};

    /// Where the call goes with the bytes.
    pub(crate) fn used(self, alloc: Global, got: Vec<u8>) -> Followed
        requires ready { IsRegisterRead self }
        requires size { length got.items ≡ register_size self }
        ensures { Leads (after_register_read self got.items) (most_after_register self) result }
    {
        match self {
            RegisterRead::Old => unregister(got.as_slice()),
            RegisterRead::Head { list, count, flags } => {
                register(alloc, list, count, flags, got.as_slice())
            }
            RegisterRead::Pages(ring) => {
                Followed::To(Phase::Asking(Question::Register { ring, list: got }))
            }
        }
    }
}

// After the structure of unregister_ring.
fn unregister(bytes: &[u8]) -> Followed
    requires { length bytes.now ≡ 8 }
    ensures { Leads (unregister_head bytes.now) 1 result }
{
    let head = unregister_ring(bytes);
    if head.pad != 0 {
        return Followed::Over(refusal(Errno::Inval));
    }
    Followed::To(Phase::Asking(Question::Unregister {
        port: head.aport,
        partner: DomId(head.partner_id),
    }))
}

// After the structure of register_ring.
fn register(alloc: Global, list: u64, count: u64, flags: u64, bytes: &[u8]) -> Followed
    requires { length bytes.now ≡ 12 }
    ensures { Leads (register_head list count flags bytes.now) 11 result }
{
    let head = register_ring(bytes);
    if !is_lawful(count, &head) {
        return Followed::Over(refusal(Errno::Inval));
    }
    let ring = NewRing {
        port: head.aport,
        partner: DomId(head.partner_id),
        len: head.len,
        fail_exist: flags == 1,
    };
    let rest = Cursor::over(list, 8 * count as u32);
    let reader = Reader::Register(RegisterRead::Pages(ring));
    Followed::To(reading(alloc, rest, reader))
}

// Whether the structure is a lawful one, and this the count of its pages.
fn is_lawful(count: u64, head: &RegisterRing) -> bool
    ensures { result ≡ is_lawful_head count head.now }
{
    head.pad == 0 && slots::is_legal(head.len) && count == u64::from(slots::page_count(head.len))
}
