//! The hypercall argo_op, by its command.

ghost use Rattle.std.specs.Prelude.{◌≡◌};
ghost use Rattle.argo_model.specs.Programs.Asks.{refuse_at_once};
ghost use Rattle.argo_model.specs.Programs.Program.{caller_of as the_caller};
ghost use Rattle.argo_model.specs.Programs.Register.{has_more as more_than_one};
ghost use Rattle.line_phase.specs.Calls.{op_of, register_of, unregister_of, send_of, notify_of};
ghost use Rattle.line_phase.specs.Followed.{Leads};
ghost use Rattle.line_phase.specs.declared.phase.Followed.{Followed};

use crate::cursor::Cursor;
use crate::fetch::reading;
use crate::phase::{Phase, Question, Reader};
use crate::reads::{MOST_IOVS, RegisterRead, SendArgs, SendRead};
use argo_base::{DomId, Errno};
use argo_model::Actor;
use std::alloc::Global;

/// The rings that one notify sweeps at most.
const MOST_SWEEPS: u32 = 128;

/// The hypercall argo_op: its caller and its arguments.
#[derive(Clone, Copy)]
pub struct Call {
    pub caller: DomId,
    pub a1: u64,
    pub a2: u64,
    pub a3: u64,
    pub a4: u64,
}

impl Call {
    /// The phase at which the call of this command begins.
    #[inline(always)]
    pub fn start(&self, alloc: Global, command: u64) -> Phase
        ensures { Leads (op_of self.now command) 8700 (Followed.To result) }
    {
        match command {
            1 => self.register_ring(alloc),
            2 => self.unregister_ring(alloc),
            3 => self.sendv(alloc),
            4 => self.notify(),
            _ => refuse(Errno::OpNotSupp),
        }
    }

    #[inline(always)]
    fn register_ring(&self, alloc: Global) -> Phase
        ensures { Leads (register_of self.now) 13 (Followed.To result) }
    {
        if 1 < self.a4 {
            return refuse(Errno::Inval);
        }
        let read = RegisterRead::Head {
            list: self.a2,
            count: self.a3,
            flags: self.a4,
        };
        reading(alloc, Cursor::over(self.a1, 12), Reader::Register(read))
    }

    #[inline(always)]
    fn unregister_ring(&self, alloc: Global) -> Phase
        ensures { Leads (unregister_of self.now) 3 (Followed.To result) }
    {
        if self.has_more() {
            return refuse(Errno::Inval);
        }
        let read = RegisterRead::Old;
        reading(alloc, Cursor::over(self.a1, 8), Reader::Register(read))
    }

    #[inline(always)]
    fn sendv(&self, alloc: Global) -> Phase
        ensures { Leads (send_of self.now) 4117 (Followed.To result) }
    {
        if (MOST_IOVS as u64) < self.a3 || 0x1_0000_0000 <= self.a4 {
            return refuse(Errno::Inval);
        }
        let read = SendRead::Head(SendArgs {
            caller: self.caller,
            iovs: self.a2,
            count: self.a3 as u32,
            kind: self.a4 as u32,
        });
        reading(alloc, Cursor::over(self.a1, 16), Reader::Send(read))
    }

    #[inline(always)]
    fn notify(&self) -> Phase
        ensures { Leads (notify_of self.now) 1410 (Followed.To result) }
    {
        if self.has_more() {
            return refuse(Errno::Inval);
        }
        Phase::Asking(Question::Sweep {
            base: self.a1,
            after: 0,
            later: MOST_SWEEPS - 1,
        })
    }

    // Whether an argument is given besides the first.
    fn has_more(&self) -> bool
        ensures { result ≡ more_than_one self.now.a2 self.now.a3 self.now.a4 }
    {
        self.a2 != 0 || self.a3 != 0 || self.a4 != 0
    }
}

/// The domain of an actor; the control section has none.
pub fn caller_of(actor: Actor) -> DomId
    ensures { result ≡ the_caller actor }
{
    match actor {
        Actor::Vcpu(dom, _) => dom,
        Actor::Control => DomId::ANY,
    }
}

// The call is refused without any other action.
fn refuse(e: Errno) -> Phase
    ensures { Leads (refuse_at_once e) 1 (Followed.To result) }
{
    Phase::Asking(Question::Refuse(e))
}
