//! The call sendv.

ghost use Rattle.std.specs.Prelude.{◌≡◌, ◌+◌, ◌*◌, ◌≤◌, length, take, IsTrue};
ghost use Rattle.argo_base.specs.Iovs.{iov_at, iovs_at};
ghost use Rattle.argo_model.specs.Rules.Access.{delivered_to};
ghost use Rattle.argo_model.specs.Rules.Fit.{is_fit_load};
ghost use Rattle.line_phase.specs.Sending.{clear_pads, own_source, head_of_send, deliver_to, judge_iovs, IsNextBuffer};
ghost use Rattle.line_phase.specs.Followed.{Leads};

use crate::cursor::Cursor;
use crate::fetch::reading_into;
use crate::layout::{iov, send_addr};
use crate::phase::{Followed, Phase, Question, Reader};
use crate::reads::{Gather, MOST_IOVS, SendArgs, SendRead};
use crate::refusal::refusal;
use argo_abi::{Iov, SendAddr};
use argo_base::{Bytes, DomId, Errno};
use argo_model::{Action, Address, Load};
use std::alloc::Global;

/// The act that delivers a load there.
pub(crate) fn delivery(at: &Address, load: Load) -> Action
    ensures { result ≡ delivered_to at.now load }
{
    Action::Deliver {
        port: at.port,
        to: at.to,
        to_port: at.to_port,
        kind: at.kind,
        load,
    }
}

impl SendRead {
    ghost use Rattle.line_phase.specs.Sending.{after_send_read, after_send_fault, send_size, IsSendRead, most_after_send};

    /// How many bytes more than those of the range that is being fetched are to be fetched into the same memory.
    pub(crate) fn later(&self) -> u32 {
        match self {
            SendRead::Head(args) => args.count.saturating_sub(1).saturating_mul(16),
            SendRead::Iovs { .. } => 0,
            SendRead::Body(gather) => gather.later,
        }
    }

    /// Where the call goes with the bytes.
    #[inline(always)]
    pub(crate) fn used(self, alloc: Global, got: Vec<u8>) -> Followed
        requires ready { IsSendRead self }
        requires size { length got.items ≡ send_size self }
        ensures { Leads (after_send_read self got.items) (most_after_send self) result }
    {
        match self {
            SendRead::Head(args) => head(alloc, got, args),
            SendRead::Iovs { count, address } => judged(alloc, got, count, address),
            SendRead::Body(gather) => gather.go_on(got),
        }
    }

    /// Where the call goes when a page is not there.
    pub(crate) fn failed(self) -> Followed
        requires ready { IsSendRead self }
        ensures { Leads (after_send_fault self) (most_after_send self) result }
    {
        match self {
            SendRead::Body(gather) => deliver(gather.address, Load::Faulted(gather.size)),
            _ => Followed::Over(refusal(Errno::Fault)),
        }
    }
}

impl Gather {
    ghost use Rattle.line_phase.specs.Sending.{IsGather, IsFirstBuffer, gather_on, gather_left};

    // Where the gather goes with what it got so far.
    #[inline(always)]
    fn go_on(self, got: Vec<u8>) -> Followed
        requires ready { IsGather self }
        requires size { length got.items + self.later ≡ self.size }
        ensures { Leads (gather_on self got.items) (gather_left self) result }
    {
        let list = self.list.as_slice();
        let Some((place, iov)) = next_buffer(list, self.next, self.count) else {
            return deliver(self.address, Load::Body(Bytes::from_vec(got)));
        };
        self.buffer(place, iov, got)
    }

    // The buffer at a place is fetched, which is the first of those left that has bytes.
    #[inline(always)]
    fn buffer(self, place: u32, iov: Iov, got: Vec<u8>) -> Followed
        requires ready { IsGather self }
        requires first { IsFirstBuffer (iovs_at self.list.items self.count) self.next place iov }
        requires size { length got.items + self.later ≡ self.size }
        ensures { Leads (gather_on self got.items) (gather_left self) result }
    {
        let rest = Cursor::over(iov.hnd, iov.len);
        let gather = Gather {
            next: place + 1,
            later: self.later - iov.len,
            ..self
        };
        Followed::To(Phase::Reading {
            rest,
            got,
            reader: Reader::Send(SendRead::Body(gather)),
        })
    }
}

// The message is delivered.
fn deliver(address: Address, load: Load) -> Followed
    requires { IsTrue (is_fit_load load) }
    ensures { Leads (deliver_to address load) 1 result }
{
    Followed::To(Phase::Asking(Question::Deliver { address, load }))
}

// After the addresses.
#[inline(always)]
fn head(alloc: Global, got: Vec<u8>, args: SendArgs) -> Followed
    requires size { length got.items ≡ 16 }
    requires few { args.count ≤ 8 }
    ensures { Leads (head_of_send args got.items) 4115 result }
{
    let count = args.count;
    let addr = send_addr(got.as_slice());
    if !has_no_pads(&addr) {
        return Followed::Over(refusal(Errno::Inval));
    }
    if !has_own_source(args.caller, &addr) {
        return Followed::Over(refusal(Errno::Perm));
    }
    let address = Address {
        port: addr.src.aport,
        to: DomId(addr.dst.domain_id),
        to_port: addr.dst.aport,
        kind: args.kind,
    };
    if count == 0 {
        let mut none = got;
        none.clear();
        return judged(alloc, none, 0, address);
    }
    let rest = Cursor::over(args.iovs, 16 * count);
    let reader = Reader::Send(SendRead::Iovs { count, address });
    Followed::To(reading_into(got, rest, reader))
}

// Whether both pads are 0.
fn has_no_pads(addr: &SendAddr) -> bool
    ensures { result ≡ clear_pads addr.now }
{
    addr.src.pad == 0 && addr.dst.pad == 0
}

// Whether the source names the caller, or the wildcard.
fn has_own_source(caller: DomId, addr: &SendAddr) -> bool
    ensures { result ≡ own_source caller addr.now }
{
    let named = DomId(addr.src.domain_id);
    named == caller || named == DomId::ANY
}

// After the buffers.
#[inline(always)]
fn judged(alloc: Global, list: Vec<u8>, count: u32, address: Address) -> Followed
    requires size { length list.items ≡ 16 * count }
    requires few { count ≤ 8 }
    ensures { Leads (judge_iovs address (iovs_at list.items count)) 4112 result }
{
    let iovs = read_iovs(list.as_slice(), count as usize);
    let (given, _) = iovs.split_at(count as usize);
    match iov_plan::count(given) {
        Err(e) => deliver(address, Load::Refused(e)),
        Ok(size) => {
            let gather = Gather {
                list,
                count,
                next: 0,
                later: size,
                size,
                address,
            };
            gather.go_on(Vec::new(alloc))
        }
    }
}

// The first so many buffers of a list of them.
fn read_iovs(list: &[u8], count: usize) -> [Iov; MOST_IOVS]
    requires size { length list.now ≡ 16 * count }
    requires few { count ≤ 8 }
    ensures { take count result ≡ iovs_at list.now count }
{
    let none = Iov {
        hnd: 0,
        len: 0,
        pad: 0,
    };
    let mut iovs = [none; MOST_IOVS];
    for i in 0..count {
        iovs[i] = read_iov(list, i);
    }
    iovs
}

// The buffer at a place of a list of them.
fn read_iov(list: &[u8], place: usize) -> Iov
    requires { 16 * place + 16 ≤ length list.now }
    ensures { result ≡ iov_at list.now place }
{
    let (_, rest) = list.split_at(16 * place);
    let (here, _) = rest.split_at(16);
    iov(here)
}

// The first of so many buffers of a list that has bytes, from a place on, with its place.
#[inline(always)]
fn next_buffer(list: &[u8], from: u32, count: u32) -> Option<(u32, Iov)>
    requires size { length list.now ≡ 16 * count }
    requires within { from ≤ count }
    ensures { IsNextBuffer (iovs_at list.now count) from result }
{
    for place in from..count {
        let iov = read_iov(list, place as usize);
        if iov.len != 0 {
            return Some((place, iov));
        }
    }
    None
}
