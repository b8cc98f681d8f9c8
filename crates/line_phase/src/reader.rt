//! What follows a range that is fetched.

ghost use Rattle.std.specs.Prelude.{ℕ, ◌+◌, ◌≤◌, min, length};

use crate::phase::{Followed, Reader};
use crate::refusal::refusal;
use argo_base::{Bytes, Errno};
use argo_model::Reply;
use std::alloc::Global;

impl Reader {
    ghost use Rattle.line_phase.specs.Reader.{after_read, after_fault, HasSize, IsReader, most_after};
    ghost use Rattle.line_phase.specs.Followed.{Leads};

    /// The room that a range takes of which so many bytes are left, with the ranges that follow it.
    pub fn room(&self, left: u32) -> usize
        ensures { min left 4096 ≤ result }
    {
        match self {
            Reader::Send(read) => left as usize + read.later() as usize,
            _ => left as usize,
        }
    }

    /// Where the line goes with all the bytes of the range, and those that were fetched before.
    #[inline(always)]
    pub(crate) fn used(self, alloc: Global, got: Vec<u8>) -> Followed
        requires ready { IsReader self }
        requires size { HasSize (length got.items) self }
        ensures { Leads (after_read self got.items) (most_after self) result }
    {
        match self {
            Reader::Show => Followed::Over(Reply::Hex(Bytes::from_vec(got))),
            Reader::Register(read) => read.used(alloc, got),
            Reader::Send(read) => read.used(alloc, got),
            Reader::Notify(read) => read.used(alloc, got.as_slice()),
        }
    }

    /// Where the line goes when a page is not there.
    pub(crate) fn failed(self) -> Followed
        requires ready { IsReader self }
        ensures { Leads (after_fault self) (most_after self) result }
    {
        match self {
            Reader::Show => Followed::Over(Reply::Fault),
            Reader::Register(_) | Reader::Notify(_) => Followed::Over(refusal(Errno::Fault)),
            Reader::Send(read) => read.failed(),
        }
    }
}
