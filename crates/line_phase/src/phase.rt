//! How far a line is, in place of all the outcomes that it has had.

use crate::cursor::Cursor;
use crate::reads::{Entry, NewRing, NotifyRead, RegisterRead, SendRead};
use argo_base::{DomId, Errno};
use argo_model::{Address, Answer, Load, Reply};
use guest_lib::Recv;

/// What a range of guest memory is fetched for.
#[derive(Drop)]
pub enum Reader {
    /// A load shows the bytes.
    Show,
    Register(RegisterRead),
    Send(SendRead),
    Notify(NotifyRead),
}

/// What is put into a range of guest memory.
#[derive(Drop)]
pub enum Text {
    /// The bytes of a store.
    Stored,
    /// What notify answers in an entry.
    Answer { answer: Answer, entry: Entry },
}

/// A single action of a line, and what it is for.
#[derive(Drop)]
pub enum Question {
    /// A rest before a refusal.
    Refuse(Errno),
    Destroy(DomId),
    Reset(DomId),
    Create(DomId),
    Unregister {
        port: u32,
        partner: DomId,
    },
    /// The page list is as it was read.
    Register {
        ring: NewRing,
        list: Vec<u8>,
    },
    Deliver {
        address: Address,
        load: Load,
    },
    /// A sweep of the ring after a serial, with so many to come. The entries of the notify are at `base`.
    Sweep {
        base: u64,
        after: u64,
        later: u32,
    },
    Query {
        entry: Entry,
        to: DomId,
        to_port: u32,
        need: u32,
    },
}

/// How far a line is.
#[derive(Drop)]
pub enum Phase {
    /// What is left of a range is to be fetched, after the bytes that were fetched so far.
    Reading {
        rest: Cursor,
        got: Vec<u8>,
        reader: Reader,
    },
    /// What is left of a range is to be put: the last bytes of the text.
    Writing {
        rest: Cursor,
        text: Text,
    },
    /// A single action is to come.
    Asking(Question),
    /// A look at the flag is to come, and so many after it.
    Looking {
        later: u32,
    },
    /// The guest's library takes a message.
    Receiving(Recv),
    /// No line is left.
    Ended,
}

/// Where a line goes after an outcome.
#[derive(Drop)]
pub enum Followed {
    /// To its next action.
    To(Phase),
    /// It is over, with its reply.
    Over(Reply),
}
