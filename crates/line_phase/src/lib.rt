//! How far a line of a script is: what it fetches, puts or asks next, and the phase, or the reply, to which an outcome leads.
//!
//! The layer above uses one contract: from each phase a program goes on (`Leads`), with at most so many actions, which is what the line
//! still does. It stands on argo_base, argo_abi, argo_model, iov_plan, and guest_lib, whose `Recv` is a phase of its own.
#![tactic(auto)]

mod call;
mod cursor;
mod fetch;
mod layout;
mod notify;
mod phase;
mod question;
mod ranges;
mod reader;
mod reads;
mod refusal;
mod register;
mod send;
mod text;

pub use call::{Call, caller_of};
pub use cursor::Cursor;
pub use fetch::{fetch_first, read_on, reading};
pub use phase::{Followed, Phase, Question, Reader, Text};
pub use ranges::{Moved, fetch_moved, put_moved, seen_moved};
pub use reads::{Entry, Gather, NewRing, NotifyRead, RegisterRead, SendArgs, SendRead};
