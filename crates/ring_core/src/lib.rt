//! A ring behind its lock: the pages that were moved into it, the messages on them, and who waits for room.
//!
//! The layers above use `Ring`: each call is the act of the rules on the ring with its own bytes, and the type keeps that a
//! clean ring holds its untaken messages whole and in order. It stands on ring_space, whose copies it uses, on guest_pages, whose
//! pages it holds, and on pending_list.
#![tactic(auto)]

mod accept;
mod laws;
mod log;
mod offers;
mod puts;
mod restarts;
mod ring;
mod spelling;
mod start;
#[cfg(test)]
mod tests;
mod waiting;
mod writes;

pub use accept::{Accept, Offer};
pub use laws::rows_lie_in_flat_memory;
pub use ring::Ring;
