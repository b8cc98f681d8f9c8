//! What every crate of the Argo machine speaks of: domain ids, ring keys, error numbers, byte strings, lists, messages, and
//! the arithmetic of a ring's slots.
//!
//! The layer above uses `Items`, which contracts see as a list, the functions of `slots`, and the definitions of `specs/`. It
//! stands on the kit's vectors of a fixed capacity.
#![tactic(auto)]

mod dom_id;
mod dom_list;
mod errno;
mod generator;
mod items;
mod limits;
mod message;
mod message_list;
mod no_memory;
mod piece;
mod ring_id_set;
mod ring_key;
pub mod slots;
#[cfg(test)]
mod tests;

pub use dom_id::DomId;
pub use dom_list::{DomList, Ended};
pub use errno::Errno;
pub use generator::{drawn, next_number};
pub use items::{Bytes, Items, PageList};
pub use limits::{
    GREATEST_RING, LEAST_RING, LONGEST_BODY, MOST_NOTICES, PAGE_BYTES, limits_are_the_rules,
};
pub use message::{Message, Messages};
pub use message_list::MessageList;
pub use no_memory::NoMemory;
pub use piece::Piece;
pub use ring_id_set::RingIdSet;
pub use ring_key::{RingId, RingKey};
