//! The nine structures of Xen's public header argo.h, each read from its bytes and laid out as such.
//!
//! The layer above uses one contract: what `put_` lays out `get_` reads back, and the other way round, each field at its place.
//! It stands on argo_base.
#![tactic(auto)]

mod addr;
mod fields;
mod iov;
mod message_head;
mod register_ring;
mod ring_data;
mod ring_data_entry;
mod ring_head;
mod send_addr;
#[cfg(test)]
mod tests;
mod unregister_ring;

pub use addr::{Addr, get_addr, put_addr};
pub use iov::{Iov, get_iov, put_iov};
pub use message_head::{MessageHead, get_message_head, put_message_head};
pub use register_ring::{RegisterRing, get_register_ring, put_register_ring};
pub use ring_data::{RingData, get_ring_data, put_ring_data};
pub use ring_data_entry::{RingDataEntry, get_ring_data_entry, put_ring_data_entry};
pub use ring_head::{RingHead, get_ring_head, put_ring_head};
pub use send_addr::{SendAddr, get_send_addr, put_send_addr};
pub use unregister_ring::{UnregisterRing, get_unregister_ring, put_unregister_ring};
