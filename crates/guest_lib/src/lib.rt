//! The guest's library: it takes one message from a ring of the guest's own, by fetches and puts of the guest's memory.
//!
//! The layer above uses one contract: `Recv::next` and `Recv::feed` are the library's program `receive`, action by action, and what
//! it comes to is the whole message. `Recv::ask` is `next` for a caller that performs the action at once: it takes no memory for the
//! action itself. It stands on argo_base, argo_abi, iov_plan and argo_model.
#![tactic(auto)]

mod ask;
mod body;
mod fetched;
mod own_ring;
mod received;
mod recv;
mod ring;
mod slots;
mod stage;
#[cfg(test)]
mod tests;
mod turns;

pub use ask::Ask;
pub use received::Received;
pub use recv::Recv;
