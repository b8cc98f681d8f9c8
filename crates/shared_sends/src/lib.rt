//! What a virtual CPU does in a shared world with rings of other domains: it sends to one, and asks one for room.
//!
//! The layer above uses two contracts: `deliver` and `query` each are one step, whose outcome is possible for the script. It stands on
//! shared_caller, which has the virtual CPU and the index lists.
#![tactic(auto)]

mod questions;
mod send;

pub use questions::{Asked, query};
pub use send::{Sent, deliver};
