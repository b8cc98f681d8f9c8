//! What a virtual CPU does in a shared world with its domain's memory: it fetches bytes, and puts bytes.
//!
//! The layer above uses two contracts: `fetch` and `put` each are one step, whose outcome is possible for the script. It stands on
//! shared_caller, which has the virtual CPU.
#![tactic(auto)]

mod memory;

pub use memory::{Writing, fetch, put};
