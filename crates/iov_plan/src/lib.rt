//! The buffers of a sender: the verdict on them, and the pieces of guest memory that each of them is.
//!
//! The layer above uses one contract: `pieces` gives the parts of a range that lie inside one page each, in rising order, and no
//! others. It stands on argo_abi.
#![tactic(auto)]

mod cut;
mod rest;
#[cfg(test)]
mod tests;
mod verdict;

pub use cut::pieces;
pub use rest::Pieces;
pub use verdict::count;
