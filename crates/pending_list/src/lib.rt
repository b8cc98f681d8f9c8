//! The senders that wait for room in a ring, at most 32 of them, each with the size of body that it waits for.
//!
//! The layer above uses `Notices`, which contracts see as the rows of a finite map from domain to size, by rising domain; each
//! call is told by the words for notices of argo_base, on which it stands. Nothing here takes memory.
#![tactic(auto)]

mod ending;
mod notices;
mod search;
#[cfg(test)]
mod tests;

pub use notices::{Note, Notices};
