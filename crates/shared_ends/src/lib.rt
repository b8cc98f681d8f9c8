//! Acts on whole domains of a shared world: each is destroyed, reset or made anew while its virtual CPU has the domains alone.
//!
//! The layer above uses one contract: `end_in` is one step, whose outcome the act may have. It stands on shared_parts, what lies behind
//! the locks, and on shared_steps, which has the pass and the board.
#![tactic(auto)]

mod ends;

pub use ends::{End, end_in};
