//! A virtual CPU of a domain that is alive, as it acts in a shared world while the domains are read, and the index lists that it mends.
//!
//! The layers above use one type: `Caller`, which contracts see as the virtual CPU that it is. Each call that mends a list takes one lock
//! and gives it back, so the pass is as before. It stands on shared_parts, what lies behind the locks, and on shared_steps, which has the
//! pass and the board.
#![tactic(auto)]

mod caller;
mod lists;
mod waiting;

pub use caller::Caller;
