//! Why each line of a script has its reply: of what its steps looked at, the first cause in the table of its call that holds. Each law
//! is for any states in which the steps are made, and so for every run.
//!
//! The layer above uses one contract: `replies_have_causes`, the laws over every script and schedule. It stands on argo_model.
#![tactic(auto)]

mod calls;
pub mod examples;
mod lines;
mod runs;

pub use calls::{notify, register_ring, sendv, unknown_command, unregister_ring};
pub use lines::{await_flag, create, destroy, gone, load, recv, reset, store};
pub use runs::replies_have_causes;
