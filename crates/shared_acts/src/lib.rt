//! What a virtual CPU does in a shared world beside others, while the domains are read: each action under its locks, as one step.
//!
//! The layer above uses one contract: `act` performs an action, its outcome is possible for the script, and it is counted in the pass as
//! one entry of the journal. It stands on shared_memory, shared_rings and shared_sends, which have the actions by their subjects.
#![tactic(auto)]

mod acts;

pub use acts::act;
pub use shared_caller::Caller;
