//! The flat world: domains with flat memories, in which the sections of a script perform their actions.
//!
//! The layer above uses `FlatWorld`, a `SerialWorld`: it tells its state, and each action is the rule's. It stands on flat_live, domains
//! and section_world.
#![tactic(auto)]

mod flat_domains;

pub use flat_domains::{FlatDomains, FlatWorld};
