//! Runs in threads: one thread a virtual CPU, over the world that they share.
//!
//! The layer above uses one contract: the closed world that `run_threads` returns is whole for its script, so each section has
//! been heard out. It stands on vcpu_machine, whose `Vcpu` works through the lines of a section, and on shared_world.
#![tactic(auto)]

mod run;
#[cfg(test)]
mod tests;
mod worker;
mod workers;

pub use run::{run_threads, run_threads_with};
