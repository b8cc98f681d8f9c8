//! Serial runs: a script is run by the picks of a seed, one step after another.
//!
//! The layer above uses one contract: what `run_scripts` returns is what a report shows of the run under the picks of the seed.
//! It stands on argo_machine, over plain_world.
#![tactic(auto)]

mod laws;
mod picks;
mod run;

pub use laws::picks_are_unique;
pub use run::run_scripts;

#[cfg(test)]
mod tests;
