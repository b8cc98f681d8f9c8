//! The schedule that a report names, read back: bytes to runs.
//!
//! The layer above uses one contract: `read_runs` gives the runs exactly where a report begins with the first line of its format
//! and the line of a schedule, word for word as a report is written. It stands on argo_model.
#![tactic(auto)]

mod number;
mod runs;
#[cfg(test)]
mod tests;
mod word;

pub use runs::read_runs;
