//! A run in threads is compared with the machine's run under the same schedule.
//!
//! The layer above uses one contract: `audit` agrees exactly where nothing differs, and then gives what a report shows of the machine's
//! run; else it gives the first difference. It stands on argo_machine, which makes the machine's steps, and on shared_world, whose
//! closed world it compares.
#![tactic(auto)]

mod audited;
mod by_domain;
mod compare;
mod entries;
mod heard;
mod lists;
mod names;
mod rings;
mod rows;
mod sides;
mod split;
#[cfg(test)]
mod tests;
mod values;

pub use audited::Audited;
pub use compare::audit;
pub use split::Split;
