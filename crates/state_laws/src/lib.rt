//! What holds of every state that a run comes to, as one record: keys, serials and pages of a domain's rings differ, clean rings
//! hold their untaken messages, and a notice stands only for who may wait.
//!
//! The layers above use one contract: `runs_are_valid`, the record holds after every step of every run. It stands on argo_model.
#![tactic(auto)]

mod valid;

pub use valid::{acts_keep, runs_are_valid, starts_are_valid};
