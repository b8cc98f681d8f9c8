//! The laws over every run of every script: what clean rings hold, until when notices stand, and which steps set and clear flags.
//! A schedule is any list of section numbers, so each law holds at every point of a run. No function here does anything.
//!
//! The layer above uses one contract: `headline_holds`, all of them in one record. It stands on state_laws.
#![tactic(auto)]

mod beside;
mod examples;
mod headline;
mod holding;
mod replies;
mod steps;

pub use beside::{equal_words_start_clean, names_are_once, rings_stand_well};
pub use examples::{flags_are_cleared, flags_are_set, names_go_on, notices_end, notices_stay};
pub use headline::headline_holds;
pub use holding::clean_rings_hold;
pub use replies::replies_have_causes;
pub use steps::{flags_stay, notices_stand};
