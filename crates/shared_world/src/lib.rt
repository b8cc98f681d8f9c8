//! The world that threads share: rings, tables, lists and pages behind locks of rising rank, and the journal of all steps.
//!
//! The layer above uses one contract: `World::act` performs an action under its locks, its outcome is possible for the script, and it is
//! counted in the pass as one entry of the journal. `World::close` gives the journal, exact totals, and the domains as they stand. It
//! stands on shared_acts, which has the actions that go on beside one another, and on shared_ends, which has acts on whole domains.
#![tactic(auto)]

mod blanks;
mod closed;
mod closing;
mod ends;
mod world;

pub use blanks::Blanks;
pub use closed::Closed;
pub use shared_steps::{NoPause, Pause, WorldPass};
pub use world::World;
