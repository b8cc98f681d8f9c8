//! A step of a shared world: the pass of a virtual CPU with the locks that it holds, and the entry of the step under the lock of the board.
//!
//! The layers above use one contract: `Steps::note` adds one entry with an outcome, and counts it in the pass. A `WorldPass` takes locks by
//! rising rank alone. It stands on lock_tokens, whose ranks it keeps, and on argo_board, which has the journal.
#![tactic(auto)]

mod pass;
mod pause;
mod short;
mod steps;

pub use pass::WorldPass;
pub use pause::{NoPause, Pause};
pub use steps::Steps;
