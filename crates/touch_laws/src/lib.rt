//! What each action leaves as it is, for one who keeps lists of rings: where rings stand, and who waits on them.
//!
//! The layer above uses two contracts: `acts_touch_little`, an action that neither ends nor resets a domain touches one ring at most, and
//! only the notices that it is said to; and `ends_take_one`, a ring or a notice ends alone. It stands on state_laws, and on domains and
//! section_world, whose words for rings by their ids and for actions it takes.
#![tactic(auto)]

mod touches;

pub use touches::{acts_touch_little, ends_take_one};
