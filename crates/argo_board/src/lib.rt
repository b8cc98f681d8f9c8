//! The board of a run in threads: the journal of all steps in one order, the flags of the domains, and totals that are exact.
//!
//! The layer above uses one contract: `Board::append` adds just the entry that it is given and counts it in the pass's totals, and
//! `Board::close` gives the entries in order with totals that add up to them. It stands on argo_base and argo_model.
#![tactic(auto)]

mod board;
mod books;
mod entry;
mod entry_list;
pub mod examples;
mod flags;
mod journal;
mod pass;
#[cfg(test)]
mod tests;
mod totals;

pub use board::Board;
pub use entry::{Entry, FlagChange};
pub use entry_list::{EntryIter, EntryList};
pub use pass::Pass;
