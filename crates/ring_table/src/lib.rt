//! A domain's rings by their keys: a finite map with at most 128 rows, and the ring that a sender meets.
//!
//! The layer above uses `Table`, which contracts see as the list of its rows by rising key, and `find`, whose answer is
//! `match_of` of that list. It stands on argo_base.
#![tactic(auto)]

mod fault;
mod row;
mod steps;
mod table;
#[cfg(test)]
mod tests;

pub use fault::InsertFault;
pub use row::Row;
pub use steps::Steps;
pub use table::{MOST_ROWS, Table};
