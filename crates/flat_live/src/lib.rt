//! What a live domain has: its memory in flat bytes, its flag, and its rings, in maps.
//!
//! The layer above uses `Live`, a `LiveDomain`: each act is the rule's on what a domain has alive. It stands on live_domain.
#![tactic(auto)]

mod closed_rings;
mod final_rings;
mod free_pages;
mod live;
mod matches;
mod memory;
mod notices;
mod offers;
mod own;
mod puts;
mod queries;
mod registers;
mod ring;
mod spelling;
mod starts;

pub use live::Live;
