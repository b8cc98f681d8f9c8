//! What a live domain has: its pages, by themselves or moved into its rings, its flag, and its rings, with the acts that touch
//! nothing else.
//!
//! The layer above uses `Live` by the traits `LiveDomain` and `KeyedRings` of live_domain, whose contracts are the rules'. It stands
//! on ring_core, whose rings hold their own pages, and on ring_table.
#![tactic(auto)]

mod acts;
mod closed;
mod ends;
mod finals;
mod forgets;
mod home;
mod keyed;
mod live;
mod memory;
mod offers;
mod puts;
mod queries;
mod registers;
mod sweeps;
#[cfg(test)]
mod tests;

pub use live::Live;
