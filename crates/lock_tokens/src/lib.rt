//! Locks whose ranks stand in their types. What a caller holds is a rising list of ranks, and a lock is taken only above all of them.
//!
//! The layer above uses one contract: `RwGate::read`, `RwGate::write` and `Gate::lock` put their rank at the end of the list that
//! is held, and only the part whose rank stands last there may be given back. It stands on no crate.
#![tactic(auto)]

pub mod examples;
mod gate;
mod held;
mod rw_gate;
#[cfg(test)]
mod tests;

pub use gate::{Gate, LockPart};
pub use held::Held;
pub use rw_gate::{ReadPart, RwGate, WritePart};
