//! The readers and writers that a program is handed, each with a count of its faults, and the two loops over them.
//!
//! The layer above uses `read_up_to`, which says what it took and what is left, and `write_whole`, which appends
//! a piece whole or tells of a fault that the sink counted. It stands on argo_base.
#![tactic(auto)]

mod calls;
mod failed;
mod mem_sink;
mod mem_source;
mod sink;
mod source;
mod std_sink;
mod std_source;
mod taken;
#[cfg(test)]
mod tests;
mod whole;

pub use calls::CallList;
pub use failed::Failed;
pub use mem_sink::MemSink;
pub use mem_source::MemSource;
pub use sink::Sink;
pub use source::Source;
pub use std_sink::StdSink;
pub use std_source::StdSource;
pub use taken::{TakeFault, Taken, read_up_to};
pub use whole::write_whole;
