//! The machine: it runs a script step by step under any schedule, over any serial world.
//!
//! The layer above uses one contract: `Machine::step` is one step of the run of its script. It stands on vcpu_machine, whose
//! `Vcpu` works through the lines of a section.
#![tactic(auto)]

mod books;
mod copies;
mod machine;
mod replies;
mod vcpus;

pub use copies::copy_of_scripts;
pub use machine::Machine;
