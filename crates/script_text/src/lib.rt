//! Scripts as a user writes them: bytes to `Scripts`, or the first fault with its line.
//!
//! The layer above uses one contract: `read_scripts` gives just what `scripts_of` of `specs/Scripts.antt` says. It stands on
//! argo_model.
#![tactic(auto)]

mod entry;
pub mod examples;
mod hex;
mod kind;
mod lines;
mod numbers;
mod ranges;
mod read;
mod reader;
mod verb;
mod words;

pub use kind::{ReadFault, ScriptFault, ScriptKind};
pub use read::read_scripts;

#[cfg(test)]
mod tests;
