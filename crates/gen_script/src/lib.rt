//! Scripts from a number: large inputs, each the same for the same number.
//!
//! The layer above uses one contract: what `gen_scripts` returns is `made` of its number.
//! It stands on argo_model, and on argo_base and argo_abi for the bytes of lines.
#![tactic(auto)]

mod draws;
mod examples;
mod lines;
mod scripts;
#[cfg(test)]
mod tests;

pub use examples::first_lines_of_zero;
pub use scripts::gen_scripts;
