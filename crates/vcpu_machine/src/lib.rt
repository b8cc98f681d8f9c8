//! The progress of one section of a script: the next action of its current line, and what follows its outcome.
//!
//! The layer above uses one contract: `Vcpu::next` and `Vcpu::feed` are the line's program, action by action, and `Vcpu::step` is one
//! step of the run over any access that tells its state. It stands on argo_base, argo_model, guest_lib, and line_phase, whose phases
//! its lines go through.
#![tactic(auto)]

mod copies;
mod line;
mod looking;
mod receiving;
mod short;
mod vcpu;

pub use copies::copy_of_part;
pub use short::short_of;
pub use vcpu::Vcpu;
