//! What a virtual CPU does in a shared world with rings of its own domain: it registers one, takes one away, and sweeps its notices.
//!
//! The layer above uses three contracts: `register`, `unregister` and `sweep` each are one step, whose outcome is possible for the script.
//! It stands on shared_caller, which has the virtual CPU and the index lists.
#![tactic(auto)]

mod ended;
mod registers;
mod registration;
mod sweeps;
mod unregisters;

pub use registers::register;
pub use registration::Registration;
pub use sweeps::sweep;
pub use unregisters::unregister;
