//! What lies behind the locks of a world that threads share: its domains, and what each has, every part behind a lock of its own.
//!
//! The layer above uses `Domains`, whose type keeps that each domain stands as a run of the script may leave it, and `Party`, by which it
//! reaches the locks of a domain that is alive. It knows no journal, and takes no lock. It stands on lock_tokens, whose gates it is built
//! of, and on the structures behind them.
#![tactic(auto)]

mod closing;
mod domain;
mod domains;
mod ends;
mod homes;
mod live;
mod party;
mod plan;
mod rings;

pub use domains::Domains;
pub use live::Live;
pub use party::Party;
pub use plan::Plan;
pub use rings::Rings;
