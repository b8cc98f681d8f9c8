//! What a domain has that is alive, as the worlds above see it: its memory, its flag and its rings, with the acts on them.
//!
//! A world holds its domains by `LiveDomain`, whose contracts are the rules'; flat_live and paged_live are two forms of it. A world
//! that ends rings one by one, by its lists, holds them by `KeyedRings`. It stands on argo_model.
#![tactic(auto)]

mod change;
mod keyed_rings;
mod live_domain;
mod offer;
mod registration;

pub use change::Change;
pub use keyed_rings::KeyedRings;
pub use live_domain::LiveDomain;
pub use offer::{NO_ANSWER, Offer};
pub use registration::Registration;
