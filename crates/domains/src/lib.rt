//! The domains of a world as they stand, over any form of what a live domain has.
//!
//! The worlds above hold `Domains<L>`, whose contracts see the abstract state: each act of a caller is the rule's. Where the live
//! domains give their rings by key, rings and notices are also found and ended by their ids. It stands on live_domain.
#![tactic(auto)]

mod by_id;
mod closed_domains;
mod domain;
mod domain_map;
mod domains;
mod ends;
mod finals;
mod own;

pub use by_id::id_of;
pub use domains::Domains;
