//! The plain world with lists: a domain that ends, or is reset, comes to its own rings, to those that are for it alone and to
//! those on which it waits, and to no others.
//!
//! The layer above uses `PlainWorld`, a `SerialWorld`: each action is the rule's. `ListedDomains` are its domains, over any form of
//! a live domain whose rings are found by their keys; it stands on domains and on domain_lists, whose lists it keeps exact.
#![tactic(auto)]

mod ends;
mod listed_domains;
mod mends;
#[cfg(test)]
mod tests;
mod visits;

pub use listed_domains::ListedDomains;
use paged_live::Live;
use section_world::SectionWorld;

/// The world of a script over paged domains with lists.
pub type PlainWorld = SectionWorld<ListedDomains<Live>>;
