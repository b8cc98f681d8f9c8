//! A list of rings for each domain: what a domain's end goes by in place of a scan of all rings.
//!
//! The layer above uses `DomainLists`, which contracts see as the lists by rising domain. It stands on the sets of argo_base.
#![tactic(auto)]

mod lists;
#[cfg(test)]
mod tests;

pub use lists::DomainLists;
