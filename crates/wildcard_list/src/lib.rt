//! A domain's wildcard list: the wildcard rings on which it waits.
//!
//! The layer above uses `WildList`, a set of rings of argo_base, on which it stands. It indexes the rings for every sender that hold a
//! notice of the domain, so that its end finds them without a scan.
#![tactic(auto)]

#[cfg(test)]
mod tests;

/// The wildcard rings that hold a notice of a domain, which contracts see as the list of their ids, by rising id.
pub type WildList = argo_base::RingIdSet;
