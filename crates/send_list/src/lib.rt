//! A domain's send list: the rings that take messages from this domain alone.
//!
//! The layer above uses `SendList`, a set of rings of argo_base, on which it stands. It indexes the live rings whose single partner the
//! domain is, so that its end finds them without a scan.
#![tactic(auto)]

#[cfg(test)]
mod tests;

/// The rings whose single partner a domain is, which contracts see as the list of their ids, by rising id.
pub type SendList = argo_base::RingIdSet;
