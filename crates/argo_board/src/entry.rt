//! What a journal has of one step.
use argo_base::{DomId, DomList};
use argo_model::Short;

/// What a step does to the flags of the domains.
#[derive(Debug, Drop)]
pub enum FlagChange {
    /// They stay.
    Keep,
    /// Those of these domains are set.
    Raise(DomList),
    /// That of this domain is cleared.
    Clear(DomId),
}

/// One step: whose it was, its outcome in short, and what it did to the flags.
#[derive(Debug, Drop)]
pub struct Entry {
    /// The number of the virtual CPU, from 0.
    pub vcpu: u32,
    pub short: Short,
    pub change: FlagChange,
}
