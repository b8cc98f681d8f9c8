//! A world after its last step.
use argo_board::EntryList;
use argo_model::{ClosedDomains, Heard, TotalList};

/// A run in threads as it ended: its journal, the totals of each section, the domains as they stand, and the replies of each section.
#[derive(Debug, Drop)]
pub struct Closed {
    /// One entry a step, in the order of the steps.
    pub entries: EntryList,
    /// By section.
    pub totals: TotalList,
    /// By rising id.
    pub domains: ClosedDomains,
    /// By section.
    pub heard: Heard,
}
