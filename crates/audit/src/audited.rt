//! What an audit comes to.
use crate::Split;
use argo_model::Final;

/// What an audit comes to.
#[derive(Debug, Drop)]
pub enum Audited {
    /// The threads did what the machine does. This is what a report shows of the machine's run under the schedule of the entries.
    Agreed(Final),
    /// This is the first difference.
    Split(Split),
}
