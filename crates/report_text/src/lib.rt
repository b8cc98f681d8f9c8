//! The text of a report, of its summary and of a single reply, built and written a line at a time.
//!
//! The layer above uses one contract: where `write_report` returns `Ok`, exactly the text of `report_of` was appended
//! to the sink, and where it fails, a part of it from the start. It stands on argo_model and argo_outside.
#![tactic(auto)]

pub mod examples;
mod fault;
mod hex;
mod line;
mod reply;
mod report;
#[cfg(test)]
mod tests;

pub use fault::WriteFault;
pub use reply::reply_text;
pub use report::{write_report, write_summary};
