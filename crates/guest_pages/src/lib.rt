//! The pages of a domain, which are moved into rings and back by their pointers, and are never copied.
//!
//! The layer above uses `Private`, which contracts see as the list of a domain's pages by number, each with its bytes
//! where it is not lent, and `PageRow`, the pages of a ring with their numbers. It stands on argo_base.
#![tactic(auto)]

mod lazy_page;
mod lend_fault;
mod page;
mod page_row;
mod private;
mod swaps;
#[cfg(test)]
mod tests;
mod zero_page;

pub use lend_fault::LendFault;
pub use page_row::PageRow;
pub use private::Private;
