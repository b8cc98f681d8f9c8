//! A ring on its pages: the arithmetic of its slot bytes, copies that go round its end, and its two words.
//!
//! The layer above uses `write_run` and `read_run`, which contracts tell on the bytes of the ring as one list. It stands on
//! argo_base, whose arithmetic it gives out again, and on guest_pages.
#![tactic(auto)]

mod copies;
mod runs;
#[cfg(test)]
mod tests;
mod words;

pub use argo_base::slots::{advance, fits, page_count, sanitise, span, too_big, up};
pub use copies::copies_are_byte_by_byte;
pub use runs::{read_run, write_run};
pub use words::{rx_word, tx_word, write_tx};
