//! What the ledgers of a world are opened from.
use std::sync::ledger::Blank;

/// What the three ledgers of a world are opened from: room for entries, accepted sends, and their bytes. Each is cut into one part
/// more than there are sections.
#[derive(Drop)]
pub struct Blanks {
    pub room: Blank,
    pub sends: Blank,
    pub loads: Blank,
}
