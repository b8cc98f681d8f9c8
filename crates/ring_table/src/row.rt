//! A row of a table.
use argo_base::RingKey;

/// What stands under a key: a value, and its number among those of the table's owner.
#[derive(Debug, Drop)]
pub struct Row<T> {
    pub key: RingKey,
    pub serial: u64,
    pub value: T,
}
