//! Why a row was not put in.

/// Why a row was not put in. The value comes back, and the table is as it was.
#[derive(Debug, Drop)]
pub enum InsertFault<T> {
    /// The table has 128 rows.
    Full(T),
    /// Memory ran out.
    NoMemory(T),
}
