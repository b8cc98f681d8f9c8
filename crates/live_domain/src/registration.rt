//! What a caller asks for when it registers a ring.

use argo_base::{PageList, RingKey};

/// What a caller asks for when it registers a ring.
#[derive(Drop)]
pub struct Registration {
    pub key: RingKey,
    /// The length of the ring's slots, in bytes.
    pub len: u32,
    /// The numbers of the pages on which it is to stand.
    pub pages: PageList,
    /// Whether a ring that stands already is a refusal.
    pub fail_exist: bool,
}
