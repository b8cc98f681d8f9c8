//! Messages as a receiver takes them.
use crate::{Bytes, DomId, Items};

/// A message as its receiver takes it: the true domain of the sender, the port that the sender named, the type and the body.
#[derive(Debug, Drop)]
pub struct Message {
    pub src: DomId,
    pub port: u32,
    pub kind: u32,
    pub body: Bytes,
}

/// Messages as a report shows them, the oldest first.
pub type Messages = Items<Message>;
