//! The stages of a recv, in place of all the outcomes that it has had.

use crate::received::Received;
use crate::slots::Slots;
use argo_abi::MessageHead;
use argo_base::Message;

/// How far a recv is.
#[derive(Drop)]
pub(crate) enum Stage {
    /// The rx word is to be fetched.
    Rx,
    /// The tx word, after the rx word.
    Tx { rx: u32 },
    /// The header of the message at rx.
    Head { rx: u32, tx: u32 },
    Body(BodyRead),
    /// The rx word is to be put, and then the message is taken.
    Word { word: u32, message: Message },
    Done,
}

/// What is fetched of a body: the pieces left, the bytes so far, the message's header, and the rx word that is put after it.
#[derive(Drop)]
pub(crate) struct BodyRead {
    pub(crate) slots: Slots,
    pub(crate) got: Vec<u8>,
    pub(crate) head: MessageHead,
    pub(crate) word: u32,
}

/// Where a recv goes after an outcome.
#[derive(Drop)]
pub(crate) enum Onward {
    /// To its next action.
    To(Stage),
    /// It came to this.
    Ended(Received),
}
