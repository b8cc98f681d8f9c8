//! What the library asks of the guest's memory.

ghost use Rattle.std.specs.Prelude.{◌≡◌, IfOk};
ghost use Rattle.guest_lib.specs.Receiving.{action_of};

use argo_base::{Bytes, NoMemory, Piece};
use argo_model::Action;
use std::alloc::Global;

/// An action of the library, with no memory of its own: the fetch of a piece, or the put of the rx word.
#[derive(Clone, Copy, Debug)]
pub enum Ask {
    Fetch(Piece),
    Put { page: u64, off: u32, word: [u8; 4] },
}

impl Ask {
    /// The action, with a copy of the bytes that are put.
    #[inline(always)]
    pub(crate) fn action(self, alloc: Global) -> Result<Action, NoMemory>
        ensures { IfOk result (λ a. a ≡ action_of self) }
    {
        Ok(match self {
            Ask::Fetch(Piece { page, off, n }) => Action::Fetch { page, off, n },
            Ask::Put { page, off, word } => Action::Put {
                page,
                off,
                bytes: Bytes::copy_of(alloc, &word)?,
            },
        })
    }
}
