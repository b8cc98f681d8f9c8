//! The words of a ring, and the header of the message in it.

ghost use Rattle.std.specs.Prelude.{◌≡◌, ◌+◌, ◌*◌, ◌/◌, ◌%◌, ◌<◌, ◌≤◌, ◌^◌, ◌∷◌, length, IsTrue};
ghost use Rattle.argo_base.specs.Layout.{u32_at};
ghost use Rattle.argo_base.specs.Slots.{is_legal, is_place as place_fits};
ghost use Rattle.argo_model.specs.Programs.Recv.{is_message_size};
ghost use Rattle.argo_model.specs.Rules.Fit.{is_fit};
ghost use Rattle.guest_lib.specs.Receiving.{action_of, ReadRx, ReadTx, ReadHead};
ghost use Rattle.guest_lib.specs.Stage.{Follows};

use crate::ask::Ask;
use crate::own_ring::OwnRing;
use crate::received::Received;
use crate::slots::Slots;
use crate::stage::{BodyRead, Onward, Stage};
use argo_abi::{MessageHead, get_message_head};
use argo_base::Piece;
use argo_base::slots::{is_place, place_after, up};
use argo_model::{Action, Outcome};
use std::alloc::Global;

impl OwnRing {
    /// The fetch of `n` bytes of one page, `off` bytes from where the ring begins.
    #[inline(always)]
    pub(crate) fn fetch(self, off: u32, n: u32) -> Ask
        requires inside { off % 4096 + n ≤ 4096 }
        ensures is { action_of result ≡ Action.Fetch (self.page + off / 4096) (off % 4096) n }
        ensures fit { IsTrue (is_fit (action_of result)) }
    {
        Ask::Fetch(Piece {
            page: u64::from(self.page) + u64::from(off / 4096),
            off: off % 4096,
            n,
        })
    }

    /// Where the library goes with the bytes of the rx word's fetch.
    #[inline(always)]
    pub(crate) fn rx_heard(self, bytes: &[u8]) -> Onward
        requires { length bytes.now ≡ 4 }
        ensures { Follows self ReadRx (Outcome.Bytes bytes.now) result }
    {
        Onward::To(Stage::Tx { rx: word_in(bytes) })
    }

    /// Where it goes with those of the tx word's, after the rx word.
    #[inline(always)]
    pub(crate) fn tx_heard(self, rx: u32, bytes: &[u8]) -> Onward
        requires { length bytes.now ≡ 4 }
        ensures { Follows self (ReadTx rx) (Outcome.Bytes bytes.now) result }
    {
        let tx = word_in(bytes);
        if !is_place(self.len, rx) || !is_place(self.len, tx) {
            return Onward::Ended(Received::Bad);
        }
        if rx == tx {
            return Onward::Ended(Received::Empty);
        }
        Onward::To(Stage::Head { rx, tx })
    }

    /// Where it goes with those of the fetch of the header at rx.
    #[inline(always)]
    pub(crate) fn head_heard(self, alloc: Global, rx: u32, tx: u32, bytes: &[u8]) -> Onward
        requires ring { IsTrue (is_legal self.len) }
        requires rx { IsTrue (place_fits self.len rx) }
        requires tx { tx < self.len }
        requires size { length bytes.now ≡ 16 }
        ensures { Follows self (ReadHead rx tx) (Outcome.Bytes bytes.now) result }
    {
        let Some(bytes) = bytes.first_chunk() else {
            unreachable!();
        };
        let head = get_message_head(bytes);
        if !self.is_message_head(rx, tx, head.len) {
            return Onward::Ended(Received::Bad);
        }
        let at = place_after(self.len, rx, 16);
        let body = BodyRead {
            slots: Slots::over(self.page, self.len, at, head.len - 16),
            got: Vec::new(alloc),
            head,
            word: place_after(self.len, rx, up(head.len)),
        };
        Onward::To(body.stage(alloc))
    }

    // Whether the length in the header counts the header, and the message ends at the tx word or before it.
    fn is_message_head(self, rx: u32, tx: u32, size: u32) -> bool
        requires ring { IsTrue (is_legal self.len) }
        requires rx { rx < self.len }
        requires tx { tx < self.len }
        ensures { result ≡ is_message_size self.len rx tx size }
    {
        16 <= size && up(size) <= u64::from((self.len + tx - rx) % self.len)
    }
}

// The word that was fetched.
fn word_in(bytes: &[u8]) -> u32
    requires { length bytes.now ≡ 4 }
    ensures { result ≡ u32_at bytes.now 0 }
{
    u32::from_le_bytes([bytes[0], bytes[1], bytes[2], bytes[3]])
}
