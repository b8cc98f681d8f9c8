//! The slot bytes that are still to be fetched.

ghost use Rattle.std.specs.Prelude.{◌≡◌, ◌+◌, ◌*◌, ◌/◌, ◌<◌, ◌≤◌, ◌^◌, length, drop, sum_by, slice_get, IfSome};
ghost use Rattle.argo_model.specs.Programs.Recv.{slot_pieces};

use argo_base::Piece;
use iov_plan::{Pieces, pieces};
use std::marker::Model;

/// Slot bytes that are still to be fetched: those up to the ring's end, and those from place 0 on. Contracts see them as the list
/// of their pieces.
#[derive(Debug, Drop)]
pub(crate) struct Slots {
    ahead: Pieces,
    round: Pieces,
}

impl Model for Slots {
    ghost use Rattle.std.specs.Prelude.{List, ◌++◌};
    ghost use Rattle.argo_base.specs.declared.piece.Piece.{Piece};

    ghost Value = { List Piece };

    ghost view = { λ s. s.ahead ++ s.round };
}

impl Slots {
    /// The `n` slot bytes from a place on, of a ring that begins on a page.
    pub(crate) fn over(page: u32, len: u32, at: u32, n: u32) -> Slots
        requires place { at < len }
        requires small { len < 2 ^ 31 }
        ensures is { result ≡ slot_pieces (page * 4096) len at n }
        ensures bytes { sum_by (λ p. p.n) result ≡ n }
        ensures few { length result ≤ n / 4096 + 4 }
    {
        let ring = u128::from(page) * 4096;
        let first = n.min(len - at);
        Slots {
            ahead: pieces(ring + 64 + u128::from(at), first),
            round: pieces(ring + 64, n - first),
        }
    }

    /// The next piece, where there is one; it stays.
    pub(crate) fn first(&self) -> Option<Piece>
        ensures first { result ≡ slice_get self.now 0 }
        ensures inside { IfSome result (λ p. (0 < p.n) × (p.off + p.n ≤ 4096)) }
    {
        match self.ahead.first() {
            Some(piece) => Some(piece),
            None => self.round.first(),
        }
    }

    /// Leaves the next piece behind.
    pub(crate) fn drop_first(&mut self)
        requires { 0 < length self.old }
        ensures { self.new ≡ drop 1 self.old }
    {
        if self.ahead.next().is_none() {
            let _ = self.round.next();
        }
    }
}
