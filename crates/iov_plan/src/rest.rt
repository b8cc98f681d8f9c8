//! What is left of a range of guest memory that is cut at the ends of its pages.

ghost use Rattle.std.specs.Prelude.{◌≡◌, ◌+◌, ◌<◌, ◌≤◌, ◌^◌, IfSome, slice_get};
ghost use Rattle.std.specs.Iterator.{YieldsFirst, item_count};
ghost use Rattle.argo_base.specs.Pieces.{pieces as cut};

use argo_base::{PAGE_BYTES, Piece};
use std::marker::Model;

/// The pieces of a range that are still to come, in rising order. Contracts see it as the list of them.
#[derive(Debug, Drop)]
pub struct Pieces {
    page: u64,
    off: u32,
    left: u32,
}

impl Model for Pieces {
    ghost use Rattle.std.specs.Prelude.{List, ◌+◌, ◌*◌, ◌^◌, ◌<◌};
    ghost use Rattle.argo_base.specs.Pieces.{pieces};
    ghost use Rattle.argo_base.specs.declared.piece.Piece.{Piece};

    ghost Value = { List Piece };

    ghost view = { λ p. pieces (4096 * p.page + p.off) p.left };

    ghost invariant = { λ p. (p.off < 4096) × (p.page + p.left < 2 ^ 60) };
}

impl Pieces {
    // The pieces of the range of `n` bytes from an address.
    pub(crate) fn over(at: u128, n: u32) -> Pieces
        requires { at < 2 ^ 65 }
        ensures { result ≡ cut at n }
    {
        Pieces {
            page: (at / 4096) as u64,
            off: (at % 4096) as u32,
            left: n,
        }
    }

    /// The next piece, where there is one; it stays.
    pub fn first(&self) -> Option<Piece>
        ensures first { result ≡ slice_get self.now 0 }
        ensures inside { IfSome result (λ p. (0 < p.n) × (p.off + p.n ≤ 4096)) }
    {
        if self.left == 0 {
            return None;
        }
        Some(Piece {
            page: self.page,
            off: self.off,
            n: self.left.min(PAGE_BYTES - self.off),
        })
    }
}

impl Iterator for Pieces {
    type Item = Piece;

    ghost next_gives = { YieldsFirst (λ s. s) };

    ghost remaining = { item_count (λ s. s) };

    fn next(&mut self) -> Option<Piece> {
        let piece = self.first()?;
        *self = Pieces {
            page: self.page + 1,
            off: 0,
            left: self.left - piece.n,
        };
        Some(piece)
    }
}
