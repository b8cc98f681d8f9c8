//! What is left of a range of guest memory.

ghost use Rattle.std.specs.Prelude.{◌≡◌, ◌+◌, ◌-◌, ◌*◌, ◌^◌, ◌<◌, ◌≤◌, ◌∷◌, min};
ghost use Rattle.argo_base.specs.Pieces.{pieces};

use argo_base::{PAGE_BYTES, Piece};

/// What is left of a range of guest memory: `left` bytes from an offset of a page on.
#[derive(Clone, Copy, Debug)]
pub struct Cursor {
    pub page: u64,
    pub off: u32,
    pub left: u32,
}

impl Cursor {
    ghost use Rattle.line_phase.specs.Cursor.{pieces_left, IsSound};

    /// The range of `n` bytes from an address.
    pub fn over(at: u64, n: u32) -> Cursor
        ensures pieces { pieces_left result ≡ pieces at n }
        ensures left { result.left ≡ n }
        ensures sound { IsSound result }
    {
        Cursor {
            page: at / 4096,
            off: (at % 4096) as u32,
            left: n,
        }
    }

    /// The range of `n` bytes that begins so many bytes past an address.
    pub(crate) fn beyond(at: u64, by: u32, n: u32) -> Cursor
        requires { by < 2 ^ 31 }
        ensures pieces { pieces_left result ≡ pieces (at + by) n }
        ensures left { result.left ≡ n }
        ensures sound { IsSound result }
    {
        let off = (at % 4096) as u32 + by;
        Cursor {
            page: at / 4096 + u64::from(off / 4096),
            off: off % 4096,
            left: n,
        }
    }

    /// The first piece, and what is left after it.
    pub fn split_first(self) -> (Piece, Cursor)
        requires some { 0 < self.left }
        requires sound { IsSound self }
        ensures pieces { pieces_left self ≡ result.0 ∷ pieces_left result.1 }
        ensures size { (0 < result.0.n) × (result.0.n + result.1.left ≡ self.left) }
        ensures inside { result.0.off + result.0.n ≤ 4096 }
        ensures first { result.0.n ≡ min self.left (4096 - self.off) }
        ensures still_sound { IsSound result.1 }
    {
        let n = self.left.min(PAGE_BYTES - self.off);
        let piece = Piece {
            page: self.page,
            off: self.off,
            n,
        };
        let rest = Cursor {
            page: self.page + 1,
            off: 0,
            left: self.left - n,
        };
        (piece, rest)
    }
}
