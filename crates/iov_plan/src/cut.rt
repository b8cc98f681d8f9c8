//! A range of guest memory, cut at the ends of its pages.

ghost use Rattle.std.specs.Prelude.{◌≡◌, ◌+◌, ◌<◌, ◌≤◌, ◌^◌, All, sum_by};
ghost use Rattle.argo_base.specs.Pieces.{pieces as cut};

use crate::rest::Pieces;

/// The pieces of the range of `n` bytes from a guest address. Addresses do not wrap: a range may go on past 2^64. It takes no memory.
pub fn pieces(at: u128, n: u32) -> Pieces
    requires { at < 2 ^ 65 }
    ensures cut { result ≡ cut at n }
    ensures bytes { sum_by (λ p. p.n) result ≡ n }
    ensures inside { All (λ p. (0 < p.n) × (p.off + p.n ≤ 4096)) result }
{
    Pieces::over(at, n)
}
