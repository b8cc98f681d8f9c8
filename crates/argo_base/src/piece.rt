//! Parts of ranges of guest memory.
/// A part of a range of guest memory that lies inside one page: `n` bytes from offset `off` of that page.
#[derive(Clone, Copy, Debug, PartialEq, Eq)]
pub struct Piece {
    pub page: u64,
    pub off: u32,
    pub n: u32,
}
