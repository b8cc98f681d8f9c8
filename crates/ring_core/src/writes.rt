//! Puts into the pages of a ring.
ghost use Rattle.std.specs.Prelude.{◌≡◌, ◌+◌, ◌*◌, ◌%◌, ◌<◌, ◌≤◌, length};
ghost use Rattle.argo_base.specs.Limits.{page_bytes};
ghost use Rattle.argo_base.specs.Slots.{page_count};
ghost use Rattle.argo_base.specs.Splice.{splice};
ghost use Rattle.guest_pages.specs.Rows.{numbers_of, row_bytes};
ghost use Rattle.ring_core.specs.Held.{Becomes, Keeps};
ghost use Rattle.ring_core.specs.Puts.{put_in};

use crate::puts::{keep, moves, touches};
use crate::ring::Ring;
use argo_base::PAGE_BYTES;
use guest_pages::PageRow;
use ring_space::rx_word;

impl Ring {
    /// Puts bytes from a byte of the ring on, inside one of its pages. A put of exactly the four bytes of the rx word that moves
    /// it over messages takes these; any other that touches a word or a slot makes a clean ring dirty. It takes no memory.
    pub fn write(&mut self, at: u32, bytes: &[u8])
        requires inside { at < page_bytes * page_count self.old.len }
        requires in_page { at % page_bytes + length bytes.now ≤ page_bytes }
        ensures left { Becomes self.old self.new (λ p. put_in p at bytes.now) }
        ensures keeps { Keeps self.old self.new }
    {
        if !self.clean {
            write_at(&mut self.row, at, bytes);
            return;
        }
        let rx = rx_word(&self.row);
        let moved = moves(self.len, rx, self.untaken.messages(), at, bytes);
        let touched = touches(self.len, at, bytes.len());
        self.clean = keep(&mut self.untaken, moved, touched);
        write_at(&mut self.row, at, bytes);
    }
}

// Writes bytes into the page of a row in which a byte stands.
fn write_at(row: &mut PageRow, at: u32, bytes: &[u8])
    requires inside { at < page_bytes * length row.old }
    requires in_page { at % page_bytes + length bytes.now ≤ page_bytes }
    ensures numbers { numbers_of row.new ≡ numbers_of row.old }
    ensures bytes { row_bytes row.new ≡ splice (row_bytes row.old) at bytes.now }
    ensures whole { length (row_bytes row.old) ≡ page_bytes * length row.old }
{
    row.write((at / PAGE_BYTES) as usize, at % PAGE_BYTES, bytes);
}
