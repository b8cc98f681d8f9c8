//! The pages of a ring, moved by value.
ghost use Rattle.std.specs.Prelude.{◌≡◌, ◌+◌, ◌*◌, ◌<◌, ◌≤◌, length, take, drop, slice_index, IsTrue};
ghost use Rattle.std.specs.List.{All};
ghost use Rattle.argo_base.specs.Limits.{page_bytes};
ghost use Rattle.argo_base.specs.Splice.{splice};
ghost use Rattle.argo_base.specs.Numbers.{all_differ};
ghost use Rattle.guest_pages.specs.Rows.{numbers_of, row_bytes, page_in};

use crate::lazy_page::Lent;
use std::marker::Model;

/// Pages with their numbers, which all differ. Contracts see the list of the numbers, each with the page's bytes.
#[derive(Debug, Drop)]
pub struct PageRow {
    pub(crate) places: Vec<Lent>,
}

impl Model for PageRow {
    ghost use Rattle.std.specs.Prelude.{ℕ, List, map};
    ghost use Rattle.guest_pages.specs.Rows.{numbered};
    ghost use Rattle.guest_pages.specs.RowInside.{IsRow};

    ghost Value = { List (ℕ × List ℕ) };

    ghost view = { λ r. map numbered r.places.items };

    ghost invariant = { λ r. IsRow r.places.items };
}

impl PageRow {
    pub fn count(&self) -> usize
        ensures count { result ≡ length self.now }
        ensures differ { IsTrue (all_differ (numbers_of self.now)) }
        ensures whole { All (λ p. length p.1 ≡ page_bytes) self.now }
    {
        self.places.len()
    }

    /// The number of the page at a place.
    pub fn number(&self, place: usize) -> u64
        requires { place < length self.now }
        ensures { result ≡ (page_in self.now place).0 }
    {
        self.places[place].number
    }

    /// The bytes of the page at a place.
    pub fn page(&self, place: usize) -> &[u8]
        requires { place < length self.now }
        ensures value { result.now ≡ (page_in self.now place).1 }
        ensures whole { length result.now ≡ page_bytes }
    {
        self.places[place].page().page().bytes()
    }

    /// Copies bytes of the page at a place from an offset on, as many as the buffer takes.
    pub fn read(&self, place: usize, off: u32, buf: &mut [u8])
        requires inside { place < length self.now }
        requires in_page { off + length buf.old ≤ page_bytes }
        ensures bytes { buf.new
            ≡ take (length buf.old) (drop (page_bytes * place + off) (row_bytes self.now)) }
        ensures whole { length (row_bytes self.now) ≡ page_bytes * length self.now }
    {
        self.places[place].page().page().read(off, buf);
    }

    /// Writes bytes into the page at a place from an offset on.
    pub fn write(&mut self, place: usize, off: u32, bytes: &[u8])
        requires inside { place < length self.old }
        requires in_page { off + length bytes.now ≤ page_bytes }
        ensures numbers { numbers_of self.new ≡ numbers_of self.old }
        ensures bytes { row_bytes self.new
            ≡ splice (row_bytes self.old) (page_bytes * place + off) bytes.now }
        ensures whole { length (row_bytes self.old) ≡ page_bytes * length self.old }
    {
        self.places[place].page_mut().page_mut().write(off, bytes);
    }
}
