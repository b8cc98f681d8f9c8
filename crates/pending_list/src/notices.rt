//! The notices of a ring.
ghost use Rattle.std.specs.Prelude.{◌≡◌, ◌≤◌, ◌↔◌, not, [], length, filter, IsTrue, is_some, if◌then◌else◌};
ghost use Rattle.std.specs.List.Sorted.{IsStrictlyIncreasing};
ghost use Rattle.argo_base.specs.Limits.{most_notices};
ghost use Rattle.argo_base.specs.Notices.{size_of, is_busy, noted, withdrawn, fits_now, never_fits, doms_of};
ghost use Rattle.pending_list.specs.Ending.{ends};

use crate::ending::Ending;
use crate::search::{place_of, raise};
use argo_base::{DomId, Ended, MOST_NOTICES};
use arrayvec::ArrayVec;
use std::marker::Model;

/// The notices of a ring: a size for each of at most 32 domains. Contracts see them as rows by rising domain, each the number
/// of a domain and its size. They take no memory.
#[derive(Debug, Drop)]
pub struct Notices {
    rows: ArrayVec<(DomId, u32), MOST_NOTICES>,
}

impl Model for Notices {
    ghost use Rattle.std.specs.Prelude.{ℕ, List, IsTrue};
    ghost use Rattle.pending_list.specs.Search.{rises_from};

    ghost Value = { List (ℕ × ℕ) };

    ghost view = { λ a. a.rows.items };

    ghost invariant = { λ a. IsTrue (rises_from 0 a.rows.items) };
}

/// Whether a notice was set or raised, or found no place.
#[derive(Clone, Copy, Debug, PartialEq, Eq)]
pub enum Note {
    Noted,
    /// The domain has no notice, and 32 others stand.
    Busy,
}

impl Notices {
    pub fn new() -> Self
        ensures { result ≡ [] }
    {
        Notices {
            rows: ArrayVec::new(),
        }
    }

    pub fn len(&self) -> usize
        ensures value { result ≡ length self.now }
        ensures most { result ≤ most_notices }
    {
        self.rows.len()
    }

    pub fn is_empty(&self) -> bool
        ensures { IsTrue result ↔ (self.now ≡ []) }
    {
        self.rows.as_slice().is_empty()
    }

    /// The domains with their sizes, by rising domain.
    pub fn as_slice(&self) -> &[(DomId, u32)]
        ensures value { result.now ≡ self.now }
        ensures most { length self.now ≤ most_notices }
        ensures rising { IsStrictlyIncreasing (doms_of self.now) }
    {
        self.rows.as_slice()
    }

    /// The size that a domain waits for.
    pub fn size(&self, dom: DomId) -> Option<u32>
        ensures { result ≡ size_of self.now dom }
    {
        match place_of(self.rows.as_slice(), dom) {
            Ok(place) => Some(self.rows.as_slice()[place].1),
            Err(_) => None,
        }
    }

    /// Sets the domain's notice, or raises it to the greater size.
    pub fn note(&mut self, dom: DomId, n: u32) -> Note
        ensures note { result ≡ (if is_busy self.old dom then Note.Busy else Note.Noted) }
        ensures left { self.new
            ≡ (if is_busy self.old dom then self.old else noted self.old dom n) }
    {
        match place_of(self.rows.as_slice(), dom) {
            Ok(place) => {
                raise(self.rows.as_mut_slice(), place, n);
                return Note::Noted;
            }
            Err(_) if self.rows.is_full() => return Note::Busy,
            Err(place) => self.rows.insert(place, (dom, n)),
        }
        Note::Noted
    }

    /// Takes away the notice of a sender that found room itself. It tells whether there was one.
    pub fn withdraw(&mut self, dom: DomId) -> bool
        ensures stood { result ≡ is_some (size_of self.old dom) }
        ensures left { self.new ≡ withdrawn self.old dom }
    {
        match place_of(self.rows.as_slice(), dom) {
            Ok(place) => {
                self.rows.remove(place);
                true
            }
            Err(_) => false,
        }
    }

    /// Takes away the notice of a domain that is gone. It tells whether there was one.
    pub fn forget(&mut self, dom: DomId) -> bool
        ensures stood { result ≡ is_some (size_of self.old dom) }
        ensures left { self.new ≡ withdrawn self.old dom }
    {
        self.withdraw(dom)
    }

    /// Takes away exactly the notices whose sizes fit into `sp` free bytes, and gives their domains, rising.
    pub fn take_fitting(&mut self, sp: u32) -> Ended
        ensures ended { result ≡ doms_of (filter (fits_now sp) self.old) }
        ensures left { self.new ≡ filter (λ n. not (fits_now sp n)) self.old }
        ensures rising { IsStrictlyIncreasing result }
    {
        self.take(Ending::Fitting(sp))
    }

    /// Takes away exactly the notices whose sizes can never fit into a ring of `len` slot bytes, and gives their domains,
    /// rising.
    pub fn take_too_big(&mut self, len: u32) -> Ended
        ensures ended { result ≡ doms_of (filter (never_fits len) self.old) }
        ensures left { self.new ≡ filter (λ n. not (never_fits len n)) self.old }
        ensures rising { IsStrictlyIncreasing result }
    {
        self.take(Ending::TooBig(len))
    }

    // Takes away exactly the notices that end, and gives their domains, rising.
    fn take(&mut self, ending: Ending) -> Ended
        ensures ended { result ≡ doms_of (filter (ends ending) self.old) }
        ensures left { self.new ≡ filter (λ n. not (ends ending n)) self.old }
        ensures rising { IsStrictlyIncreasing result }
    {
        let ended = ending.doms(self.rows.as_slice());
        self.rows.retain(|row| !ending.ends(*row));
        ended
    }
}
