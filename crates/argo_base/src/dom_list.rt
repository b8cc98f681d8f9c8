//! Short lists of domains, which take no memory.
ghost use Rattle.std.specs.Prelude.{◌≡◌, ◌<◌, ◌≤◌, ◌↔◌, [], ◌∷◌, ◌++◌, length, IsTrue, Some, slice_get};
ghost use Rattle.argo_base.specs.Limits.{most_notices};

use crate::{DomId, MOST_NOTICES};
use arrayvec::ArrayVec;
use std::marker::Model;

/// A list of at most 32 domains, as many as a ring has notices. Contracts see it as the list of their numbers. It takes no
/// memory.
#[derive(Debug, Drop)]
pub struct DomList {
    doms: ArrayVec<DomId, MOST_NOTICES>,
}

impl Model for DomList {
    ghost use Rattle.std.specs.Prelude.{List, ℕ};

    ghost Value = { List ℕ };

    ghost view = { λ a. a.doms.items };
}

/// The domains whose notices a sweep ended, rising.
pub type Ended = DomList;

impl DomList {
    pub fn new() -> Self
        ensures { result ≡ [] }
    {
        DomList {
            doms: ArrayVec::new(),
        }
    }

    /// Adds a domain at the end.
    pub fn push(&mut self, dom: DomId)
        requires { length self.old < most_notices }
        ensures { self.new ≡ self.old ++ dom ∷ [] }
    {
        self.doms.push(dom);
    }

    pub fn len(&self) -> usize
        ensures value { result ≡ length self.now }
        ensures most { result ≤ most_notices }
    {
        self.doms.len()
    }

    pub fn is_empty(&self) -> bool
        ensures { IsTrue result ↔ (self.now ≡ []) }
    {
        self.doms.as_slice().is_empty()
    }

    pub fn get(&self, place: usize) -> DomId
        requires { place < length self.now }
        ensures { slice_get self.now place ≡ Some result }
    {
        self.doms.as_slice()[place]
    }

    pub fn as_slice(&self) -> &[DomId]
        ensures value { result.now ≡ self.now }
        ensures most { length self.now ≤ most_notices }
    {
        self.doms.as_slice()
    }
}
