//! Lists that grow, which contracts see as lists.
ghost use Rattle.std.specs.Prelude.{◌≡◌, ◌+◌, ◌<◌, ◌≤◌, ◌↔◌, List, [], ◌∷◌, ◌++◌, length, drop, IsTrue, Some, slice_get, IfOk, OnOk, OnErr};
ghost use Rattle.argo_base.specs.Splice.{splice};

use crate::NoMemory;
use std::alloc::Global;
use std::marker::Model;

/// A list of values, which contracts see as just that. It grows at its end and keeps its allocator.
#[derive(Debug, Drop)]
pub struct Items<T> {
    items: Vec<T>,
}

impl<T> Model for Items<T> {
    ghost Value = { List T };

    ghost view = { λ a. a.items.items };
}

/// Bytes of any number.
pub type Bytes = Items<u8>;

/// Page numbers, as a guest gives them: in the order of the bytes that stand on them.
pub type PageList = Items<u64>;

impl<T> Items<T> {
    pub fn new(alloc: Global) -> Self
        ensures { result ≡ [] }
    {
        Items {
            items: Vec::new(alloc),
        }
    }

    /// The list of what the vector holds. It takes no memory.
    pub fn from_vec(items: Vec<T>) -> Self
        ensures { result ≡ items.items }
    {
        Items { items }
    }

    /// Gives the vector back. It takes no memory.
    pub fn into_vec(self) -> Vec<T>
        ensures { result.items ≡ self }
    {
        let Items { items } = self;
        items
    }

    pub fn len(&self) -> usize
        ensures { result ≡ length self.now }
    {
        self.items.len()
    }

    pub fn is_empty(&self) -> bool
        ensures { IsTrue result ↔ (self.now ≡ []) }
    {
        self.items.is_empty()
    }

    pub fn get(&self, place: usize) -> &T
        requires { place < length self.now }
        ensures { slice_get self.now place ≡ Some result.now }
    {
        &self.items[place]
    }

    pub fn as_slice(&self) -> &[T]
        ensures { result.now ≡ self.now }
    {
        self.items.as_slice()
    }
}

impl<T: Drop> Items<T> {
    /// Adds a value at the end. Where memory runs out, the value is dropped and the list stays.
    pub fn push(&mut self, x: T) -> Result<(), NoMemory>
        ensures ok { OnOk result (self.new ≡ self.old ++ x ∷ []) }
        ensures err { OnErr result (self.new ≡ self.old) }
    {
        self.items.push(x)?;
        Ok(())
    }

    /// Drops the first `k` values. It takes no memory.
    pub fn drop_first(&mut self, k: usize)
        requires { k ≤ length self.old }
        ensures { self.new ≡ drop k self.old }
    {
        let kept = self.items.len() - k;
        self.items.rotate_left(k);
        self.items.truncate(kept);
    }

    /// Drops all values. It takes no memory.
    pub fn clear(&mut self)
        ensures { self.new ≡ [] }
    {
        self.items.clear();
    }
}

impl<T: Copy> Items<T> {
    pub fn copy_of(alloc: Global, s: &[T]) -> Result<Self, NoMemory>
        ensures { IfOk result (λ items. items ≡ s.now) }
    {
        Ok(Items {
            items: Vec::from_slice(alloc, s)?,
        })
    }

    /// Adds copies at the end.
    pub fn append(&mut self, s: &[T]) -> Result<(), NoMemory>
        ensures ok { OnOk result (self.new ≡ self.old ++ s.now) }
        ensures err { OnErr result (self.new ≡ self.old) }
    {
        self.items.extend_from_slice(s)?;
        Ok(())
    }

    /// Writes over the values from a place on. It takes no memory.
    pub fn write(&mut self, at: usize, s: &[T])
        requires { at + length s.now ≤ length self.old }
        ensures { self.new ≡ splice self.old at s.now }
    {
        write_part(self.items.as_mut_slice(), at, s);
    }
}

// Writes over a part of a slice.
fn write_part<T: Copy>(all: &mut [T], at: usize, s: &[T])
    requires { at + length s.now ≤ length all.old }
    ensures { all.new ≡ splice all.old at s.now }
{
    let (_, rest) = all.split_at_mut(at);
    let (part, _) = rest.split_at_mut(s.len());
    part.copy_from_slice(s);
}
