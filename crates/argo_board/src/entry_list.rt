//! The entries of a closed board.
ghost use Rattle.std.specs.Prelude.{◌≡◌, ◌<◌, length, slice_set};
ghost use Rattle.std.specs.Slice.Iter.{iter_rest};

use crate::Entry;
use std::marker::Model;

/// Entries from the first to the last. Contracts see them as that list.
#[derive(Debug, Drop)]
pub struct EntryList {
    entries: Vec<Entry>,
}

/// Goes over entries from the first to the last.
pub type EntryIter<'a> = std::slice::Iter<'a, Entry>;

impl Model for EntryList {
    ghost use Rattle.std.specs.Prelude.{List};
    ghost use Rattle.argo_board.specs.declared.entry.Entry as entry;

    ghost Value = { List entry.Entry };

    ghost view = { λ a. a.entries.items };
}

impl EntryList {
    /// The list of what the vector holds. It takes no memory.
    pub(crate) fn from_vec(entries: Vec<Entry>) -> Self
        ensures { result ≡ entries.items }
    {
        EntryList { entries }
    }

    pub fn len(&self) -> usize
        ensures { result ≡ length self.now }
    {
        self.entries.len()
    }

    pub fn as_slice(&self) -> &[Entry]
        ensures { result.now ≡ self.now }
    {
        self.entries.as_slice()
    }

    pub fn iter(&self) -> EntryIter<'_>
        ensures { iter_rest result ≡ self.now }
    {
        self.entries.iter()
    }

    /// Puts another entry at this place, from 0. All others stay.
    pub fn set(&mut self, place: usize, e: Entry)
        requires { place < length self.old }
        ensures { self.new ≡ slice_set self.old place e }
    {
        self.entries[place] = e;
    }
}
