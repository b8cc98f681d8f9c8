//! What stands under the ids of domains.

use argo_base::{DomId, NoMemory};
use std::alloc::Global;
use std::cmp::Ordering;
use std::marker::Model;

/// A value for each of some domains, by rising id. They are few, and hardly come or go.
#[derive(Drop)]
pub(crate) struct DomainMap<T> {
    pub(crate) rows: Vec<(DomId, T)>,
}

impl<T> Model for DomainMap<T> {
    ghost use Rattle.std.specs.Prelude.{ℕ, List};

    ghost Value = { List (ℕ × T) };

    ghost view = { λ m. m.rows.items };
}

impl<T> DomainMap<T> {
    ghost use Rattle.std.specs.Prelude.{◌≡◌, ◌<◌, ◌≤◌, [], length, IfSome, MatchResult};
    ghost use Rattle.std.specs.Option.{option_copied, option_copied_mut};
    ghost use Rattle.std.specs.Borrow.{sem};
    ghost use Rattle.std.specs.Ordering.{nat_cmp};
    ghost use Rattle.std.specs.Map.{lookup};
    ghost use Rattle.std.specs.BTreeMap.{is_at};
    ghost use Rattle.domains.specs.Place.{place_of, slot_of};
    ghost use Rattle.domains.specs.Lends.{lends_value};

    /// An empty map. It takes no memory.
    pub(crate) fn new(alloc: Global) -> Self
        ensures { result ≡ [] }
    {
        DomainMap {
            rows: Vec::new(alloc),
        }
    }

    /// The value of a domain.
    pub(crate) fn get(&self, dom: DomId) -> Option<&T>
        ensures value { option_copied result ≡ lookup (is_at (nat_cmp dom)) self.now }
    {
        let Some(place) = self.place_of(dom) else {
            return None;
        };
        Some(&self.rows[place].1)
    }

    /// The value of a domain, to be written.
    pub(crate) fn get_mut(&mut self, dom: DomId) -> Option<&mut T>
        ensures* writes_back { sem 𝓛 (lends_value T.row self.entry dom result) }
        ensures value { option_copied_mut result ≡ lookup (is_at (nat_cmp dom)) self.old }
    {
        let Some(place) = self.place_of(dom) else {
            return None;
        };
        let row = &mut self.rows[place];
        Some(&mut row.1)
    }

    /// The rows, by rising id.
    pub(crate) fn rows(&self) -> &[(DomId, T)]
        ensures { result.now ≡ self.now }
    {
        self.rows.as_slice()
    }

    /// The rows themselves, by rising id. It takes no memory.
    pub(crate) fn into_rows(self) -> Vec<(DomId, T)>
        ensures { result.items ≡ self }
    {
        let DomainMap { rows } = self;
        rows
    }

    // The place of a domain's row.
    fn place_of(&self, dom: DomId) -> Option<usize>
        ensures is { result ≡ place_of self.now dom }
        ensures inside { IfSome result (λ i. i < length self.now) }
    {
        let mut place = 0;
        for row in self.rows.as_slice() {
            if row.0 == dom {
                return Some(place);
            }
            place += 1;
        }
        None
    }

    // The place of the row that a new value goes to, or else that of the first row past the id.
    fn slot_of(&self, dom: DomId) -> Result<usize, usize>
        ensures is { result ≡ slot_of self.now dom }
        ensures inside { MatchResult result (λ i. i < length self.now) (λ i. i ≤ length self.now) }
    {
        let mut place = 0;
        for row in self.rows.as_slice() {
            match dom.cmp(&row.0) {
                Ordering::Less => return Err(place),
                Ordering::Equal => return Ok(place),
                Ordering::Greater => place += 1,
            }
        }
        Err(place)
    }
}

impl<T: Drop> DomainMap<T> {
    ghost use Rattle.std.specs.Prelude.{◌≡◌, OnOk};
    ghost use Rattle.std.specs.Ordering.{nat_cmp};
    ghost use Rattle.std.specs.BTreeMap.{insert_entry};

    /// Puts a value at its domain, over one that is there.
    pub(crate) fn insert(&mut self, dom: DomId, value: T) -> Result<(), NoMemory>
        ensures { OnOk result (self.new ≡ insert_entry nat_cmp self.old dom value) }
    {
        match self.slot_of(dom) {
            Ok(place) => self.rows[place].1 = value,
            Err(place) => self.rows.insert(place, (dom, value))?,
        }
        Ok(())
    }
}
