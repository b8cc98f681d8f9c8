//! Rows that have names, on two sides.
ghost use Rattle.std.specs.Prelude.{◌≡◌, [], map, fold, IfOk, OnOk};
ghost use Rattle.std.specs.BTreeSet.{insert_key};
ghost use Rattle.std.specs.Option.{option_copied};
ghost use Rattle.audit.specs.Names.{names_of, row_of};

use argo_base::{DomId, NoMemory, RingKey};
use argo_model::{ClosedDomain, ClosedRing, NoticeLine};
use std::alloc::Global;
use std::collections::BTreeSet;

/// A row with a name.
pub(crate) trait Named<K> {
    ghost name_of: { Self → K };

    fn name(&self) -> K
        ensures { result ≡ name_of self.now };
}

impl Named<DomId> for ClosedDomain {
    ghost use Rattle.audit.specs.Domains.{id_of};

    ghost name_of = { id_of };

    fn name(&self) -> DomId {
        self.id
    }
}

impl Named<RingKey> for ClosedRing {
    ghost use Rattle.audit.specs.Domains.{key_of};

    ghost name_of = { key_of };

    fn name(&self) -> RingKey {
        self.key
    }
}

impl Named<DomId> for NoticeLine {
    ghost use Rattle.audit.specs.Rings.{noted};

    ghost name_of = { noted };

    fn name(&self) -> DomId {
        self.dom
    }
}

/// The names that a row of either side has, rising.
pub(crate) fn names<K: Ord + Drop, T: Named<K>>(
    alloc: Global,
    threads: &[T],
    machine: &[T],
) -> Result<BTreeSet<K>, NoMemory>
    ensures { IfOk result (λ s. s.keys ≡ names_of K.cmp T.name_of threads.now machine.now) }
{
    let mut names = BTreeSet::new(alloc);
    add_names(&mut names, threads)?;
    add_names(&mut names, machine)?;
    Ok(names)
}

fn add_names<K: Ord + Drop, T: Named<K>>(
    names: &mut BTreeSet<K>,
    rows: &[T],
) -> Result<(), NoMemory>
    ensures { OnOk result
        (names.new.keys ≡ fold (insert_key K.cmp) names.old.keys (map T.name_of rows.now)) }
{
    for row in rows {
        names.insert(row.name())?;
    }
    Ok(())
}

/// The first row of that name.
pub(crate) fn row_of<'a, K: Ord + Drop, T: Named<K>>(rows: &'a [T], name: &K) -> Option<&'a T>
    ensures { option_copied result ≡ row_of K.cmp T.name_of rows.now name.now }
{
    for row in rows {
        if name.cmp(&row.name()).is_eq() {
            return Some(row);
        }
    }
    None
}
