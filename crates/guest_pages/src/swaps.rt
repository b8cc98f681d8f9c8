//! Pages change places between private memory and a row, by their pointers.
ghost use Rattle.std.specs.Prelude.{◌≡◌, IfOk, OnOk, OnErr, Err, IsTrue, IsFalse, map, slice_set, slice_index_or, is_some};
ghost use Rattle.std.specs.List.{list_all};
ghost use Rattle.guest_pages.specs.Allocated.{allocated, Each, IsGrownPlace};
ghost use Rattle.guest_pages.specs.Swaps.{blanks, swapped_in, swapped_back};

use crate::LendFault;
use crate::lazy_page::{LazyPage, Lent};
use crate::zero_page::ZeroPage;
use argo_base::NoMemory;
use std::alloc::Global;
use std::mem;

/// Places for pages of these numbers, with no page in them yet.
pub(crate) fn blanks(alloc: Global, numbers: &[u64]) -> Result<Vec<Lent>, NoMemory>
    ensures { IfOk result (λ v. v.items ≡ blanks numbers.now) }
{
    let row = numbers
        .iter()
        .map(|n| Lent {
            number: *n,
            page: None,
        })
        .collect(alloc)?;
    Ok(row)
}

// Whether each place holds a page.
fn is_full(row: &[Lent]) -> bool
    ensures { result ≡ list_all (λ e. is_some e.page) row.now }
{
    row.iter().all(|e| e.page.is_some())
}

// What stands under a place's number and what the place holds change places.
fn swap_place(pages: &mut [Option<LazyPage>], place: &mut Lent)
    ensures pages { pages.new ≡ slice_set pages.old place.old.number place.old.page }
    ensures number { place.new.number ≡ place.old.number }
    ensures page { place.new.page ≡ slice_index_or pages.old place.old.number place.old.page }
{
    if place.number < pages.len() as u64 {
        mem::swap(&mut pages[place.number as usize], &mut place.page);
    }
}

// Each place of the row in turn changes what it holds for what stands under its number.
fn swap_places(pages: &mut [Option<LazyPage>], row: &mut [Lent])
    ensures pages { pages.new ≡ (swapped_in pages.old row.old).0 }
    ensures row { row.new ≡ (swapped_in pages.old row.old).1 }
{
    for place in row.iter_mut() {
        swap_place(pages, place);
    }
}

// The same from the row's end to its start.
fn swap_places_back(pages: &mut [Option<LazyPage>], row: &mut [Lent])
    ensures pages { pages.new ≡ (swapped_back pages.old row.old).0 }
    ensures row { row.new ≡ (swapped_back pages.old row.old).1 }
{
    let mut left = row.len();
    while left > 0 {
        left -= 1;
        swap_place(pages, &mut row[left]);
    }
}

/// Each place of the row in turn changes what it holds for what stands under its number.
pub(crate) fn swap_in(pages: &mut Vec<Option<LazyPage>>, row: &mut Vec<Lent>)
    ensures pages { pages.new.items ≡ (swapped_in pages.old.items row.old.items).0 }
    ensures row { row.new.items ≡ (swapped_in pages.old.items row.old.items).1 }
{
    swap_places(pages.as_mut_slice(), row.as_mut_slice());
}

/// The same from the row's end to its start, which undoes it.
pub(crate) fn swap_back(pages: &mut Vec<Option<LazyPage>>, row: &mut Vec<Lent>)
    ensures pages { pages.new.items ≡ (swapped_back pages.old.items row.old.items).0 }
    ensures row { row.new.items ≡ (swapped_back pages.old.items row.old.items).1 }
{
    swap_places_back(pages.as_mut_slice(), row.as_mut_slice());
}

// Each page of the row takes its memory. Where memory runs out, some have taken theirs.
fn allocate_places(zeros: &ZeroPage, row: &mut [Lent]) -> Result<(), NoMemory>
    ensures ok { OnOk result (row.new ≡ map allocated row.old) }
    ensures err { OnErr result (Each IsGrownPlace row.old row.new) }
{
    for place in row.iter_mut() {
        place.allocate(zeros)?;
    }
    Ok(())
}

/// Each page of a full row takes its memory. Where memory runs out, some have taken theirs, and their bytes are zero still.
pub(crate) fn allocate(zeros: &ZeroPage, row: &mut Vec<Lent>) -> Result<(), LendFault>
    ensures full { OnOk result (IsTrue (list_all (λ e. is_some e.page) row.old.items)) }
    ensures ok { OnOk result (row.new.items ≡ map allocated row.old.items) }
    ensures pages { result ≡ Err LendFault.Pages
        → IsFalse (list_all (λ e. is_some e.page) row.old.items) }
    ensures err { OnErr result (Each IsGrownPlace row.old.items row.new.items) }
{
    if !is_full(row.as_slice()) {
        return Err(LendFault::Pages);
    }
    allocate_places(zeros, row.as_mut_slice())?;
    Ok(())
}
