//! Where a domain stands among rows by rising domain.
ghost use Rattle.std.specs.Prelude.{◌≡◌, ℕ, ◌<◌, ◌≤◌, max, length, Some, MatchResult, slice_get, slice_set};
ghost use Rattle.std.specs.Ordering.{nat_cmp};
ghost use Rattle.pending_list.specs.Search.{place_of};

use argo_base::DomId;
use std::cmp::Ordering;

/// The place of the domain's row, or else the place where it would stand.
pub(crate) fn place_of(rows: &[(DomId, u32)], dom: DomId) -> Result<usize, usize>
    ensures is { result ≡ place_of nat_cmp rows.now dom }
    ensures inside { MatchResult result (λ i. i < length rows.now) (λ i. i ≤ length rows.now) }
{
    let mut place = 0;
    for row in rows {
        match dom.cmp(&row.0) {
            Ordering::Less => return Err(place),
            Ordering::Equal => return Ok(place),
            Ordering::Greater => place += 1,
        }
    }
    Err(place)
}

/// Raises the size of a row to the greater of the two.
pub(crate) fn raise(rows: &mut [(DomId, u32)], place: usize, n: u32)
    requires { place < length rows.old }
    ensures { (e : ℕ × ℕ) → slice_get rows.old place ≡ Some e
        → rows.new ≡ slice_set rows.old place (e.0, max n e.1) }
{
    let row = &mut rows[place];
    row.1 = n.max(row.1);
}
