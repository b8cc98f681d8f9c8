ghost use Rattle.std.specs.Prelude.{◌≡◌};
ghost use Rattle.argo_base.specs.Slots.{is_legal};
ghost use Rattle.argo_model.specs.Runs.Script.{is_domain_id, is_page_count, is_short, is_turn_count, is_generation, has_domain};

use argo_base::DomId;
use argo_model::DomainLines;

pub(crate) fn is_domain_id(id: u64) -> bool
    ensures { result ≡ is_domain_id id }
{
    id < 0x7ff0
}

pub(crate) fn is_page_count(pages: u64) -> bool
    ensures { result ≡ is_page_count pages }
{
    1 <= pages && pages <= 4608
}

pub(crate) fn is_short(n: u64) -> bool
    ensures { result ≡ is_short n }
{
    1 <= n && n <= 64
}

pub(crate) fn is_turn_count(turns: u64) -> bool
    ensures { result ≡ is_turn_count turns }
{
    1 <= turns && turns <= 1_048_576
}

pub(crate) fn is_ring_length(len: u64) -> bool
    ensures { result ≡ is_legal len }
{
    48 <= len && len <= 0x100_0000 && len % 16 == 0
}

pub(crate) fn is_generation(generation: u64) -> bool
    ensures { result ≡ is_generation generation }
{
    1 <= generation && generation <= 8193
}

/// Whether a domain line gives the id.
pub(crate) fn has_domain(domains: &DomainLines, id: DomId) -> bool
    ensures { result ≡ has_domain domains.now id }
{
    domains.as_slice().iter().any(|line| line.id == id)
}
