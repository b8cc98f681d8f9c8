//! Domains whose notices on a ring ended.
ghost use Rattle.std.specs.Prelude.{◌≡◌};

use argo_base::DomList;

/// The same domains once more.
pub(crate) fn copy_of(doms: &DomList) -> DomList
    ensures { result ≡ doms.now }
{
    let mut copy = DomList::new();
    for dom in doms.as_slice() {
        copy.push(*dom);
    }
    copy
}
