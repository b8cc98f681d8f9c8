//! Rings go off a list where they need not be on it any more.
ghost use Rattle.std.specs.Prelude.{◌≡◌, ◌&&◌, ◌||◌, ℕ, not};
ghost use Rattle.std.specs.BTreeMap.{is_at};
ghost use Rattle.argo_base.specs.Match.{id_cmp};
ghost use Rattle.argo_base.specs.Notices.{doms_of};
ghost use Rattle.argo_base.specs.declared.ring_key.RingId.{RingId as Id};
ghost use Rattle.argo_model.specs.Rules.Register.{has_number};
ghost use Rattle.domain_lists.specs.Lists.{names, is_pair, AreNoLonger};

use argo_base::{DomId, RingId};
use domain_lists::DomainLists;

/// Takes a ring off the list of a domain, unless it is to be kept there.
pub(crate) fn keep_if(lists: &mut DomainLists, dom: DomId, id: &RingId, keep: bool)
    ensures names { (d : ℕ) (x : Id) → names lists.new d x
        ≡ (names lists.old d x && (not (is_pair dom id.now d x) || keep)) }
    ensures lengths { AreNoLonger lists.old lists.new }
{
    if !keep {
        lists.remove(dom, *id);
    }
}

/// Takes a ring off the lists of these domains.
pub(crate) fn take_off(lists: &mut DomainLists, doms: &[DomId], id: &RingId)
    ensures names { (d : ℕ) (x : Id) → names lists.new d x
        ≡ (names lists.old d x && not (has_number doms.now d && is_at (id_cmp id.now) x)) }
    ensures lengths { AreNoLonger lists.old lists.new }
{
    for dom in doms {
        lists.remove(*dom, *id);
    }
}

/// Takes a ring off the lists of the domains that have these notices.
pub(crate) fn take_off_noted(lists: &mut DomainLists, noted: &[(DomId, u32)], id: &RingId)
    ensures names { (d : ℕ) (x : Id) → names lists.new d x
        ≡ (names lists.old d x
        && not (has_number (doms_of noted.now) d && is_at (id_cmp id.now) x)) }
    ensures lengths { AreNoLonger lists.old lists.new }
{
    for (dom, _) in noted {
        lists.remove(*dom, *id);
    }
}
