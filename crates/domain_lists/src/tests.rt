//! Lists of several domains do not mix.
use crate::DomainLists;
use argo_base::{DomId, RingId};
use std::test::Fail;

#[test]
fn each_domain_has_a_list_of_its_own(rt: HostRuntime) -> Result<(), Fail> {
    let mut lists = DomainLists::new(rt.alloc());
    for (dom, owner) in [(1, 3), (2, 3), (1, 2), (1, 3)] {
        lists.add(rt.alloc(), DomId(dom), ring(owner))?;
    }
    assert_eq!(rt; lists.count(DomId(1)), 2);
    lists.remove(DomId(2), ring(2));
    assert_eq!(rt; lists.count(DomId(2)), 1);
    assert_eq!(rt; lists.take_first(DomId(1)), Some(ring(2)));
    lists.remove(DomId(1), ring(3));
    assert_eq!(rt; lists.take_first(DomId(1)), None);
    assert_eq!(rt; lists.take_first(DomId(2)), Some(ring(3)));
    assert_eq!(rt; lists.take_first(DomId(5)), None);
    Ok(())
}

fn ring(owner: u16) -> RingId {
    RingId {
        owner: DomId(owner),
        port: 1,
        partner: DomId(1),
    }
}
