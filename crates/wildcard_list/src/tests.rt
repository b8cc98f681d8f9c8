//! A ring stands in the list once.
use crate::WildList;
use argo_base::{DomId, RingId};
use std::test::Fail;

#[test]
fn a_ring_that_is_added_twice_comes_out_once(rt: HostRuntime) -> Result<(), Fail> {
    let mut list = WildList::new(rt.alloc());
    for owner in [3, 2, 3] {
        list.add(ring(owner))?;
    }
    assert_eq!(rt; list.len(), 2);
    assert!(rt; list.contains(ring(2)));
    assert!(rt; list.remove(ring(2)));
    assert!(rt; !list.remove(ring(2)));
    assert_eq!(rt; list.drain_one(), Some(ring(3)));
    assert!(rt; list.is_empty());
    Ok(())
}

fn ring(owner: u16) -> RingId {
    RingId {
        owner: DomId(owner),
        port: 7,
        partner: DomId::ANY,
    }
}
