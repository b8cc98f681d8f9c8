//! Rings come out by rising id.
use crate::SendList;
use argo_base::{DomId, RingId};
use std::test::Fail;

#[test]
fn rings_come_out_from_the_least_on(rt: HostRuntime) -> Result<(), Fail> {
    let ids = [(3, 1), (2, 9), (2, 8), (3, 1)];
    let mut list = SendList::new(rt.alloc());
    for (owner, port) in ids {
        list.add(ring(owner, port))?;
    }
    assert!(rt; list.remove(ring(2, 9)));
    assert!(rt; !list.remove(ring(2, 9)));
    assert_eq!(rt; list.drain_one(), Some(ring(2, 8)));
    assert!(rt; list.contains(ring(3, 1)));
    assert_eq!(rt; list.drain_one(), Some(ring(3, 1)));
    assert_eq!(rt; list.drain_one(), None);
    Ok(())
}

fn ring(owner: u16, port: u32) -> RingId {
    RingId {
        owner: DomId(owner),
        port,
        partner: DomId(1),
    }
}
