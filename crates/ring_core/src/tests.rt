//! A ring that is sent to, and then registered anew with a shorter length.
use crate::{Accept, Offer, Ring};
use argo_base::slots::{is_legal, page_count};
use argo_base::{Bytes, DomId, LONGEST_BODY, RingId};
use argo_model::Load;
use guest_pages::Private;
use std::alloc::Global;
use std::process::Abort;
use std::test::Fail;

const SENDER: DomId = DomId(2);

fn ring_of(rt: &impl Abort, alloc: Global, private: &mut Private, len: u32) -> Result<Ring, Fail> {
    let row = private.lend(&[0])?;
    assert!(rt; is_legal(len));
    assert_eq!(rt; row.count(), page_count(len) as usize);
    let id = RingId {
        owner: DomId(1),
        port: 5,
        partner: SENDER,
    };
    Ok(Ring::new(alloc, id, len, row))
}

fn send(rt: &impl Abort, alloc: Global, ring: &mut Ring, body: &[u8]) -> Result<Accept, Fail> {
    let body = Bytes::copy_of(alloc, body)?;
    assert!(rt; body.len() <= LONGEST_BODY as usize);
    ring.reserve_log()?;
    Ok(ring.accept(Offer {
        src: SENDER,
        port: 7,
        kind: 9,
        load: Load::Body(body),
    }))
}

#[test]
fn a_shorter_ring_ends_the_notice_that_is_too_big(rt: HostRuntime) -> Result<(), Fail> {
    let alloc = rt.alloc();
    let mut private = Private::new(alloc, 1)?;
    let mut ring = ring_of(&rt, alloc, &mut private, 96)?;
    assert_eq!(rt;
        send(&rt, alloc, &mut ring, &[1; 16])?,
        Accept::Accepted(16)
    );
    assert_eq!(rt; send(&rt, alloc, &mut ring, &[1; 64])?, Accept::NoRoom);
    assert!(rt; is_legal(48));
    assert_eq!(rt; page_count(48), 1);
    let ended = ring.restart(48, &mut private, &[0])?;
    assert_eq!(rt; ended.as_slice(), [SENDER].as_slice());
    assert_eq!(rt; send(&rt, alloc, &mut ring, &[1; 64])?, Accept::TooBig);
    Ok(())
}
