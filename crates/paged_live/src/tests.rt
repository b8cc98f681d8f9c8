//! A ring that takes a message, is swept, and ends, and whose bytes stay in the memory.
ghost use Rattle.std.specs.Prelude.{◌<◌, ◌^◌};

use crate::Live;
use argo_base::slots::{is_legal, page_count};
use argo_base::{Bytes, DomId, LONGEST_BODY, PageList, Piece, RingKey};
use argo_model::{Load, Outcome};
use live_domain::{KeyedRings, LiveDomain, Offer, Registration};
use std::alloc::Global;
use std::process::Abort;
use std::test::Fail;

const SENDER: DomId = DomId(2);

const KEY: RingKey = RingKey {
    port: 5,
    partner: SENDER,
};

fn register(rt: &impl Abort, alloc: Global, live: &mut Live, page: u64) -> Result<Outcome, Fail>
    requires { live.old.next_serial < 2 ^ 63 }
{
    let pages = PageList::copy_of(alloc, &[page])?;
    assert!(rt; is_legal(96));
    assert_eq!(rt; pages.len(), page_count(96) as usize);
    let change = live.register(
        alloc,
        Registration {
            key: KEY,
            len: 96,
            pages,
            fail_exist: false,
        },
    )?;
    Ok(change.outcome)
}

fn send(rt: &impl Abort, alloc: Global, live: &mut Live, body: &[u8]) -> Result<Outcome, Fail> {
    let body = Bytes::copy_of(alloc, body)?;
    assert!(rt; body.len() <= LONGEST_BODY as usize);
    let mut sent = Offer {
        sender: SENDER,
        port: 7,
        kind: 9,
        load: Load::Body(body),
    };
    let outcome = live.offer(DomId(1), 5, &mut sent)?;
    Ok(outcome)
}

fn is_accepted(outcome: &Outcome) -> bool {
    matches!(outcome, Outcome::Accepted(_))
}

fn is_done(outcome: &Outcome) -> bool {
    matches!(outcome, Outcome::Done)
}

#[test]
fn a_ring_takes_a_message_and_its_bytes_stay(rt: HostRuntime) -> Result<(), Fail> {
    let alloc = rt.alloc();
    let mut live = Live::fresh(alloc, DomId(1), 3)?;
    assert!(rt; is_done(&register(&rt, alloc, &mut live, 1)?));
    assert!(rt; is_accepted(&send(&rt, alloc, &mut live, &[7; 16])?));
    assert!(rt; !is_accepted(&send(&rt, alloc, &mut live, &[8; 64])?));
    assert!(rt; live.is_noted(KEY, SENDER));
    assert_eq!(rt; live.next_ring(0), Some(KEY));
    let closed = live.closed_rings(alloc)?;
    assert_eq!(rt; closed.len(), 1);
    assert!(rt; is_done(&live.put(1, 0, &[32, 0, 0, 0])?));
    let change = live.sweep(alloc, 0)?;
    assert_eq!(rt; change.signals.as_slice(), [SENDER].as_slice());
    assert_eq!(rt; live.noted(KEY).len(), 0);
    assert!(rt; is_done(&live.unregister(KEY)));
    let piece = Piece {
        page: 1,
        off: 80,
        n: 4,
    };
    assert_eq!(rt; live.seen(piece), Some([7; 4].as_slice()));
    Ok(())
}
