//! What the library finds in rings of one page.

ghost use Rattle.std.specs.Prelude.{IsTrue, IfOk};
ghost use Rattle.argo_base.specs.Slots.{is_legal};
ghost use Rattle.argo_model.specs.Rules.Outcomes.{can_have};

use crate::{Received, Recv};
use argo_abi::{Addr, MessageHead, put_message_head};
use argo_base::{Bytes, NoMemory};
use argo_model::{Action, Outcome};
use std::alloc::Global;
use std::test::Fail;

// What a guest whose page 0 has these bytes answers; its other pages are not there.
fn answer(alloc: Global, page_0: &[u8], action: &Action) -> Result<Outcome, NoMemory>
    ensures { IfOk result (λ o. IsTrue (can_have action.now o)) }
{
    match action {
        Action::Fetch { page, off, n } => {
            let from = *off as usize;
            if *page != 0 || page_0.len() < from + *n as usize {
                return Ok(Outcome::Fault);
            }
            let (_, rest) = page_0.split_at(from);
            let (part, _) = rest.split_at(*n as usize);
            Ok(Outcome::Bytes(Bytes::copy_of(alloc, part)?))
        }
        Action::Put { .. } => Ok(Outcome::Done),
        _ => Ok(Outcome::Gone),
    }
}

// What a recv from the ring of 48 slot bytes on page 0 comes to, or none after so many actions.
fn received(alloc: Global, page_0: &[u8]) -> Result<Option<Received>, NoMemory> {
    let mut recv = Recv::start(alloc, 0, 48);
    for _ in 0..8 {
        let action = recv.next()?;
        let outcome = answer(alloc, page_0, &action)?;
        if let Some(received) = recv.feed(outcome) {
            return Ok(Some(received));
        }
    }
    Ok(None)
}

// A page with a ring of these words: at place 32 a header with this length, at place 0 the bytes `hello`.
fn page(rx: u32, tx: u32, len: u32) -> [u8; 128] {
    let source = Addr {
        aport: 7,
        domain_id: 2,
        pad: 0,
    };
    let head = MessageHead {
        len,
        source,
        message_type: 9,
    };
    let mut page = [0; 128];
    let (rx_word, rest) = page.split_at_mut(4);
    let (tx_word, rest) = rest.split_at_mut(4);
    let (_, slots) = rest.split_at_mut(56);
    let (body, rest) = slots.split_at_mut(5);
    let (_, rest) = rest.split_at_mut(27);
    let (at_32, _) = rest.split_at_mut(16);
    rx_word.copy_from_slice(&rx.to_le_bytes());
    tx_word.copy_from_slice(&tx.to_le_bytes());
    body.copy_from_slice(b"hello");
    at_32.copy_from_slice(&put_message_head(&head));
    page
}

#[test]
fn a_message_goes_round_the_end_of_the_ring(rt: HostRuntime) -> Result<(), Fail> {
    let Some(Received::Msg(m)) = received(rt.alloc(), &page(32, 16, 21))? else {
        panic!(rt; "no message");
    };
    assert_eq!(rt; (m.src.0, m.port, m.kind), (2, 7, 9));
    assert_eq!(rt; m.body.as_slice(), b"hello".as_slice());
    Ok(())
}

#[test]
fn a_ring_that_makes_no_sense_is_told(rt: HostRuntime) -> Result<(), Fail> {
    let alloc = rt.alloc();
    assert!(rt; matches!(received(alloc, &page(16, 16, 21))?, Some(Received::Empty)));
    assert!(rt; matches!(received(alloc, &page(20, 16, 21))?, Some(Received::Bad)));
    assert!(rt; matches!(received(alloc, &page(32, 48, 21))?, Some(Received::Bad)));
    assert!(rt; matches!(received(alloc, &page(32, 16, 15))?, Some(Received::Bad)));
    assert!(rt; matches!(received(alloc, &page(32, 16, 33))?, Some(Received::Bad)));
    assert!(rt; matches!(received(alloc, &[0; 6])?, Some(Received::Fault)));
    Ok(())
}

#[test]
fn a_caller_that_is_gone_is_told(rt: HostRuntime) -> Result<(), Fail> {
    let mut recv = Recv::start(rt.alloc(), 0, 48);
    let _ = recv.next()?;
    assert!(rt; matches!(recv.feed_by(&Outcome::Gone), Some(Received::Gone)));
    Ok(())
}
