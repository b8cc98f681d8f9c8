//! The rings of a domain, copied with all that they hold.

ghost use Rattle.std.specs.Prelude.{◌≡◌, IfOk, map};
ghost use Rattle.argo_model.specs.Runs.Closed.{closed_ring};

use crate::ring::Ring;
use argo_base::{Bytes, Message, Messages, NoMemory, PageList, RingKey};
use argo_model::{ClosedRing, ClosedRings};
use std::alloc::Global;
use std::collections::BTreeMap;

/// A row for each ring, by rising key. All is copied.
pub(crate) fn rings_of(
    alloc: Global,
    rings: &BTreeMap<RingKey, Ring>,
) -> Result<ClosedRings, NoMemory>
    ensures { IfOk result (λ closed. closed ≡ map closed_ring rings.now.entries) }
{
    let mut closed = ClosedRings::new(alloc);
    for (key, ring) in rings {
        closed.push(ring_of(alloc, *key, ring)?)?;
    }
    Ok(closed)
}

fn ring_of(alloc: Global, key: RingKey, ring: &Ring) -> Result<ClosedRing, NoMemory>
    ensures { IfOk result (λ closed. closed ≡ closed_ring (key, ring.now)) }
{
    Ok(ClosedRing {
        key,
        serial: ring.serial,
        len: ring.len,
        tx: ring.tx,
        clean: ring.clean,
        untaken: copy_of_messages(alloc, ring.untaken.as_slice())?,
        notices: ring.notices.lines(alloc)?,
        pages: PageList::copy_of(alloc, ring.pages.as_slice())?,
    })
}

fn copy_of_messages(alloc: Global, messages: &[Message]) -> Result<Messages, NoMemory>
    ensures { IfOk result (λ copies. copies ≡ messages.now) }
{
    let mut copies = Messages::new(alloc);
    for message in messages {
        copies.push(copy_of_message(alloc, message)?)?;
    }
    Ok(copies)
}

fn copy_of_message(alloc: Global, message: &Message) -> Result<Message, NoMemory>
    ensures { IfOk result (λ copy. copy ≡ message.now) }
{
    Ok(Message {
        src: message.src,
        port: message.port,
        kind: message.kind,
        body: Bytes::copy_of(alloc, message.body.as_slice())?,
    })
}
