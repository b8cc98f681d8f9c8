//! The rings of a domain, copied with all that they hold.
ghost use Rattle.std.specs.Prelude.{◌≡◌, IfOk, map, option_map};
ghost use Rattle.paged_live.specs.Closed as closing;
ghost use Rattle.ring_table.specs.Rows.{held_at};
ghost use Rattle.guest_pages.specs.Rows.{numbers_of};

use crate::finals::lines_of;
use argo_base::{Bytes, Message, Messages, NoMemory, PageList, RingKey};
use argo_model::{ClosedRing, ClosedRings};
use guest_pages::PageRow;
use ring_core::Ring;
use ring_table::{Row, Table};
use std::alloc::Global;
use std::collections::VecDeque;

/// A row for each ring, by rising key. All is copied, and the rings stay where they are.
pub(crate) fn rings_of(alloc: Global, rings: &Table<Ring>) -> Result<ClosedRings, NoMemory>
    ensures { IfOk result (λ closed. closed ≡ map closing.closed_of rings.now) }
{
    rings.count();
    let serials = rings.serials(alloc)?;
    let mut closed = ClosedRings::new(alloc);
    for (key, _) in &serials {
        if let Some(row) = rings.find_exact(*key) {
            closed.push(ring_of(alloc, row)?)?;
        }
    }
    Ok(closed)
}

fn ring_of(alloc: Global, row: &Row<Ring>) -> Result<ClosedRing, NoMemory>
    ensures { IfOk result (λ closed. closed ≡ closing.closed_row row.now) }
{
    let ring = &row.value;
    Ok(ClosedRing {
        key: row.key,
        serial: row.serial,
        len: ring.len(),
        tx: ring.tx(),
        clean: ring.clean(),
        untaken: messages_of(alloc, ring.untaken())?,
        notices: lines_of(alloc, ring.notices().as_slice())?,
        pages: pages_of(alloc, ring.row())?,
    })
}

fn messages_of(alloc: Global, messages: &VecDeque<Message>) -> Result<Messages, NoMemory>
    ensures { IfOk result (λ copies. copies ≡ messages.now.items) }
{
    let mut copies = Messages::new(alloc);
    for message in messages {
        copies.push(copy_of(alloc, message)?)?;
    }
    Ok(copies)
}

fn copy_of(alloc: Global, message: &Message) -> Result<Message, NoMemory>
    ensures { IfOk result (λ copy. copy ≡ message.now) }
{
    Ok(Message {
        src: message.src,
        port: message.port,
        kind: message.kind,
        body: Bytes::copy_of(alloc, message.body.as_slice())?,
    })
}

// The numbers of the pages of a row.
fn pages_of(alloc: Global, row: &PageRow) -> Result<PageList, NoMemory>
    ensures { IfOk result (λ pages. pages ≡ numbers_of row.now) }
{
    let mut pages = PageList::new(alloc);
    for place in 0..row.count() {
        pages.push(row.number(place))?;
    }
    Ok(pages)
}
