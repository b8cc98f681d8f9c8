//! Two rings of one key.
ghost use Rattle.std.specs.Prelude.{◌≡◌, slice_get, IfOk, Some};
ghost use Rattle.std.specs.Option.{option_copied};
ghost use Rattle.argo_model.specs.Rules.Messages.{spell};
ghost use Rattle.audit.specs.First.{text_end, missing};
ghost use Rattle.audit.specs.Rings.{number_of, spelled, untaken_at, untaken_differ, notice_at, notice_number, notices_differ, both_differ, one_differs, ring_differs};

use crate::heard::TEXT_END;
use crate::lists::{bytes_differ, numbers_differ};
use crate::names::{names, row_of};
use crate::rows::RingRow;
use crate::values::{MISSING, Values, differ};
use argo_abi::{Addr, put_addr};
use argo_base::{Bytes, DomId, Message, NoMemory};
use argo_model::{ClosedRing, NoticeLine};
use std::alloc::Global;

/// How two rings differ in one of their parts.
pub(crate) fn ring_differs(
    alloc: Global,
    row: RingRow,
    threads: Option<&ClosedRing>,
    machine: Option<&ClosedRing>,
) -> Result<Option<Values>, NoMemory>
    ensures { IfOk result
        (λ r. r ≡ ring_differs row (option_copied threads.entry) (option_copied machine.entry)) }
{
    match (threads, machine) {
        (Some(threads), Some(machine)) => both_differ(alloc, row, threads, machine),
        (Some(_), None) => Ok(one_differs(row, 1, 0)),
        (None, Some(_)) => Ok(one_differs(row, 0, 1)),
        (None, None) => Ok(None),
    }
}

// A ring that one side has alone.
fn one_differs(row: RingRow, threads: u64, machine: u64) -> Option<Values>
    ensures { result ≡ one_differs row threads machine }
{
    match row {
        RingRow::There => differ(threads, machine),
        _ => None,
    }
}

fn both_differ(
    alloc: Global,
    row: RingRow,
    threads: &ClosedRing,
    machine: &ClosedRing,
) -> Result<Option<Values>, NoMemory>
    ensures { IfOk result (λ r. r ≡ both_differ row threads.now machine.now) }
{
    match row {
        RingRow::There => Ok(None),
        RingRow::Serial => Ok(differ(threads.serial, machine.serial)),
        RingRow::Length => Ok(differ(u64::from(threads.len), u64::from(machine.len))),
        RingRow::Tx => Ok(differ(u64::from(threads.tx), u64::from(machine.tx))),
        RingRow::Clean => Ok(differ(u64::from(threads.clean), u64::from(machine.clean))),
        RingRow::Untaken => {
            untaken_differ(
                alloc,
                threads.untaken.as_slice(),
                machine.untaken.as_slice(),
            )
        }
        RingRow::Notices => {
            notices_differ(
                alloc,
                threads.notices.as_slice(),
                machine.notices.as_slice(),
            )
        }
        RingRow::Pages => {
            let (one, other) = (threads.pages.as_slice(), machine.pages.as_slice());
            Ok(numbers_differ(MISSING, one, other))
        }
    }
}

// The messages that were not taken.
fn untaken_differ(
    alloc: Global,
    threads: &[Message],
    machine: &[Message],
) -> Result<Option<Values>, NoMemory>
    ensures { IfOk result (λ r. r ≡ untaken_differ threads.now machine.now) }
{
    for at in 0..threads.len().max(machine.len()) {
        let found = untaken_at(alloc, threads, machine, at)?;
        if found.is_some() {
            return Ok(found);
        }
    }
    Ok(None)
}

fn untaken_at(
    alloc: Global,
    threads: &[Message],
    machine: &[Message],
    at: usize,
) -> Result<Option<Values>, NoMemory>
    ensures { IfOk result (λ r. r ≡ untaken_at threads.now machine.now at) }
{
    let one = spelled_at(alloc, threads, at)?;
    let other = spelled_at(alloc, machine, at)?;
    Ok(bytes_differ(TEXT_END, one.as_slice(), other.as_slice()))
}

fn spelled_at(alloc: Global, messages: &[Message], at: usize) -> Result<Bytes, NoMemory>
    ensures { IfOk result (λ text. text ≡ spelled (slice_get messages.now at)) }
{
    match messages.get(at) {
        Some(message) => spelled(alloc, message),
        None => Ok(Bytes::new(alloc)),
    }
}

// The bytes of a message, as they stand in slots.
fn spelled(alloc: Global, message: &Message) -> Result<Bytes, NoMemory>
    ensures { IfOk result (λ text. text ≡ spell message.now) }
{
    let source = Addr {
        aport: message.port,
        domain_id: message.src.0,
        pad: 0,
    };
    let size = (message.body.as_slice().len() as u64 + 16).to_le_bytes();
    let (size, _) = size.split_at(4);
    let mut text = Bytes::copy_of(alloc, size)?;
    text.append(&put_addr(&source))?;
    text.append(&message.kind.to_le_bytes())?;
    text.append(message.body.as_slice())?;
    Ok(text)
}

// The notices, by rising domain.
fn notices_differ(
    alloc: Global,
    threads: &[NoticeLine],
    machine: &[NoticeLine],
) -> Result<Option<Values>, NoMemory>
    ensures { IfOk result (λ r. r ≡ notices_differ threads.now machine.now) }
{
    let doms = names(alloc, threads, machine)?;
    for dom in &doms {
        let found = differ(notice_at(threads, dom), notice_at(machine, dom));
        if found.is_some() {
            return Ok(found);
        }
    }
    Ok(None)
}

// The size of a notice and one more, or 0 where there is none.
fn notice_at(notices: &[NoticeLine], dom: &DomId) -> u64
    ensures { result ≡ notice_at notices.now dom.now }
{
    match row_of(notices, dom) {
        Some(notice) => notice_number(notice),
        None => 0,
    }
}

fn notice_number(notice: &NoticeLine) -> u64
    ensures { result ≡ notice_number (Some notice.now) }
{
    u64::from(notice.size) + 1
}
