//! The lines of a section, added at its end.

ghost use Rattle.std.specs.Prelude.{◌≡◌, ◌<◌, [], ◌∷◌, ◌++◌, OnOk};
ghost use Rattle.argo_model.specs.declared.line.Line.TheVariants.{Store};
ghost use Rattle.gen_script.specs.Made.{opening_lines, round_lines};

use argo_abi::{Addr, Iov, RegisterRing, SendAddr, put_iov, put_register_ring, put_send_addr};
use argo_base::{Bytes, DomId, NoMemory};
use argo_model::{Line, Lines};
use std::alloc::Global;

/// The port of each domain's ring, to which all messages go.
const PORT: u32 = 1;

/// The page on which a domain's ring begins, and ends.
const RING_PAGE: u32 = 1;

/// The slot bytes of that ring: all that its page has behind the ring's header.
const RING_BYTES: u32 = 4032;

/// The guest address of the bytes that a domain sends, at the start of its last page.
const BODY: u64 = 0x2000;

/// What a domain does in a round.
#[derive(Clone, Copy)]
pub(crate) struct Round {
    /// The number of the round in its section, from 1, which is the type of the message.
    pub(crate) number: u64,
    /// To which domain it sends.
    pub(crate) to: u16,
    /// How many bytes.
    pub(crate) size: u32,
}

/// Adds the lines of a domain that come before its rounds.
pub(crate) fn push_opening(alloc: Global, lines: &mut Lines, d: u16) -> Result<(), NoMemory>
    requires { d < 256 }
    ensures { OnOk result (lines.new ≡ lines.old ++ opening_lines d) }
{
    let ring = RegisterRing {
        aport: PORT,
        partner_id: DomId::ANY.0,
        pad: 0,
        len: RING_BYTES,
    };
    push_store(alloc, lines, 0, &put_register_ring(&ring))?;
    push_store(alloc, lines, 0x10, &u64::from(RING_PAGE).to_le_bytes())?;
    lines.push(Line::Op {
        c: 1,
        a1: 0,
        a2: 0x10,
        a3: 1,
        a4: 0,
    })?;
    push_store(alloc, lines, BODY, &[d as u8; 64])?;
    Ok(())
}

/// Adds the lines of a round of a domain.
pub(crate) fn push_round(
    alloc: Global,
    lines: &mut Lines,
    d: u16,
    round: Round,
) -> Result<(), NoMemory>
    ensures { OnOk result
        (lines.new ≡ lines.old ++ round_lines d round.to round.size round.number) }
{
    let src = address_in(d);
    let dst = address_in(round.to);
    push_store(alloc, lines, 0x20, &put_send_addr(&SendAddr { src, dst }))?;
    let body = Iov {
        hnd: BODY,
        len: round.size,
        pad: 0,
    };
    push_store(alloc, lines, 0x30, &put_iov(&body))?;
    lines.push(Line::Op {
        c: 3,
        a1: 0x20,
        a2: 0x30,
        a3: 1,
        a4: round.number,
    })?;
    lines.push(Line::Recv {
        page: RING_PAGE,
        len: RING_BYTES,
    })?;
    lines.push(Line::Op {
        c: 4,
        a1: 0,
        a2: 0,
        a3: 0,
        a4: 0,
    })?;
    Ok(())
}

// The port that all domains use, in this domain.
fn address_in(d: u16) -> Addr
    ensures { result ≡ record { aport = 1; domain_id = d; pad = 0 } }
{
    Addr {
        aport: PORT,
        domain_id: d,
        pad: 0,
    }
}

// Adds a store of these bytes.
fn push_store(alloc: Global, lines: &mut Lines, at: u64, bytes: &[u8]) -> Result<(), NoMemory>
    ensures { OnOk result (lines.new ≡ lines.old ++ Store at bytes.now ∷ []) }
{
    let bytes = Bytes::copy_of(alloc, bytes)?;
    lines.push(Line::Store { at, bytes })
}
