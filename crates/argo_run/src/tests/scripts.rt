//! Scripts where the order of the steps matters.

use std::alloc::{AllocError, Global};

pub(super) const PING_AND_PONG: &[u8] = b"argo 1
domain 1 pages 2
domain 2 pages 2
vcpu 1
store 0 050000000200000060000000
store 0x10 0100000000000000
op 1 0 0x10 1 0
vcpu 2
store 0 060000000100000060000000
store 0x10 0100000000000000
op 1 0 0x10 1 0
vcpu 1
store 0x20 05000000010000000600000002000000
store 0x30 40000000000000000400000000000000
store 0x40 70696e67
op 3 0x20 0x30 1 1
vcpu 2
await 1000
recv 1 96
op 4 0 0 0 0
store 0x20 06000000020000000500000001000000
store 0x30 40000000000000000400000000000000
store 0x40 706f6e67
op 3 0x20 0x30 1 2
vcpu 1
await 1000
recv 1 96
op 4 0 0 0 0
";

pub(super) const SECOND_BODY_GETS_A_NOTICE: &[u8] = b"argo 1
domain 1 pages 2
domain 2 pages 1
vcpu 1
store 0 050000000200000030000000
store 0x10 0100000000000000
op 1 0 0x10 1 0
vcpu 2
store 0 09000000020000000500000001000000
store 0x10 40000000000000001000000000000000
store 0x40 000102030405060708090a0b0c0d0e0f
op 3 0 0x10 1 7
op 3 0 0x10 1 7
";

pub(super) const EXACT_RING_AND_WILDCARD: &[u8] = b"argo 1
domain 1 pages 3
domain 2 pages 2
domain 3 pages 2
vcpu 1
store 0 050000000200000060000000
store 0x10 0100000000000000
op 1 0 0x10 1 0
store 0 05000000f47f000060000000
store 0x10 0200000000000000
op 1 0 0x10 1 0
vcpu 2
store 0x20 09000000020000000500000001000000
store 0x30 00010000000000001000000000000000
op 3 0x20 0x30 1 7
vcpu 1
store 0 0500000002000000
op 2 0 0 0 0
vcpu 2
store 0x20 09000000020000000500000001000000
store 0x30 00010000000000001000000000000000
op 3 0x20 0x30 1 7
vcpu 3
store 0x20 09000000030000000500000001000000
store 0x30 00010000000000001000000000000000
op 3 0x20 0x30 1 7
";

pub(super) const SWEEP_SIGNALS_WHEN_NOTICE_FITS: &[u8] = b"argo 1
domain 1 pages 2
domain 2 pages 2
vcpu 1
store 0 050000000200000060000000
store 0x10 0100000000000000
op 1 0 0x10 1 0
vcpu 2
store 0x20 09000000020000000500000001000000
store 0x30 00010000000000001000000000000000
op 3 0x20 0x30 1 7
store 0x20 09000000020000000500000001000000
store 0x30 00010000000000001000000000000000
op 3 0x20 0x30 1 7
store 0x20 09000000020000000500000001000000
store 0x30 00010000000000001000000000000000
op 3 0x20 0x30 1 7
store 0x20 09000000020000000500000001000000
store 0x30 00010000000000004000000000000000
op 3 0x20 0x30 1 7
vcpu 1
recv 1 96
op 4 0 0 0 0
vcpu 2
await 1
vcpu 1
recv 1 96
op 4 0 0 0 0
vcpu 2
await 1
";

pub(super) const DESTROY_ENDS_RINGS_AND_NOTICES: &[u8] = b"argo 1
domain 1 pages 3
domain 2 pages 2
vcpu 1
store 0 05000000f47f000030000000
store 0x10 0100000000000000
op 1 0 0x10 1 0
store 0 060000000200000030000000
store 0x10 0200000000000000
op 1 0 0x10 1 0
vcpu 2
store 0x20 09000000020000000500000001000000
store 0x30 00010000000000001000000000000000
op 3 0x20 0x30 1 7
store 0x20 09000000020000000500000001000000
store 0x30 00010000000000001000000000000000
op 3 0x20 0x30 1 7
control
destroy 2
destroy 2
vcpu 1
store 0 0600000002000000
op 2 0 0 0 0
";

pub(super) const DESTROYED_BETWEEN_GATHER_AND_DELIVERY: &[u8] = b"argo 1
domain 1 pages 2
domain 2 pages 1
vcpu 1
store 0 05000000f47f000030000000
store 0x10 0100000000000000
op 1 0 0x10 1 0
vcpu 2
store 0 09000000020000000500000001000000
store 0x10 40000000000000001000000000000000
store 0x40 000102030405060708090a0b0c0d0e0f
op 3 0 0x10 1 7
load 0 1
control
destroy 2
";

pub(super) const SENDERS_APART: &[u8] = b"argo 1
domain 1 pages 3
domain 2 pages 2
domain 3 pages 2
vcpu 1
store 0 050000000200000060000000
store 0x10 0100000000000000
op 1 0 0x10 1 0
store 0 060000000300000060000000
store 0x10 0200000000000000
op 1 0 0x10 1 0
vcpu 2
load 0 1
store 0x20 09000000020000000500000001000000
store 0x30 00010000000000001000000000000000
op 3 0x20 0x30 1 7
vcpu 3
load 0 1
store 0x20 09000000030000000600000001000000
store 0x30 00010000000000001000000000000000
op 3 0x20 0x30 1 7
";

/// A ring that 33 domains find full: 32 of them are noted.
pub(super) fn notices_full(alloc: Global) -> Result<String, AllocError> {
    let mut text = String::new(alloc);
    text.push_str("argo 1\n")?;
    for dom in 1..35u32 {
        writeln!(text, "domain {dom} pages 2")?;
    }
    text.push_str("vcpu 1\nstore 0 05000000f47f000030000000\n")?;
    text.push_str("store 0x10 0100000000000000\nop 1 0 0x10 1 0\n")?;
    for dom in 2..35u32 {
        push_sender(&mut text, dom)?;
    }
    push_sender(&mut text, 2)?;
    push_sender(&mut text, 3)?;
    Ok(text)
}

// A section of this domain that sends a body of 16 bytes to the ring.
fn push_sender(text: &mut String, dom: u32) -> Result<(), AllocError> {
    writeln!(text, "vcpu {dom}")?;
    writeln!(text, "store 0x20 09000000{dom:02x}0000000500000001000000")?;
    text.push_str("store 0x30 00010000000000001000000000000000\nop 3 0x20 0x30 1 7\n")
}
