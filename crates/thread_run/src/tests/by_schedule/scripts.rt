//! Worked scripts, each with a schedule.
use super::super::{
    DESTROY_ENDS_RINGS_AND_NOTICES, DESTROYED_BETWEEN_GATHER_AND_DELIVERY, PING_AND_PONG,
    SECOND_BODY_GETS_A_NOTICE,
};

/// The scripts, each with a schedule: the section of each of its steps.
pub(super) const ROWS: [(&[u8], &[u32]); 9] = [
    (
        SECOND_BODY_GETS_A_NOTICE,
        &[0, 0, 0, 0, 0, 1, 1, 1, 1, 1, 1, 1, 1, 1, 1, 1],
    ),
    (
        DESTROY_ENDS_RINGS_AND_NOTICES,
        &[
            0, 0, 0, 0, 0, 0, 0, 0, 0, 0, 1, 1, 1, 1, 1, 1, 1, 1, 1, 1, 1, 1, 2, 2, 3, 3, 3,
        ],
    ),
    (
        DESTROYED_BETWEEN_GATHER_AND_DELIVERY,
        &[0, 0, 0, 0, 0, 1, 1, 1, 1, 1, 1, 2, 1, 1],
    ),
    (
        SEND_OUT_OF_OWN_SLOTS,
        &[
            0, 0, 0, 0, 0, 0, 0, 0, 0, 0, 0, 0, 0, 0, 0, 0, 0, 0, 0, 0, 0, 0, 0, 0,
        ],
    ),
    (
        SHORTER_RING_SIGNALS_AND_TAKES_BODIES,
        &[
            0, 0, 0, 0, 0, 1, 1, 1, 1, 1, 1, 1, 1, 1, 1, 1, 1, 1, 1, 1, 1, 1, 1, 2, 2, 2, 2, 2, 3,
            3, 3, 3, 3, 3, 3, 3, 3, 3, 3, 3, 3,
        ],
    ),
    (
        LONGER_RING_KEEPS_NOTICE,
        &[
            0, 0, 0, 0, 0, 1, 1, 1, 1, 1, 1, 1, 1, 1, 1, 1, 1, 2, 2, 2, 2, 2, 3, 4, 4,
        ],
    ),
    (
        RESET_AND_CREATE,
        &[
            0, 0, 0, 0, 0, 1, 1, 1, 1, 1, 1, 1, 1, 1, 1, 1, 1, 2, 2, 2, 2, 3, 3, 3, 3, 3, 3, 3, 4,
        ],
    ),
    (
        PING_AND_PONG,
        &[
            0, 0, 0, 0, 0, 1, 1, 1, 1, 1, 2, 2, 2, 2, 2, 2, 2, 3, 3, 3, 3, 3, 3, 3, 3, 3, 3, 3, 3,
            3, 3, 3, 4, 4, 4, 4, 4, 4, 4, 4,
        ],
    ),
    (
        PING_AND_PONG,
        &[
            3, 1, 3, 3, 0, 4, 4, 4, 4, 1, 0, 0, 2, 0, 4, 2, 0, 4, 1, 4, 1, 2, 3, 3, 2, 1, 4, 4, 2,
            3, 3, 3, 4, 3, 4, 4, 2, 3, 3, 2, 4, 4, 3, 3, 3, 3, 3, 3, 3, 3, 3, 3, 4, 3, 3, 4, 3, 3,
            3, 4, 4, 4, 4, 4, 4, 4, 4,
        ],
    ),
];

const SEND_OUT_OF_OWN_SLOTS: &[u8] = b"argo 1
domain 1 pages 2
vcpu 1
store 0 05000000f47f000060000000
store 0x10 0100000000000000
op 1 0 0x10 1 0
store 0x20 09000000010000000500000001000000
store 0x30 40100000000000001000000000000000
op 3 0x20 0x30 1 7
store 0xff0 01000000000000000500000001000000
op 4 0xff0 0 0 0
load 0x1000 12
op 3 0x20 0x30 1 7
";

const SHORTER_RING_SIGNALS_AND_TAKES_BODIES: &[u8] = b"argo 1
domain 1 pages 2
domain 2 pages 2
vcpu 1
store 0 050000000200000060000000
store 0x10 0100000000000000
op 1 0 0x10 1 0
vcpu 2
store 0x20 09000000020000000500000001000000
store 0x30 00010000000000001000000000000000
op 3 0x20 0x30 1 7
store 0x20 09000000020000000500000001000000
store 0x30 00010000000000001000000000000000
op 3 0x20 0x30 1 7
store 0x20 09000000020000000500000001000000
store 0x30 00010000000000004000000000000000
op 3 0x20 0x30 1 7
vcpu 1
store 0 050000000200000030000000
store 0x10 0100000000000000
op 1 0 0x10 1 0
vcpu 2
await 1
store 0x20 09000000020000000500000001000000
store 0x30 00010000000000004000000000000000
op 3 0x20 0x30 1 7
store 0x20 09000000020000000500000001000000
store 0x30 00010000000000001000000000000000
op 3 0x20 0x30 1 7
";

const LONGER_RING_KEEPS_NOTICE: &[u8] = b"argo 1
domain 1 pages 2
domain 2 pages 2
vcpu 1
store 0 050000000200000030000000
store 0x10 0100000000000000
op 1 0 0x10 1 0
vcpu 2
store 0x20 09000000020000000500000001000000
store 0x30 00010000000000001000000000000000
op 3 0x20 0x30 1 7
store 0x20 09000000020000000500000001000000
store 0x30 00010000000000001000000000000000
op 3 0x20 0x30 1 7
vcpu 1
store 0 050000000200000040000000
store 0x10 0100000000000000
op 1 0 0x10 1 0
vcpu 2
await 1
vcpu 1
op 4 0 0 0 0
";

const RESET_AND_CREATE: &[u8] = b"argo 2
domain 1 pages 2
domain 2 pages 1
vcpu 1
store 0 05000000f47f000030000000
store 0x10 0100000000000000
op 1 0 0x10 1 0
vcpu 2
store 0x20 09000000020000000500000001000000
store 0x30 00010000000000001000000000000000
op 3 0x20 0x30 1 7
store 0x20 09000000020000000500000001000000
store 0x30 00010000000000001000000000000000
op 3 0x20 0x30 1 7
control
reset 2
create 2
destroy 2
create 2
vcpu 2 gen 2
store 0x20 09000000020000000500000001000000
store 0x30 00010000000000001000000000000000
op 3 0x20 0x30 1 7
load 0x100 1
vcpu 2
load 0 1
";
