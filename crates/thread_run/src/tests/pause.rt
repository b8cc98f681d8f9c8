//! Virtual CPUs run side by side: a sender is held up inside a ring's lock until another sender was answered on another ring.
use crate::run_threads_with;
use argo_base::{DomId, NoMemory, RingId};
use script_text::read_scripts;
use shared_world::Pause;
use std::sync::atomic::{AtomicU64, Ordering};
use std::test::Fail;
use std::thread;

// Domain 1 has a ring for domain 2 and one for domain 3. Both senders begin by a line that touches no ring.
const TWO_RINGS: &[u8] = b"argo 1
domain 1 pages 3
domain 2 pages 2
domain 3 pages 2
vcpu 1
store 0 050000000200000060000000
store 0x10 0100000000000000
op 1 0 0x10 1 0
store 0 060000000300000060000000
store 0x10 0200000000000000
op 1 0 0x10 1 0
vcpu 2
load 0 1
store 0x20 09000000020000000500000001000000
store 0x30 00010000000000001000000000000000
op 3 0x20 0x30 1 7
vcpu 3
load 0 1
store 0x20 09000000030000000600000001000000
store 0x30 00010000000000001000000000000000
op 3 0x20 0x30 1 7
";

const FIRST_RING: RingId = RingId {
    owner: DomId(1),
    port: 5,
    partner: DomId(2),
};

// The line at which both rings are registered, and that of a sender's answer.
const REGISTERED: u32 = 6;

const ANSWERED: u32 = 4;

// A wait ends after so many turns, whatever comes.
const MOST_TURNS: u32 = 10_000_000;

/// How the waits of a run ended.
#[derive(Drop)]
struct Meeting {
    registered: AtomicU64,
    answered: AtomicU64,
    met: AtomicU64,
    missed: AtomicU64,
}

impl Meeting {
    fn new() -> Meeting {
        Meeting {
            registered: AtomicU64::new(0),
            answered: AtomicU64::new(0),
            met: AtomicU64::new(0),
            missed: AtomicU64::new(0),
        }
    }

    // Waits until it came, but no longer than the turns last.
    fn wait_for(&self, came: &AtomicU64) {
        for _ in 0..MOST_TURNS {
            if came.load(Ordering::SeqCst) != 0 {
                self.met.fetch_add(1, Ordering::SeqCst);
                return;
            }
            thread::yield_now();
        }
        self.missed.fetch_add(1, Ordering::SeqCst);
    }
}

impl Pause for &Meeting {
    fn here(&self, id: RingId) {
        if id == FIRST_RING {
            self.wait_for(&self.answered);
        }
    }

    fn replied(&self, v: u32, line: u32) {
        match (v, line) {
            (0, REGISTERED) => self.registered.store(1, Ordering::SeqCst),
            (1 | 2, 1) => self.wait_for(&self.registered),
            (2, ANSWERED) => self.answered.store(1, Ordering::SeqCst),
            _ => {}
        }
    }
}

#[test]
fn a_sender_is_answered_while_another_is_inside_a_rings_lock(rt: HostRuntime) -> Result<(), Fail> {
    let alloc = rt.alloc();
    let Ok(scripts) = read_scripts(alloc, TWO_RINGS) else {
        return Err(NoMemory.into());
    };
    let meeting = Meeting::new();
    let closed = run_threads_with(&rt, alloc, &scripts, &meeting)?;
    assert_eq!(rt; closed.heard.len(), 3);
    assert_eq!(rt; meeting.met.load(Ordering::SeqCst), 3);
    assert_eq!(rt; meeting.missed.load(Ordering::SeqCst), 0);
    Ok(())
}
