//! Runs in threads: they do what the machine does where the order of the steps matters, and they run side by side.

ghost use Rattle.std.specs.Prelude.{◌≤◌, All};
ghost use Rattle.argo_board.specs.Journal.{last_tag};
ghost use Rattle.audit.specs.Steps.{HasOutcome};

use super::{scripts, source, words_of};
use crate::{run, run_with};
use argo_base::{NoMemory, RingId};
use argo_board::{Entry, FlagChange};
use argo_model::Short;
use argo_outside::{CallList, MemSink};
use audit::{Audited, Split, audit};
use script_text::read_scripts;
use shared_world::{Closed, Pause};
use std::alloc::Global;
use std::sync::atomic::{AtomicU64, Ordering};
use std::test::Fail;
use std::thread;
use thread_run::run_threads_with;

/// How often a virtual CPU that is held up looks whether it may go on.
const MOST_LOOKS: u64 = 10_000_000;

fn large_sink(alloc: Global) -> Result<MemSink, NoMemory> {
    MemSink::new(alloc, 50_000, 50, CallList::new(alloc))
}

fn is_report(text: &[u8]) -> bool {
    text.starts_with(b"argo report 1\nschedule ") && text.ends_with(b"\nend\n")
}

#[test]
fn threads_do_what_the_machine_does(rt: HostRuntime) -> Result<(), Fail> {
    let alloc = rt.alloc();
    let words = words_of(alloc, "threads")?;
    let notices_full = scripts::notices_full(alloc)?;
    for text in [
        scripts::PING_AND_PONG,
        scripts::SECOND_BODY_GETS_A_NOTICE,
        scripts::EXACT_RING_AND_WILDCARD,
        scripts::SWEEP_SIGNALS_WHEN_NOTICE_FITS,
        scripts::DESTROY_ENDS_RINGS_AND_NOTICES,
        scripts::DESTROYED_BETWEEN_GATHER_AND_DELIVERY,
        notices_full.as_bytes(),
    ] {
        for _ in 0..2 {
            let mut src = source(alloc, text, &[])?;
            let mut out = large_sink(alloc)?;
            let status = run(&rt, alloc, &words, &mut src, &mut out);
            assert_eq!(rt; status.number(), 0);
            assert!(rt; is_report(out.as_slice()));
        }
    }
    Ok(())
}

/// Knows how many lines of the sections have their replies, how often a section was held up, and how often in vain.
#[derive(Drop)]
struct Meeting {
    lines: [AtomicU64; 3],
    held: AtomicU64,
    in_vain: AtomicU64,
}

impl Meeting {
    fn new() -> Meeting {
        Meeting {
            lines: [AtomicU64::new(0), AtomicU64::new(0), AtomicU64::new(0)],
            held: AtomicU64::new(0),
            in_vain: AtomicU64::new(0),
        }
    }

    // Section `v` has the reply of this line.
    fn note(&self, v: u32, line: u32) {
        if let Some(lines) = self.lines.get(v as usize) {
            lines.store(u64::from(line), Ordering::SeqCst);
        }
    }

    // The last line of section `v` that has its reply.
    fn last_line(&self, v: usize) -> u64 {
        match self.lines.get(v) {
            Some(line) => line.load(Ordering::SeqCst),
            None => 0,
        }
    }

    // Waits until section `v` has the reply of this line.
    fn hold(&self, v: usize, line: u64) {
        self.held.fetch_add(1, Ordering::SeqCst);
        for _ in 0..MOST_LOOKS {
            if self.last_line(v) >= line {
                return;
            }
            thread::yield_now();
        }
        self.in_vain.fetch_add(1, Ordering::SeqCst);
    }
}

/// Holds the first sender up inside the lock of its ring, until the second one was answered on another ring.
#[derive(Drop)]
struct SendersApart {
    meeting: Meeting,
}

impl Pause for &SendersApart {
    fn here(&self, id: RingId) {
        if id.port == 5 {
            self.meeting.hold(2, 4);
        }
    }

    fn replied(&self, v: u32, line: u32) {
        self.meeting.note(v, line);
        if v > 0 && line == 1 {
            self.meeting.hold(0, 6);
        }
    }
}

#[test]
fn a_sender_is_answered_while_another_is_inside_a_lock(rt: HostRuntime) -> Result<(), Fail> {
    let alloc = rt.alloc();
    let words = words_of(alloc, "threads")?;
    let apart = SendersApart {
        meeting: Meeting::new(),
    };
    let mut src = source(alloc, scripts::SENDERS_APART, &[])?;
    let mut out = large_sink(alloc)?;
    let status = run_with(&rt, alloc, &words, &mut src, &mut out, &apart);
    assert_eq!(rt; status.number(), 0);
    let meeting = &apart.meeting;
    assert_eq!(rt; meeting.held.load(Ordering::SeqCst), 3);
    assert_eq!(rt; meeting.in_vain.load(Ordering::SeqCst), 0);
    Ok(())
}

/// Holds the sender up after its first line, until the ring stands.
#[derive(Drop)]
struct SenderLate {
    meeting: Meeting,
}

impl Pause for &SenderLate {
    fn here(&self, _id: RingId) {}

    fn replied(&self, v: u32, line: u32) {
        self.meeting.note(v, line);
        if v == 1 && line == 1 {
            self.meeting.hold(0, 3);
        }
    }
}

// The world with this outcome in step 12. What a step does to the flags is not compared.
#[tactic(auto, using(crate::proofs::TextLaws::outcomes_after))]
fn with_step_12(closed: Closed, short: Short) -> Closed
    requires outcomes { All HasOutcome closed.entries }
    requires outcome { short.tag ≤ last_tag }
    ensures { All HasOutcome result.entries }
{
    let mut changed = closed;
    if changed.entries.len() < 12 {
        return changed;
    }
    let entry = Entry {
        vcpu: 1,
        short,
        change: FlagChange::Keep,
    };
    changed.entries.set(11, entry);
    changed
}

#[test]
#[tactic(auto, using(crate::proofs::TextLaws::outcomes))]
fn a_changed_step_is_found(rt: HostRuntime) -> Result<(), Fail> {
    let alloc = rt.alloc();
    let Ok(script) = read_scripts(alloc, scripts::SECOND_BODY_GETS_A_NOTICE) else {
        return Err(NoMemory.into());
    };
    let late = SenderLate {
        meeting: Meeting::new(),
    };
    let closed = run_threads_with(&rt, alloc, &script, &late)?;
    assert_eq!(rt; late.meeting.in_vain.load(Ordering::SeqCst), 0);
    assert!(rt; matches!(audit(alloc, &script, &closed)?, Audited::Agreed(_)));

    // The send is accepted in step 12, whenever the sender makes its first step.
    let done = Short { tag: 0, value: 0 };
    let changed = with_step_12(closed, done);
    let found = match audit(alloc, &script, &changed)? {
        Audited::Agreed(_) => None,
        Audited::Split(split) => Some(split),
    };
    let accepted = Short { tag: 4, value: 16 };
    assert_eq!(rt;
        found,
        Some(Split {
            step: 12,
            threads: done,
            machine: accepted
        })
    );
    Ok(())
}
