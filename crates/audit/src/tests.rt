use crate::Split;
use crate::sides::{Side, sides_differ};
use argo_base::{Bytes, DomId, Items, Message, NoMemory, PageList, RingKey};
use argo_model::{
    ClosedDomain, ClosedDomains, ClosedRing, ClosedRings, Heard, HeardLine, HeardLines, NoticeLine,
    Reply, Short, TotalList, Totals,
};
use std::alloc::Global;
use std::test::Fail;

// What a side has at the end.
#[derive(Drop)]
struct World {
    heard: Heard,
    domains: ClosedDomains,
    totals: TotalList,
}

// Two of the parts that are compared, by their numbers, which are turned in a world.
#[derive(Clone, Copy)]
struct Turned(u8, u8);

impl Turned {
    fn has(self, tag: u8) -> bool {
        self.0 == tag || self.1 == tag
    }

    fn number(self, tag: u8, turned: u64, usual: u64) -> u64 {
        if self.has(tag) { turned } else { usual }
    }
}

fn heard_with(alloc: Global, t: Turned) -> Result<Heard, NoMemory> {
    let mut lines = HeardLines::new(alloc);
    lines.push(HeardLine {
        reply: Reply::Number(if t.has(20) { 5 } else { 4 }),
        step: t.number(21, 2, 1),
    })?;
    let mut heard = Heard::new(alloc);
    heard.push(lines)?;
    Ok(heard)
}

fn ring_with(alloc: Global, t: Turned) -> Result<ClosedRing, NoMemory> {
    let message = Message {
        src: DomId(2),
        port: 9,
        kind: if t.has(29) { 8 } else { 7 },
        body: Bytes::copy_of(alloc, b"0123456789abcdef")?,
    };
    let notice = NoticeLine {
        dom: DomId(2),
        size: if t.has(30) { 24 } else { 16 },
    };
    let mut untaken = Items::new(alloc);
    untaken.push(message)?;
    let mut notices = Items::new(alloc);
    notices.push(notice)?;
    let mut pages = PageList::new(alloc);
    pages.push(t.number(31, 4, 3))?;
    Ok(ClosedRing {
        key: RingKey {
            port: 5,
            partner: DomId(2),
        },
        serial: t.number(25, 2, 1),
        len: if t.has(26) { 64 } else { 48 },
        tx: if t.has(27) { 0 } else { 32 },
        clean: !t.has(28),
        untaken,
        notices,
        pages,
    })
}

fn domain_with(alloc: Global, t: Turned) -> Result<ClosedDomain, NoMemory> {
    let mut rings = ClosedRings::new(alloc);
    if !t.has(24) {
        rings.push(ring_with(alloc, t)?)?;
    }
    let mut pages = Bytes::copy_of(alloc, &[0; 16])?;
    pages.push(if t.has(32) { 9 } else { 0 })?;
    Ok(ClosedDomain {
        id: DomId(1),
        alive: !t.has(22),
        generation: if t.has(34) { 2 } else { 1 },
        flag: t.has(23),
        pages,
        rings,
    })
}

fn world_with(alloc: Global, t: Turned) -> Result<World, NoMemory> {
    let mut domains = ClosedDomains::new(alloc);
    domains.push(domain_with(alloc, t)?)?;
    let mut totals = TotalList::new(alloc);
    totals.push(Totals {
        steps: t.number(33, 6, 5),
        accepted: 1,
        bytes: 16,
    })?;
    Ok(World {
        heard: heard_with(alloc, t)?,
        domains,
        totals,
    })
}

fn difference(alloc: Global, t: Turned) -> Result<Option<Split>, NoMemory> {
    let threads = world_with(alloc, t)?;
    let machine = world_with(alloc, Turned(0, 0))?;
    let threads = Side {
        heard: threads.heard.as_slice(),
        domains: threads.domains.as_slice(),
        totals: threads.totals.as_slice(),
    };
    let machine = Side {
        heard: machine.heard.as_slice(),
        domains: machine.domains.as_slice(),
        totals: machine.totals.as_slice(),
    };
    sides_differ(alloc, 17, &threads, &machine)
}

fn split_of(tag: u8, threads: u64, machine: u64) -> Split {
    Split {
        step: 17,
        threads: Short {
            tag,
            value: threads,
        },
        machine: Short {
            tag,
            value: machine,
        },
    }
}

#[test]
fn each_part_of_a_closed_world_is_compared_and_the_first_counts(
    rt: HostRuntime,
) -> Result<(), Fail> {
    let same = difference(rt.alloc(), Turned(0, 0))?;
    assert!(rt; same.is_none());
    for (tag, threads, machine) in [
        (20u8, 53u64, 52u64),
        (21, 2, 1),
        (22, 0, 1),
        (23, 1, 0),
        (24, 0, 1),
        (25, 2, 1),
        (26, 64, 48),
        (27, 0, 32),
        (28, 0, 1),
        (29, 8, 7),
        (30, 25, 17),
        (31, 4, 3),
        (32, 9, 0),
        (33, 6, 5),
        (34, 2, 1),
    ] {
        let found = difference(rt.alloc(), Turned(34, tag))?;
        assert_eq!(rt; found, Some(split_of(tag, threads, machine)));
    }
    Ok(())
}
