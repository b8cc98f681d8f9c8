use crate::{WriteFault, reply_text, write_report, write_summary};
use argo_base::{Bytes, DomId, Items, Message, NoMemory, RingKey};
use argo_model::{DoneLine, Final, FinalDomain, FinalRing, NoticeLine, Reply, Run, Totals};
use argo_outside::{CallList, MemSink};
use std::alloc::Global;
use std::test::Fail;

const SECOND_BODY: &str = "argo report 1
schedule 0*5 1*11
reply 1 4 16
reply 1 5 -11
domain 1 alive flag
ring 1 5 2 len 48 tx 32 clean
message 2 9 7 16
notice 2 16
slots 0 20000000090000000200000007000000000102030405060708090a0b0c0d0e0f
domain 2 alive clear
vcpu 0 steps 5 accepted 0 bytes 0
vcpu 1 steps 11 accepted 1 bytes 16
end
";

const SUMMARY: &str = "argo summary 1
vcpu 0 steps 5 accepted 0 bytes 0
vcpu 1 steps 11 accepted 1 bytes 16
end
";

const MIXED: &str = "argo report 2
schedule
domain 1 gen 3 gone clear
domain 2 gen 1 off flag
ring 2 4294967295 any len 48 tx 0 dirty
notice 1 4294967295
slots 32 00000000000000ff
end
";

fn full_slots(alloc: Global) -> Result<Bytes, NoMemory> {
    let mut slots = Bytes::copy_of(alloc, b"\x20\0\0\0\x09\0\0\0\x02\0\0\0\x07\0\0\0")?;
    for byte in 0..16u8 {
        slots.push(byte)?;
    }
    slots.append(&[0; 16])?;
    Ok(slots)
}

fn message(alloc: Global) -> Result<Message, NoMemory> {
    Ok(Message {
        src: DomId(2),
        port: 9,
        kind: 7,
        body: Bytes::copy_of(alloc, b"0123456789abcdef")?,
    })
}

fn full_ring(alloc: Global) -> Result<FinalRing, NoMemory> {
    let notice = NoticeLine {
        dom: DomId(2),
        size: 16,
    };
    Ok(FinalRing {
        key: RingKey {
            port: 5,
            partner: DomId(2),
        },
        len: 48,
        tx: 32,
        clean: true,
        untaken: Items::from_vec(vec![in alloc; message(alloc)?]?),
        notices: Items::from_vec(vec![in alloc; notice]?),
        slots: full_slots(alloc)?,
    })
}

fn dirty_ring(alloc: Global) -> Result<FinalRing, NoMemory> {
    let notice = NoticeLine {
        dom: DomId(1),
        size: u32::MAX,
    };
    let mut slots = Bytes::copy_of(alloc, &[0; 39])?;
    slots.push(0xff)?;
    Ok(FinalRing {
        key: RingKey {
            port: u32::MAX,
            partner: DomId::ANY,
        },
        len: 48,
        tx: 0,
        clean: false,
        untaken: Items::from_vec(vec![in alloc; message(alloc)?]?),
        notices: Items::from_vec(vec![in alloc; notice]?),
        slots,
    })
}

fn second_body(alloc: Global) -> Result<Final, NoMemory> {
    let accepted = DoneLine {
        vcpu: 1,
        line: 4,
        reply: Reply::Number(16),
    };
    let noted = DoneLine {
        vcpu: 1,
        line: 5,
        reply: Reply::Number(-11),
    };
    let receiver = FinalDomain {
        id: DomId(1),
        on: true,
        alive: true,
        generation: 1,
        flag: true,
        rings: Items::from_vec(vec![in alloc; full_ring(alloc)?]?),
    };
    let sender = FinalDomain {
        id: DomId(2),
        on: true,
        alive: true,
        generation: 1,
        flag: false,
        rings: Items::new(alloc),
    };
    let runs = [Run { vcpu: 0, count: 5 }, Run { vcpu: 1, count: 11 }];
    let totals = [
        Totals {
            steps: 5,
            accepted: 0,
            bytes: 0,
        },
        Totals {
            steps: 11,
            accepted: 1,
            bytes: 16,
        },
    ];
    Ok(Final {
        version: 1,
        runs: Items::copy_of(alloc, &runs)?,
        done: Items::from_vec(vec![in alloc; accepted, noted]?),
        domains: Items::from_vec(vec![in alloc; receiver, sender]?),
        totals: Items::copy_of(alloc, &totals)?,
    })
}

fn mixed(alloc: Global) -> Result<Final, NoMemory> {
    let gone = FinalDomain {
        id: DomId(1),
        on: false,
        alive: false,
        generation: 3,
        flag: false,
        rings: Items::new(alloc),
    };
    let off = FinalDomain {
        id: DomId(2),
        on: false,
        alive: true,
        generation: 1,
        flag: true,
        rings: Items::from_vec(vec![in alloc; dirty_ring(alloc)?]?),
    };
    Ok(Final {
        version: 2,
        runs: Items::new(alloc),
        done: Items::new(alloc),
        domains: Items::from_vec(vec![in alloc; gone, off]?),
        totals: Items::new(alloc),
    })
}

fn sink(alloc: Global, fails: &[u64]) -> Result<MemSink, NoMemory> {
    MemSink::new(alloc, 4096, 1000, CallList::copy_of(alloc, fails)?)
}

#[test]
fn reports_and_summaries_are_written_whole(rt: HostRuntime) -> Result<(), Fail> {
    let alloc = rt.alloc();
    for (f, want) in [(second_body(alloc)?, SECOND_BODY), (mixed(alloc)?, MIXED)] {
        let mut out = sink(alloc, &[])?;
        write_report(alloc, &mut out, &f)?;
        assert_eq!(rt; out.as_slice(), want.as_bytes());
    }
    let mut out = sink(alloc, &[])?;
    write_summary(alloc, &mut out, &second_body(alloc)?)?;
    assert_eq!(rt; out.as_slice(), SUMMARY.as_bytes());
    Ok(())
}

#[test]
fn a_sink_that_fails_at_its_third_write_has_two_lines(rt: HostRuntime) -> Result<(), Fail> {
    let alloc = rt.alloc();
    let mut out = sink(alloc, &[3])?;
    let wrote = write_report(alloc, &mut out, &second_body(alloc)?);
    assert_eq!(rt; wrote, Err(WriteFault::Sink));
    assert_eq!(rt;
        out.as_slice(),
        b"argo report 1\nschedule 0*5 1*11\n".as_slice()
    );
    assert_eq!(rt; (out.calls, out.faults), (3, 1));

    let mut out = sink(alloc, &[3])?;
    let wrote = write_summary(alloc, &mut out, &second_body(alloc)?);
    assert_eq!(rt; wrote, Err(WriteFault::Sink));
    assert_eq!(rt;
        out.as_slice(),
        b"argo summary 1\nvcpu 0 steps 5 accepted 0 bytes 0\n".as_slice()
    );
    Ok(())
}

#[test]
fn each_reply_has_its_text(rt: HostRuntime) -> Result<(), Fail> {
    let alloc = rt.alloc();
    let replies = vec![in alloc;
        (Reply::Stored, "ok"),
        (
            Reply::Hex(Bytes::copy_of(alloc, b"\x00\x9a\xff")?),
            "009aff"
        ),
        (Reply::Number(i64::MIN), "-9223372036854775808"),
        (Reply::Number(0), "0"),
        (Reply::Signal, "signal"),
        (Reply::NoSignal, "none"),
        (received(alloc, b"ping")?, "msg 1 5 1 4 70696e67"),
        (received(alloc, b"")?, "msg 1 5 1 4 -"),
        (Reply::Empty, "empty"),
        (Reply::Bad, "bad"),
        (Reply::Fault, "fault"),
        (Reply::Gone, "gone"),
    ]?;
    for (reply, want) in &replies {
        assert_eq!(rt; reply_text(alloc, reply)?.as_slice(), want.as_bytes());
    }
    Ok(())
}

fn received(alloc: Global, head: &[u8]) -> Result<Reply, NoMemory> {
    Ok(Reply::Msg {
        src: DomId(1),
        port: 5,
        kind: 1,
        size: 4,
        head: Bytes::copy_of(alloc, head)?,
    })
}
