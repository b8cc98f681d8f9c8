//! What no contract says: that the calls do not always answer that memory ran out, and what comes of words, sources and sinks.

mod scripts;
mod threads;

use crate::{Status, end_of, run, run_gen, run_serial};
use argo_base::{Bytes, NoMemory};
use argo_outside::{CallList, MemSink, MemSource, Sink, StdSink};
use script_text::ScriptKind;
use std::alloc::{AllocError, Global};
use std::io::BufWriter;
use std::test::Fail;

const ACROSS_PAGES: &[u8] = b"argo 1
domain 1 pages 2
vcpu 1
store 0xffc 0102030405060708
load 0xffc 8
store 0x1ffc 0102030405060708
load 0x1ffc 4
load 0x2000 1
";

const ACROSS_PAGES_REPORT: &[u8] = b"argo report 1
schedule 0*8
reply 0 1 ok
reply 0 2 0102030405060708
reply 0 3 fault
reply 0 4 01020304
reply 0 5 fault
domain 1 alive clear
vcpu 0 steps 8 accepted 0 bytes 0
end
";

const SUMMARY_OF_ONE: &[u8] = b"argo summary 1
vcpu 0 steps 2520 accepted 182 bytes 86967
vcpu 1 steps 2611 accepted 188 bytes 93992
vcpu 2 steps 2588 accepted 189 bytes 95979
vcpu 3 steps 2563 accepted 178 bytes 88881
vcpu 4 steps 2573 accepted 188 bytes 98082
vcpu 5 steps 2528 accepted 180 bytes 88975
vcpu 6 steps 2599 accepted 183 bytes 92568
vcpu 7 steps 2581 accepted 185 bytes 85314
end
";

const USAGE: &[u8] = b"usage: argo_run threads | serial N | gen N\n";

fn source(alloc: Global, text: &[u8], fails: &[u64]) -> Result<MemSource, NoMemory> {
    let bytes = Bytes::copy_of(alloc, text)?;
    Ok(MemSource::new(bytes, 50, CallList::copy_of(alloc, fails)?))
}

fn sink(alloc: Global, fails: &[u64]) -> Result<MemSink, NoMemory> {
    MemSink::new(alloc, 1000, 50, CallList::copy_of(alloc, fails)?)
}

// The words of a text between its blanks.
fn words_of(alloc: Global, text: &str) -> Result<Vec<String>, AllocError> {
    let mut words = Vec::new(alloc);
    for word in text.split_whitespace() {
        words.push(String::from_str(alloc, word)?)?;
    }
    Ok(words)
}

#[test]
fn a_script_is_served_by_its_report(rt: HostRuntime) -> Result<(), Fail> {
    let mut src = source(rt.alloc(), ACROSS_PAGES, &[])?;
    let mut out = sink(rt.alloc(), &[])?;
    let status = run_serial(rt.alloc(), 0, &mut src, &mut out);
    assert_eq!(rt; status.number(), 0);
    assert_eq!(rt; out.as_slice(), ACROSS_PAGES_REPORT);
    Ok(())
}

#[test]
fn a_source_fails_and_nothing_is_written(rt: HostRuntime) -> Result<(), Fail> {
    let mut src = source(rt.alloc(), ACROSS_PAGES, &[2])?;
    let mut out = sink(rt.alloc(), &[])?;
    let status = run_serial(rt.alloc(), 0, &mut src, &mut out);
    assert_eq!(rt; status.number(), 3);
    assert_eq!(rt; (src.calls, src.faults, out.calls), (2, 1, 0));
    Ok(())
}

#[test]
fn a_sink_fails_and_the_report_is_cut_short(rt: HostRuntime) -> Result<(), Fail> {
    let mut src = source(rt.alloc(), ACROSS_PAGES, &[])?;
    let mut out = sink(rt.alloc(), &[3])?;
    let status = run_serial(rt.alloc(), 0, &mut src, &mut out);
    assert_eq!(rt; status.number(), 4);
    assert_eq!(rt; out.as_slice(), b"argo report 1\nschedule 0*8\n".as_slice());
    assert_eq!(rt; (out.calls, out.faults), (3, 1));
    Ok(())
}

#[test]
fn no_script_is_told_by_its_line(rt: HostRuntime) -> Result<(), Fail> {
    let mut src = source(rt.alloc(), b"argo 1\n\tdomain 1 pages 1\nvcpu x\n", &[])?;
    let mut out = sink(rt.alloc(), &[])?;
    let status = run_serial(rt.alloc(), 0, &mut src, &mut out);
    assert_eq!(rt; status.number(), 5);
    assert!(rt;
        matches!(
            status,
            Status::Script {
                line: 3,
                kind: ScriptKind::Number
            }
        )
    );
    assert_eq!(rt; out.as_slice(), b"script line 3: number\n".as_slice());
    Ok(())
}

#[test]
fn wrong_words_are_answered_by_the_usage(rt: HostRuntime) -> Result<(), Fail> {
    for text in [
        "",
        "serial",
        "threads 1",
        "Threads",
        "serial +1",
        "serial 18446744073709551616",
        "serial 000000000000000000001",
        "serial 1 2",
        "gen",
        "gen x",
        "Gen 1",
        "gen 1 2",
    ] {
        let words = words_of(rt.alloc(), text)?;
        let mut src = source(rt.alloc(), ACROSS_PAGES, &[])?;
        let mut out = sink(rt.alloc(), &[])?;
        let status = run(&rt, rt.alloc(), &words, &mut src, &mut out);
        assert_eq!(rt; status.number(), 2, "at {text}");
        assert_eq!(rt; out.as_slice(), USAGE, "at {text}");
        assert_eq!(rt; src.calls, 0, "at {text}");
    }
    Ok(())
}

#[test]
fn the_words_of_a_seed_are_served(rt: HostRuntime) -> Result<(), Fail> {
    for text in [
        "serial 0",
        "threads",
        "serial 007",
        "serial 18446744073709551615",
    ] {
        let words = words_of(rt.alloc(), text)?;
        let mut src = source(rt.alloc(), ACROSS_PAGES, &[])?;
        let mut out = sink(rt.alloc(), &[])?;
        let status = run(&rt, rt.alloc(), &words, &mut src, &mut out);
        assert_eq!(rt; status.number(), 0, "at {text}");
        assert_eq!(rt; out.as_slice(), ACROSS_PAGES_REPORT, "at {text}");
    }
    Ok(())
}

#[test]
fn a_number_is_served_by_a_summary_and_nothing_is_read(rt: HostRuntime) -> Result<(), Fail> {
    let words = words_of(rt.alloc(), "gen 01")?;
    let mut src = source(rt.alloc(), ACROSS_PAGES, &[])?;
    let mut out = sink(rt.alloc(), &[])?;
    let status = run(&rt, rt.alloc(), &words, &mut src, &mut out);
    assert_eq!(rt; (status.number(), src.calls), (0, 0));
    assert_eq!(rt; out.as_slice(), SUMMARY_OF_ONE);
    Ok(())
}

#[test]
fn a_sink_fails_and_the_summary_is_cut_short(rt: HostRuntime) -> Result<(), Fail> {
    let mut out = sink(rt.alloc(), &[2])?;
    let status = run_gen(rt.alloc(), 1, &mut out);
    assert_eq!(rt; status.number(), 4);
    assert_eq!(rt; out.as_slice(), b"argo summary 1\n".as_slice());
    Ok(())
}

#[test]
fn a_flush_that_fails_is_the_end(rt: HostRuntime) -> Result<(), Fail> {
    let mut narrow = [0u8; 3];
    let writer = BufWriter::new(rt.alloc(), narrow.as_mut_slice())?;
    let mut out = StdSink::new(writer);
    assert_eq!(rt; out.write(b"argo"), Ok(4));
    assert_eq!(rt; end_of(Status::Done, &mut out).number(), 4);
    assert_eq!(rt; out.faults, 1);

    let mut out = StdSink::new(Vec::<u8>::new(rt.alloc()));
    assert_eq!(rt; end_of(Status::Usage, &mut out).number(), 2);
    Ok(())
}

#[test]
fn want_of_memory_has_its_number(rt: HostRuntime) {
    assert_eq!(rt; Status::NoMemory.number(), 7);
}
