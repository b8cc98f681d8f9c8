use crate::{
    CallList, Failed, MemSink, MemSource, StdSink, StdSource, TakeFault, read_up_to, write_whole,
};
use argo_base::Bytes;
use std::io::BufWriter;
use std::test::Fail;

#[test]
fn a_source_is_read_to_its_end_or_to_the_limit(rt: HostRuntime) -> Result<(), Fail> {
    for (most, want, ended) in [
        (0, b"".as_slice(), false),
        (5, b"abcde".as_slice(), false),
        (7, b"abcdefg".as_slice(), false),
        (8, b"abcdefg".as_slice(), true),
        (u64::MAX, b"abcdefg".as_slice(), true),
    ] {
        let bytes = Bytes::copy_of(rt.alloc(), b"abcdefg")?;
        let mut src = MemSource::new(bytes, 3, CallList::new(rt.alloc()));
        let taken = read_up_to(rt.alloc(), &mut src, most)?;
        assert_eq!(rt; taken.bytes.as_slice(), want, "up to {most}");
        assert_eq!(rt; taken.ended, ended, "up to {most}");
    }
    Ok(())
}

#[test]
fn a_source_fails_at_its_second_read(rt: HostRuntime) -> Result<(), Fail> {
    let bytes = Bytes::copy_of(rt.alloc(), b"abcdefg")?;
    let fails = CallList::copy_of(rt.alloc(), &[2])?;
    let mut src = MemSource::new(bytes, 3, fails);
    let failed = read_up_to(rt.alloc(), &mut src, 100);
    assert_eq!(rt; failed.err(), Some(TakeFault::Failed));
    assert_eq!(rt; (src.place, src.calls, src.faults), (3, 2, 1));

    let taken = read_up_to(rt.alloc(), &mut &mut src, 100)?;
    assert_eq!(rt; taken.bytes.as_slice(), b"defg".as_slice());
    Ok(())
}

#[test]
fn a_sink_fails_at_its_third_write(rt: HostRuntime) -> Result<(), Fail> {
    let fails = CallList::copy_of(rt.alloc(), &[3])?;
    let mut out = MemSink::new(rt.alloc(), 100, 2, fails)?;
    assert_eq!(rt; write_whole(&mut out, b"abcdefg"), Err(Failed));
    assert_eq!(rt; out.as_slice(), b"abcd".as_slice());
    assert_eq!(rt; (out.calls, out.faults), (3, 1));

    write_whole(&mut &mut out, b"xyz")?;
    assert_eq!(rt; out.as_slice(), b"abcdxyz".as_slice());
    Ok(())
}

#[test]
fn a_sink_fails_where_room_runs_out(rt: HostRuntime) -> Result<(), Fail> {
    let mut out = MemSink::new(rt.alloc(), 5, 2, CallList::new(rt.alloc()))?;
    assert_eq!(rt; write_whole(&mut out, b"abcdefg"), Err(Failed));
    assert_eq!(rt; out.as_slice(), b"abcd".as_slice());
    write_whole(&mut out, b"e")?;
    assert_eq!(rt; out.as_slice(), b"abcde".as_slice());
    Ok(())
}

#[test]
fn readers_and_writers_of_the_system_are_passed_through(rt: HostRuntime) -> Result<(), Fail> {
    let mut src = StdSource::new(b"abcdefg".as_slice());
    let taken = read_up_to(rt.alloc(), &mut src, 100)?;
    assert_eq!(rt; taken.ended, true);

    let mut out = StdSink::new(Vec::<u8>::new(rt.alloc()));
    write_whole(&mut out, taken.bytes.as_slice())?;
    out.flush()?;
    assert_eq!(rt; out.inner.as_slice(), b"abcdefg".as_slice());
    assert_eq!(rt; (src.faults, out.faults), (0, 0));

    let mut full = [0u8; 3];
    let mut narrow = StdSink::new(full.as_mut_slice());
    assert_eq!(rt; write_whole(&mut narrow, b"abcd"), Err(Failed));
    assert_eq!(rt; narrow.faults, 1);
    Ok(())
}

#[test]
fn what_a_writer_buffers_is_written_by_flush(rt: HostRuntime) -> Result<(), Fail> {
    let buffered = BufWriter::new(rt.alloc(), Vec::<u8>::new(rt.alloc()))?;
    let mut out = StdSink::new(buffered);
    write_whole(&mut out, b"abc")?;
    assert_eq!(rt; out.inner.get_ref().as_slice(), b"".as_slice());
    out.flush()?;
    assert_eq!(rt; out.inner.get_ref().as_slice(), b"abc".as_slice());
    Ok(())
}
