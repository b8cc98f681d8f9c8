//! Verdicts, and ranges at the ends of pages and of addresses.

use crate::{count, pieces};
use argo_abi::Iov;
use argo_base::{Errno, Piece};
use std::test::Fail;

const LONGEST: u32 = 0xFFFFE0;

fn iov(len: u32, pad: u32) -> Iov {
    Iov {
        hnd: 0x1000,
        len,
        pad,
    }
}

#[test]
fn the_first_buffer_that_is_not_passed_is_the_verdict(rt: HostRuntime) -> Result<(), Fail> {
    assert_eq!(rt; count(&[]), Ok(0));
    assert_eq!(rt; count(&[iov(5, 0), iov(0, 0), iov(7, 0)]), Ok(12));
    assert_eq!(rt; count(&[iov(LONGEST, 0)]), Ok(LONGEST));
    assert_eq!(rt; count(&[iov(LONGEST + 1, 0)]), Err(Errno::Inval));
    assert_eq!(rt; count(&[iov(LONGEST, 0), iov(1, 0)]), Err(Errno::MsgSize));
    assert_eq!(rt; count(&[iov(LONGEST, 0), iov(1, 1)]), Err(Errno::Inval));
    assert_eq!(rt;
        count(&[iov(LONGEST, 0), iov(1, 0), iov(0, 1)]),
        Err(Errno::MsgSize)
    );
    Ok(())
}

#[test]
fn a_range_is_cut_at_the_ends_of_its_pages(rt: HostRuntime) -> Result<(), Fail> {
    let piece = |page, off, n| Piece { page, off, n };
    let end = 1 << 52;
    for (at, n, want) in [
        (0, 0, [].as_slice()),
        (4095, 1, [piece(0, 4095, 1)].as_slice()),
        (4096, 4096, [piece(1, 0, 4096)].as_slice()),
        (
            4090,
            4110,
            [piece(0, 4090, 6), piece(1, 0, 4096), piece(2, 0, 8)].as_slice(),
        ),
        (
            (1 << 64) - 1,
            2,
            [piece(end - 1, 4095, 1), piece(end, 0, 1)].as_slice(),
        ),
    ] {
        let mut left = pieces(at, n);
        for part in want {
            assert_eq!(rt; left.first(), Some(*part), "{n} bytes at {at}");
            assert_eq!(rt; left.next(), Some(*part), "{n} bytes at {at}");
        }
        assert_eq!(rt; left.next(), None, "{n} bytes at {at}");
    }
    Ok(())
}
