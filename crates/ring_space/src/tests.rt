//! The two copies against a plain loop, over the greatest ring.
use crate::{page_count, read_run, write_run};
use argo_base::slots::is_place;
use guest_pages::{PageRow, Private};
use std::alloc::{AllocError, Global};
use std::process::Abort;
use std::test::Fail;

const LEN: u32 = 0x1000000;

fn greatest_ring(alloc: Global) -> Result<PageRow, Fail> {
    let mut private = Private::new(alloc, page_count(LEN))?;
    let numbers: Vec<u64> = (0..page_count(LEN) as u64).collect(alloc)?;
    Ok(private.lend(numbers.as_slice())?)
}

fn pattern(alloc: Global, at: u32, n: usize) -> Result<Vec<u8>, AllocError> {
    let mut bytes = Vec::new(alloc);
    for i in 0..n {
        bytes.push((i % 251) as u8 ^ (at % 241) as u8)?;
    }
    Ok(bytes)
}

fn write_one_by_one(plain: &mut [u8], at: u32, bytes: &[u8]) {
    for (i, b) in bytes.iter().enumerate() {
        if let Some(x) = plain.get_mut((at as usize).wrapping_add(i) % LEN as usize) {
            *x = *b;
        }
    }
}

fn write_both(
    rt: &impl Abort,
    alloc: Global,
    row: &mut PageRow,
    plain: &mut [u8],
    at: u32,
    n: usize,
) -> Result<(), Fail> {
    let bytes = pattern(alloc, at, n)?;
    let mut back = pattern(alloc, 0, n)?;
    assert!(rt; is_place(LEN, at));
    assert_eq!(rt; row.count(), page_count(LEN) as usize);
    assert!(rt; bytes.len() <= LEN as usize);
    assert_eq!(rt; back.len(), bytes.len());
    write_run(row, LEN, at, bytes.as_slice());
    write_one_by_one(plain, at, bytes.as_slice());
    assert_eq!(rt; row.count(), page_count(LEN) as usize);
    read_run(row, LEN, at, back.as_mut_slice());
    assert!(rt; back.as_slice() == bytes.as_slice(), "{n} bytes at {at}");
    Ok(())
}

fn write_each(
    rt: &impl Abort,
    alloc: Global,
    row: &mut PageRow,
    plain: &mut [u8],
    at: u32,
) -> Result<(), Fail> {
    for n in [0, 1, 16, 17, 4096, 8192] {
        write_both(rt, alloc, row, plain, at, n)?;
    }
    Ok(())
}

#[test]
fn copies_are_those_of_a_plain_loop(rt: HostRuntime) -> Result<(), Fail> {
    let alloc = rt.alloc();
    let mut row = greatest_ring(alloc)?;
    let mut plain = vec![in alloc; 0u8; LEN as usize]?;
    for at in [0, 16, 4032, 16777200] {
        write_each(&rt, alloc, &mut row, plain.as_mut_slice(), at)?;
    }
    let mut all = vec![in alloc; 1u8; LEN as usize]?;
    assert_eq!(rt; row.count(), page_count(LEN) as usize);
    read_run(&row, LEN, 0, all.as_mut_slice());
    assert!(rt; all.as_slice() == plain.as_slice());
    assert!(rt; row.page(0).iter().take(64).all(|b| *b == 0));
    assert!(rt; row.page(4096).iter().skip(64).all(|b| *b == 0));
    Ok(())
}
