//! Pages that are lent and come back with their bytes, and pages that were never written.
use crate::{LendFault, Private};
use argo_base::Bytes;
use std::test::Fail;

#[test]
fn pages_are_lent_where_there_is_memory(rt: HostRuntime) -> Result<(), Fail> {
    let mut private = Private::new(rt.alloc(), 3)?;
    assert!(rt; private.write(2, 4, b"ab")?);
    let row = private.lend([2, 0].as_slice())?;
    assert!(rt; private.read(2, 4, 2)?.is_none());
    match private.exchange(row, [2, 1].as_slice()) {
        Ok(row) => private.give_back(row),
        Err((_, fault)) => return Err(Fail::from(fault)),
    }
    let found = private.read(2, 4, 2)?.unwrap_or(Bytes::new(rt.alloc()));
    assert_eq!(rt; found.as_slice(), b"ab".as_slice());
    assert!(rt;
        private
            .lend([1, 1].as_slice())
            .is_err_and(|fault| fault == LendFault::Pages)
    );
    Ok(())
}

#[test]
fn a_domain_of_many_pages_answers_a_read_of_each(rt: HostRuntime) -> Result<(), Fail> {
    let mut private = Private::new(rt.alloc(), 4608)?;
    assert!(rt; private.write(7, 0, b"a")?);
    for page in 0..4608u64 {
        let found = private.read(page, 0, 1)?.unwrap_or(Bytes::new(rt.alloc()));
        let expected = if page == 7 { b"a" } else { b"\0" };
        assert_eq!(rt; found.as_slice(), expected.as_slice());
    }
    Ok(())
}
