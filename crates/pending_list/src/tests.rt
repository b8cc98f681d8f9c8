//! Notices at their limit.
use crate::{Note, Notices};
use argo_base::DomId;
use std::test::Fail;

#[test]
fn thirty_two_stand_and_the_next_is_busy(rt: HostRuntime) -> Result<(), Fail> {
    let mut notices = Notices::new();
    for dom in 0..32 {
        assert_eq!(rt; notices.note(DomId(31 - dom), 100), Note::Noted);
    }
    assert_eq!(rt; notices.note(DomId(32), 100), Note::Busy);
    assert_eq!(rt; notices.len(), 32);
    assert_eq!(rt; notices.note(DomId(5), 200), Note::Noted);
    assert_eq!(rt; notices.note(DomId(5), 7), Note::Noted);
    assert_eq!(rt; notices.size(DomId(5)), Some(200));
    assert_eq!(rt; notices.size(DomId(32)), None);
    assert!(rt; notices.withdraw(DomId(7)));
    assert!(rt; !notices.forget(DomId(7)));
    assert_eq!(rt; notices.note(DomId(32), 40), Note::Noted);
    Ok(())
}

#[test]
fn notices_that_fit_end_by_rising_domain(rt: HostRuntime) -> Result<(), Fail> {
    // The sizes of domains 9, 3, 7 and 5, and what each takes of a ring: 64, 80, 64 and 48 bytes.
    let mut notices = Notices::new();
    for (dom, size) in [(9, 48), (3, 49), (7, 33), (5, 17)] {
        notices.note(DomId(dom), size);
    }
    let mut fitting = notices.take_fitting(64);
    assert_eq!(rt; fitting.as_slice(), [DomId(5)].as_slice());
    fitting = notices.take_fitting(65);
    assert_eq!(rt; fitting.as_slice(), [DomId(7), DomId(9)].as_slice());
    let kept = notices.take_too_big(96);
    assert_eq!(rt; kept.len(), 0);
    let too_big = notices.take_too_big(80);
    assert_eq!(rt; too_big.as_slice(), [DomId(3)].as_slice());
    assert!(rt; notices.is_empty());
    Ok(())
}
