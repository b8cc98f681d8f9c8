//! Each call that takes memory, once where there is some.
use crate::{Bytes, DomId, DomList, MOST_NOTICES, Message, MessageList, NoMemory};
use std::test::Fail;

#[test]
fn a_list_grows_where_there_is_memory(rt: HostRuntime) -> Result<(), Fail> {
    let mut bytes = Bytes::copy_of(rt.alloc(), b"ab")?;
    bytes.push(b'c')?;
    bytes.append(b"de")?;
    assert_eq!(rt; bytes.as_slice(), b"abcde".as_slice());
    Ok(())
}

// A ping of that type.
fn message(rt: &HostRuntime, kind: u32) -> Result<Message, NoMemory> {
    Ok(Message {
        src: DomId(1),
        port: 5,
        kind,
        body: Bytes::copy_of(rt.alloc(), b"ping")?,
    })
}

#[test]
fn reserved_room_takes_a_message(rt: HostRuntime) -> Result<(), Fail> {
    let mut list = MessageList::new(rt.alloc());
    for kind in 0..3 {
        list.reserve()?;
        list.push_reserved(message(&rt, kind)?);
    }
    list.push(message(&rt, 3)?)?;
    assert_eq!(rt; list.len(), 4);
    list.drop_first(1);
    let left = list.into_messages();
    assert_eq!(rt; left.len(), 3);
    assert_eq!(rt; left.get(0).kind, 1);
    assert_eq!(rt; left.get(2).kind, 3);
    Ok(())
}

#[test]
fn a_list_of_domains_holds_32(rt: HostRuntime) -> Result<(), Fail> {
    let mut doms = DomList::new();
    for dom in 0..32 {
        if doms.len() < MOST_NOTICES {
            doms.push(DomId(dom));
        }
    }
    assert_eq!(rt; doms.len(), 32);
    assert_eq!(rt; doms.get(31), DomId(31));
    Ok(())
}
