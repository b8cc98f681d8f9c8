//! Each field at its place, in bytes that count up.

use crate::{
    Addr, Iov, MessageHead, RegisterRing, RingData, RingDataEntry, RingHead, SendAddr,
    UnregisterRing, get_addr, get_iov, get_message_head, get_register_ring, get_ring_data,
    get_ring_data_entry, get_ring_head, get_send_addr, get_unregister_ring, put_addr, put_iov,
    put_message_head, put_register_ring, put_ring_data, put_ring_data_entry, put_ring_head,
    put_send_addr, put_unregister_ring,
};
use std::test::Fail;

// The bytes 1, 2, 3 and so on.
fn counted<const N: usize>() -> [u8; N] {
    let mut bytes = [0; N];
    let mut last = 0u8;
    for byte in bytes.iter_mut() {
        last = last.wrapping_add(1);
        *byte = last;
    }
    bytes
}

const FIRST: Addr = Addr {
    aport: 0x04030201,
    domain_id: 0x0605,
    pad: 0x0807,
};

#[test]
fn each_field_has_its_place(rt: HostRuntime) -> Result<(), Fail> {
    assert_eq!(rt; get_addr(&counted()), FIRST);
    assert_eq!(rt; put_addr(&FIRST), counted::<8>());

    let dst = Addr {
        aport: 0x0C0B0A09,
        domain_id: 0x0E0D,
        pad: 0x100F,
    };
    let send_addr = SendAddr { src: FIRST, dst };
    assert_eq!(rt; get_send_addr(&counted()), send_addr);
    assert_eq!(rt; put_send_addr(&send_addr), counted::<16>());

    let iov = Iov {
        hnd: 0x0807060504030201,
        len: 0x0C0B0A09,
        pad: 0x100F0E0D,
    };
    assert_eq!(rt; get_iov(&counted()), iov);
    assert_eq!(rt; put_iov(&iov), counted::<16>());

    let source = Addr {
        aport: 0x08070605,
        domain_id: 0x0A09,
        pad: 0x0C0B,
    };
    let message_head = MessageHead {
        len: 0x04030201,
        source,
        message_type: 0x100F0E0D,
    };
    assert_eq!(rt; get_message_head(&counted()), message_head);
    assert_eq!(rt; put_message_head(&message_head), counted::<16>());
    Ok(())
}

#[test]
fn each_field_of_a_ring_has_its_place(rt: HostRuntime) -> Result<(), Fail> {
    let register_ring = RegisterRing {
        aport: 0x04030201,
        partner_id: 0x0605,
        pad: 0x0807,
        len: 0x0C0B0A09,
    };
    assert_eq!(rt; get_register_ring(&counted()), register_ring);
    assert_eq!(rt; put_register_ring(&register_ring), counted::<12>());

    let unregister_ring = UnregisterRing {
        aport: 0x04030201,
        partner_id: 0x0605,
        pad: 0x0807,
    };
    assert_eq!(rt; get_unregister_ring(&counted()), unregister_ring);
    assert_eq!(rt; put_unregister_ring(&unregister_ring), counted::<8>());

    let ring_data = RingData {
        nent: 0x04030201,
        pad: 0x08070605,
    };
    assert_eq!(rt; get_ring_data(&counted()), ring_data);
    assert_eq!(rt; put_ring_data(&ring_data), counted::<8>());

    let entry = RingDataEntry {
        ring: FIRST,
        flags: 0x0A09,
        pad: 0x0C0B,
        space_required: 0x100F0E0D,
        max_message_size: 0x14131211,
    };
    assert_eq!(rt; get_ring_data_entry(&counted()), entry);
    assert_eq!(rt; put_ring_data_entry(&entry), counted::<20>());

    let head = get_ring_head(&counted());
    assert_eq!(rt; (head.rx_ptr, head.tx_ptr), (0x04030201, 0x08070605));
    assert_eq!(rt; (head.reserved[0], head.reserved[55]), (9, 64));
    assert_eq!(rt; put_ring_head(&head), counted::<64>());
    Ok(())
}
