//! The table at its limit, and the count of the rows that are reached.
ghost use Rattle.std.specs.Prelude.{◌≡◌};
ghost use Rattle.argo_base.specs.Match.{key_of};

use crate::{InsertFault, Steps, Table};
use argo_base::{DomId, RingKey};
use std::marker::Brand;
use std::sync::ledger::{Blank, Ledger};
use std::test::Fail;

#[test]
fn the_129th_row_comes_back_and_the_exact_ring_is_met(rt: HostRuntime) -> Result<(), Fail> {
    let mut table = Table::new(rt.alloc());
    assert!(rt; table.find(7, DomId(3)).is_none());
    assert_eq!(rt; put(&mut table, 7, DomId::ANY.0, 1, 10), None);
    assert_eq!(rt; put(&mut table, 7, 3, 2, 20), None);
    for port in 100..226 {
        assert_eq!(rt; put(&mut table, port, 3, 1000 - (port as u64), 0), None);
    }
    assert_eq!(rt; put(&mut table, 99, 3, 3, 30), Some(30));
    assert_eq!(rt; table.count(), 128);
    assert_eq!(rt; met(&table, 7, 3), Some(20));
    assert_eq!(rt; met(&table, 7, 4), Some(10));
    assert_eq!(rt; met(&table, 8, 3), None);
    assert_eq!(rt; table.remove(key(7, 3)), Some(20));
    assert_eq!(rt; met(&table, 7, 3), Some(10));
    assert_eq!(rt; serial_after(&table, 1), Some(775));
    assert_eq!(rt; serial_after(&table, 900), None);
    assert_eq!(rt; table.first().map(|row| row.key.port), Some(7));
    if let Some(value) = table.find_exact_mut(key(7, DomId::ANY.0)) {
        *value = 11;
    }
    assert_eq!(rt; met(&table, 7, 3), Some(11));
    Ok(())
}

fn key(port: u32, partner: u16) -> RingKey
    ensures { result ≡ key_of port partner }
{
    RingKey {
        port,
        partner: DomId(partner),
    }
}

// Puts a row in, and gives the value that comes back.
fn put(table: &mut Table<u32>, port: u32, partner: u16, serial: u64, value: u32) -> Option<u32> {
    if table.find_exact(key(port, partner)).is_some() {
        return Some(value);
    }
    match table.insert(key(port, partner), serial, value) {
        Ok(()) => None,
        Err(InsertFault::Full(value)) => Some(value),
        Err(InsertFault::NoMemory(_)) => Some(999),
    }
}

fn met(table: &Table<u32>, port: u32, sender: u16) -> Option<u32> {
    let row = table.find(port, DomId(sender))?;
    Some(row.value)
}

fn serial_after(table: &Table<u32>, serial: u64) -> Option<u64> {
    let row = table.after(serial)?;
    Some(row.serial)
}

#[test]
fn rows_that_are_reached_are_counted(rt: HostRuntime) -> Result<(), Fail> {
    let mut table = Table::new(rt.alloc());
    assert_eq!(rt; put(&mut table, 7, 3, 1, 10), None);
    assert_eq!(rt;
        reach_and_take::<Brand>(&mut table, Blank::new(1)),
        Some(12)
    );
    assert_eq!(rt; table.count(), 0);
    Ok(())
}

// Writes through a row that it reaches, and takes it out: two steps.
fn reach_and_take<L: Ledger>(table: &mut Table<u32>, blank: Blank) -> Option<u32>
    requires name { blank.name ≡ L.name }
    requires parts { blank.parts ≡ L.parts }
    requires one { blank.parts ≡ 1 }
{
    let mut steps: Steps<L> = Steps::new(blank);
    if let Some(value) = table.reach_row(key(7, 3), &mut steps) {
        *value = 12;
    }
    table.take_row(key(7, 3), &mut steps)
}
