//! The fields of Xen's structures, read from their bytes and written as such.

ghost use Rattle.std.specs.Prelude.{◌≡◌, ◌+◌, ◌*◌, ◌≤◌, length, IfOk};
ghost use Rattle.argo_base.specs.Iovs.{iov_at};
ghost use Rattle.argo_base.specs.Layout.{u64_at, numbers_at, answer_bytes};
ghost use Rattle.argo_abi.specs.Structures.{register_ring_of, unregister_ring_of, send_addr_of, ring_data_of, ring_data_entry_of};

use argo_abi::{
    Iov, RegisterRing, RingData, RingDataEntry, SendAddr, UnregisterRing, get_iov,
    get_register_ring, get_ring_data, get_ring_data_entry, get_send_addr, get_unregister_ring,
};
use argo_base::{NoMemory, PageList};
use argo_model::Answer;
use std::alloc::Global;

/// These bytes as an array.
fn array<const N: usize>(bytes: &[u8]) -> [u8; N]
    requires { length bytes.now ≡ N }
    ensures { result ≡ bytes.now }
{
    let mut array = [0; N];
    array.copy_from_slice(bytes);
    array
}

/// The structure of register_ring.
pub(crate) fn register_ring(bytes: &[u8]) -> RegisterRing
    requires { length bytes.now ≡ 12 }
    ensures { result ≡ register_ring_of bytes.now }
{
    get_register_ring(&array(bytes))
}

/// The structure of unregister_ring.
pub(crate) fn unregister_ring(bytes: &[u8]) -> UnregisterRing
    requires { length bytes.now ≡ 8 }
    ensures { result ≡ unregister_ring_of bytes.now }
{
    get_unregister_ring(&array(bytes))
}

/// The addresses of a sendv.
pub(crate) fn send_addr(bytes: &[u8]) -> SendAddr
    requires { length bytes.now ≡ 16 }
    ensures { result ≡ send_addr_of bytes.now }
{
    get_send_addr(&array(bytes))
}

/// A buffer of a sendv.
pub(crate) fn iov(bytes: &[u8]) -> Iov
    requires { length bytes.now ≡ 16 }
    ensures { result ≡ iov_at bytes.now 0 }
{
    get_iov(&array(bytes))
}

/// The head of a notify.
pub(crate) fn ring_data(bytes: &[u8]) -> RingData
    requires { length bytes.now ≡ 8 }
    ensures { result ≡ ring_data_of bytes.now }
{
    get_ring_data(&array(bytes))
}

/// An entry of a notify.
pub(crate) fn ring_data_entry(bytes: &[u8]) -> RingDataEntry
    requires { length bytes.now ≡ 20 }
    ensures { result ≡ ring_data_entry_of bytes.now }
{
    get_ring_data_entry(&array(bytes))
}

/// The field of 8 bytes at an offset.
pub(crate) fn read_u64(bytes: &[u8], off: usize) -> u64
    requires { off + 8 ≤ length bytes.now }
    ensures { result ≡ u64_at bytes.now off }
{
    u64::from_le_bytes([
        bytes[off],
        bytes[off + 1],
        bytes[off + 2],
        bytes[off + 3],
        bytes[off + 4],
        bytes[off + 5],
        bytes[off + 6],
        bytes[off + 7],
    ])
}

/// A row of so many page numbers.
pub(crate) fn read_numbers(alloc: Global, bytes: &[u8], count: u32) -> Result<PageList, NoMemory>
    requires { 8 * count ≤ length bytes.now }
    ensures { IfOk result (λ numbers. numbers ≡ numbers_at bytes.now count) }
{
    let mut numbers = Vec::with_capacity(alloc, count as usize)?;
    for i in 0..count {
        numbers.push(read_u64(bytes, 8 * i as usize))?;
    }
    Ok(PageList::from_vec(numbers))
}

/// The 12 bytes in which notify answers of one ring.
pub(crate) fn answer_text(alloc: Global, answer: Answer) -> Result<Vec<u8>, NoMemory>
    ensures { IfOk result (λ b. b.items ≡ answer_bytes answer.flags 0 answer.need answer.most) }
{
    let mut bytes = Vec::with_capacity(alloc, 12)?;
    bytes.extend_from_slice(&answer.flags.to_le_bytes())?;
    bytes.extend_from_slice(&0u16.to_le_bytes())?;
    bytes.extend_from_slice(&answer.need.to_le_bytes())?;
    bytes.extend_from_slice(&answer.most.to_le_bytes())?;
    Ok(bytes)
}

/// The 12 bytes in which notify answers of one ring.
pub(crate) fn answer_bytes(answer: Answer) -> [u8; 12]
    ensures { result ≡ answer_bytes answer.flags 0 answer.need answer.most }
{
    let flags = answer.flags.to_le_bytes();
    let need = answer.need.to_le_bytes();
    let most = answer.most.to_le_bytes();
    [
        flags[0], flags[1], 0, 0, need[0], need[1], need[2], need[3], most[0], most[1], most[2],
        most[3],
    ]
}
