//! Copies between bytes and the slots of a ring, by whole runs of its pages.
ghost use Rattle.std.specs.Prelude.{◌≡◌, ◌+◌, ◌*◌, ◌%◌, ◌^◌, ◌<◌, ◌≤◌, length, take, drop, IsTrue};
ghost use Rattle.argo_base.specs.Limits.{page_bytes};
ghost use Rattle.argo_base.specs.Rounds.{written_round};
ghost use Rattle.argo_base.specs.Slots.{is_legal, is_place, page_count};
ghost use Rattle.argo_base.specs.Splice.{splice};
ghost use Rattle.guest_pages.specs.Rows.{row_bytes, numbers_of};
ghost use Rattle.argo_base.specs.SlotBytes.{bytes_from, write_slots};
ghost use Rattle.ring_space.specs.RowSlots.{row_slots};

use argo_base::PAGE_BYTES;
use argo_base::slots::page_count;
use guest_pages::PageRow;

const PAGE: usize = PAGE_BYTES as usize;

const HEADER: u32 = 64;

// Writes bytes into the pages of a row from a byte of them on.
fn write_bytes(row: &mut PageRow, from: u32, bytes: &[u8])
    requires small { from + length bytes.now < 2 ^ 32 }
    requires inside { from + length bytes.now ≤ page_bytes * length row.old }
    ensures numbers { numbers_of row.new ≡ numbers_of row.old }
    ensures bytes { row_bytes row.new ≡ splice (row_bytes row.old) from bytes.now }
{
    let mut at = from as usize;
    let mut rest = bytes;
    while !rest.is_empty() {
        let off = at % PAGE;
        let n = rest.len().min(PAGE - off);
        let (part, later) = rest.split_at(n);
        row.write(at / PAGE, off as u32, part);
        at += n;
        rest = later;
    }
}

// Copies a piece of a page into a part of the buffer.
fn read_piece(row: &PageRow, at: usize, buf: &mut [u8], done: usize, n: usize)
    requires inside { at + n ≤ page_bytes * length row.now }
    requires in_page { at % page_bytes + n ≤ page_bytes }
    requires some { 0 < n }
    requires part { done + n ≤ length buf.old }
    ensures bytes { buf.new ≡ splice buf.old done (take n (drop at (row_bytes row.now))) }
    ensures whole { length (row_bytes row.now) ≡ page_bytes * length row.now }
{
    let (_, rest) = buf.split_at_mut(done);
    let (part, _) = rest.split_at_mut(n);
    row.read(at / PAGE, (at % PAGE) as u32, part);
}

// Copies bytes of the pages of a row from a byte of them on, as many as the buffer takes.
fn read_bytes(row: &PageRow, from: u32, buf: &mut [u8])
    requires small { from + length buf.old < 2 ^ 32 }
    requires inside { from + length buf.old ≤ page_bytes * length row.now }
    ensures { buf.new ≡ take (length buf.old) (drop from (row_bytes row.now)) }
{
    let mut done = 0;
    while done < buf.len() {
        let at = from as usize + done;
        let n = (buf.len() - done).min(PAGE - at % PAGE);
        read_piece(row, at, buf, done, n);
        done += n;
    }
}

/// Writes bytes into the slots of a ring from a place on: up to the ring's end, and the rest from place 0 on. It takes no
/// memory.
pub fn write_run(row: &mut PageRow, len: u32, at: u32, bytes: &[u8])
    requires legal { IsTrue (is_legal len) }
    requires place { IsTrue (is_place len at) }
    requires pages { length row.old ≡ page_count len }
    requires short { length bytes.now ≤ len }
    ensures numbers { numbers_of row.new ≡ numbers_of row.old }
    ensures bytes { row_bytes row.new ≡ write_slots len at bytes.now (row_bytes row.old) }
    ensures slots { row_slots len row.new ≡ written_round len (row_slots len row.old) at bytes.now }
{
    let has_pages = row.count() == page_count(len) as usize;
    prove!(has_pages);
    let to_end = bytes.len().min((len - at) as usize);
    let (first, rest) = bytes.split_at(to_end);
    write_bytes(row, HEADER + at, first);
    write_bytes(row, HEADER, rest);
}

/// Copies slot bytes of a ring from a place on, as many as the buffer takes: up to the ring's end, and the rest from place 0
/// on. It takes no memory.
pub fn read_run(row: &PageRow, len: u32, at: u32, buf: &mut [u8])
    requires legal { IsTrue (is_legal len) }
    requires place { IsTrue (is_place len at) }
    requires pages { length row.now ≡ page_count len }
    requires short { length buf.old ≤ len }
    ensures { buf.new ≡ take (length buf.old) (bytes_from at (row_slots len row.now)) }
{
    let has_pages = row.count() == page_count(len) as usize;
    prove!(has_pages);
    let to_end = buf.len().min((len - at) as usize);
    let (first, rest) = buf.split_at_mut(to_end);
    read_bytes(row, HEADER + at, first);
    read_bytes(row, HEADER, rest);
}
