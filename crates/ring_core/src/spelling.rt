//! Messages as they stand in the slots of a ring.
ghost use Rattle.std.specs.Prelude.{◌≡◌, ◌+◌, ◌≤◌, IsTrue, length};
ghost use Rattle.std.specs.List.{All};
ghost use Rattle.argo_base.specs.Limits.{longest_body, page_bytes};
ghost use Rattle.argo_base.specs.Layout.{addr_bytes, message_head_bytes};
ghost use Rattle.argo_base.specs.Slots.{is_legal, is_place, page_count};
ghost use Rattle.argo_model.specs.Rules.Messages.{spell, room_of};
ghost use Rattle.argo_model.specs.Rules.RingBytes.{write_slots};
ghost use Rattle.guest_pages.specs.Rows.{numbers_of, row_bytes};

use argo_abi::{Addr, MessageHead, put_message_head};
use argo_base::{Message, slots};
use guest_pages::PageRow;
use ring_space::write_run;

/// Spells a message in the slots from a place on. Its body is copied once.
pub(crate) fn write_message(row: &mut PageRow, len: u32, at: u32, message: &Message)
    requires legal { IsTrue (is_legal len) }
    requires place { IsTrue (is_place len at) }
    requires pages { length row.old ≡ page_count len }
    requires room { room_of message.now ≤ len }
    requires short { length message.now.body ≤ longest_body }
    ensures numbers { numbers_of row.new ≡ numbers_of row.old }
    ensures bytes { row_bytes row.new ≡ write_slots len at (spell message.now) (row_bytes row.old) }
    ensures whole { All (λ p. length p.1 ≡ page_bytes) row.old }
{
    let has_pages = row.count() == slots::page_count(len) as usize;
    prove!(has_pages);
    let head = head_of(message);
    write_run(row, len, at, head.as_slice());
    let rest = slots::place_after(len, at, 16);
    write_run(row, len, rest, message.body.as_slice());
}

// The header of a message.
fn head_of(message: &Message) -> [u8; 16]
    requires { length message.now.body ≤ longest_body }
    ensures { result ≡ message_head_bytes (length message.now.body + 16)
        (addr_bytes message.now.port message.now.src 0) message.now.kind }
{
    put_message_head(&MessageHead {
        len: message.body.len() as u32 + 16,
        source: Addr {
            aport: message.port,
            domain_id: message.src.0,
            pad: 0,
        },
        message_type: message.kind,
    })
}
