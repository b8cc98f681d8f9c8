//! Messages as they stand in the slots of a ring.
ghost use Rattle.std.specs.Prelude.{◌≡◌, ◌+◌, ◌*◌, ◌/◌, ◌≤◌, IsTrue, length};
ghost use Rattle.argo_base.specs.Iovs.{longest_body};
ghost use Rattle.argo_base.specs.Layout.{addr_bytes, message_head_bytes};
ghost use Rattle.argo_base.specs.Slots.{is_legal, is_place};
ghost use Rattle.argo_model.specs.Rules.Messages.{spell, room_of};
ghost use Rattle.argo_model.specs.Rules.RingBytes.{write_slots};
ghost use Rattle.flat_live.specs.Memory.{are_there, Writes};

use crate::memory::write_slots;
use argo_base::{Bytes, Message, slots};

/// Spells a message in the slots from a place on.
pub(crate) fn write_message(memory: &mut Bytes, pages: &[u64], len: u32, at: u32, message: &Message)
    requires legal { IsTrue (is_legal len) }
    requires place { IsTrue (is_place len at) }
    requires room { room_of message.now ≤ len }
    requires short { length message.now.body ≤ longest_body }
    requires held { 64 + len ≤ 4096 * length pages.now }
    requires there { IsTrue (are_there (length memory.old / 4096) pages.now) }
    ensures is { Writes pages.now (write_slots len at (spell message.now)) memory.old memory.new }
    ensures length { length memory.new ≡ length memory.old }
{
    let head = head_of(message);
    write_slots(memory, pages, len, at, head.as_slice());
    let rest = slots::place_after(len, at, 16);
    write_slots(memory, pages, len, rest, message.body.as_slice());
}

// The header of a message.
fn head_of(message: &Message) -> [u8; 16]
    requires { length message.now.body ≤ longest_body }
    ensures { result
        ≡ message_head_bytes (length message.now.body + 16)
        (addr_bytes message.now.port message.now.src 0) message.now.kind }
{
    let size = (message.body.len() as u32 + 16).to_le_bytes();
    let port = message.port.to_le_bytes();
    let source = message.src.0.to_le_bytes();
    let kind = message.kind.to_le_bytes();
    [
        size[0], size[1], size[2], size[3], port[0], port[1], port[2], port[3], source[0],
        source[1], 0, 0, kind[0], kind[1], kind[2], kind[3],
    ]
}
