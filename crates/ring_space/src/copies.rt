//! What the two copies are, byte by byte.
ghost use Rattle.std.specs.Prelude.{ℕ, List, ◌+◌, ◌<◌, ◌≤◌, length, take};
ghost use Rattle.argo_base.specs.Limits.{header_bytes};
ghost use Rattle.ring_space.specs.Copies.{IsWritten, IsRead};
ghost use Rattle.argo_base.specs.SlotBytes.{slots, bytes_from, write_slots};

/// The words in which `write_run` and `read_run` are told are copies byte by byte, in every ring. It does nothing.
pub fn copies_are_byte_by_byte()
    ensures write { (own bytes : List ℕ) (len at : ℕ) → header_bytes + len ≤ length own
        → at < len → length bytes ≤ len → IsWritten len at bytes own
        (write_slots len at bytes own) }
    ensures read { (own : List ℕ) (len at n : ℕ) → header_bytes + len ≤ length own
        → at < len → n ≤ len → IsRead len at (take n (bytes_from at (slots len own))) own }
{}
