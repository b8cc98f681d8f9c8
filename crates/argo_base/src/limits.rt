//! The numbers of the rules.
ghost use Rattle.std.specs.Prelude.{◌≡◌};
ghost use Rattle.argo_base.specs.Limits.{page_bytes, least_ring, greatest_ring, longest_body, most_notices};

/// The bytes of a page.
pub const PAGE_BYTES: u32 = 4096;

/// The fewest slot bytes of a ring.
pub const LEAST_RING: u32 = 48;

/// The most slot bytes of a ring: `XEN_ARGO_MAX_RING_SIZE`.
pub const GREATEST_RING: u32 = 0x1000000;

/// The longest body. It fits into the greatest ring while that is empty.
pub const LONGEST_BODY: u32 = 0xFFFFE0;

/// The notices that a ring has at most.
pub const MOST_NOTICES: usize = 32;

/// These constants are the numbers of the rules. It does nothing.
pub fn limits_are_the_rules()
    ensures page { PAGE_BYTES ≡ page_bytes }
    ensures least { LEAST_RING ≡ least_ring }
    ensures greatest { GREATEST_RING ≡ greatest_ring }
    ensures body { LONGEST_BODY ≡ longest_body }
    ensures notices { MOST_NOTICES ≡ most_notices }
{}
