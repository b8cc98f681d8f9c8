//! Who is to wait for room in a ring.
ghost use Rattle.std.specs.Prelude.{◌≡◌};
ghost use Rattle.shared_caller.specs.Waiting as waiting;

use argo_base::{DomId, MOST_NOTICES, slots};
use ring_core::Ring;
use ring_space::rx_word;

/// Whether a domain that has no notice on the ring gets one where it asks for room for so many bytes: they can fit, do not now, and there
/// is a place for the notice.
pub(crate) fn will_wait(ring: &Ring, size: u32) -> bool
    ensures { result ≡ waiting.will_wait ring.now size }
{
    let len = ring.len();
    !slots::too_big(len, size)
        && !slots::fits(len, rx_word(ring.row()), ring.tx(), size)
        && ring.notices().len() < MOST_NOTICES
}

/// Whether the ring holds a notice of the domain.
pub(crate) fn is_noted(ring: &Ring, dom: DomId) -> bool
    ensures { result ≡ waiting.is_noted ring.now dom }
{
    ring.notices().size(dom).is_some()
}
