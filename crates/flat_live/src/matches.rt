//! Which ring of a domain a message or a sweep meets.
ghost use Rattle.std.specs.Prelude.{◌≡◌, option_map};
ghost use Rattle.argo_base.specs.Match.{at_key, match_of};
ghost use Rattle.argo_model.specs.Rules.Sweep.{next_ring};
ghost use Rattle.flat_live.specs.Sweeps.{nearer};

use crate::ring::Ring;
use argo_base::{DomId, RingKey};
use std::collections::BTreeMap;

/// The key of the ring that a sender meets at a port, where it meets one: the one for this sender, else the wildcard ring's.
pub(crate) fn match_key(rings: &BTreeMap<RingKey, Ring>, port: u32, sender: DomId) -> RingKey
    ensures { match_of rings.now.entries port sender ≡ at_key rings.now.entries result }
{
    let own = RingKey {
        port,
        partner: sender,
    };
    if rings.contains_key(&own) {
        return own;
    }
    RingKey {
        port,
        partner: DomId::ANY,
    }
}

/// The key of the ring with the least serial above `after`.
pub(crate) fn next_key(rings: &BTreeMap<RingKey, Ring>, after: u64) -> Option<RingKey>
    ensures { result ≡ option_map (λ e. e.0) (next_ring after rings.now.entries) }
{
    let mut best = None;
    for (key, ring) in rings {
        best = nearer_of(best, after, (*key, ring.serial));
    }
    let (key, _) = best?;
    Some(key)
}

// Of the best ring so far and one that comes to it, the one with the lesser serial above `after`.
fn nearer_of(
    best: Option<(RingKey, u64)>,
    after: u64,
    next: (RingKey, u64),
) -> Option<(RingKey, u64)>
    ensures { result ≡ nearer after best next }
{
    if next.1 <= after {
        return best;
    }
    match best {
        Some(b) if b.1 <= next.1 => Some(b),
        _ => Some(next),
    }
}
