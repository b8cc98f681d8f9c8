//! A sender that asks a domain for room.
ghost use Rattle.std.specs.Prelude.{◌≡◌};
ghost use Rattle.argo_base.specs.Match.{key_in};
ghost use Rattle.argo_model.specs.Rules.Effects.{after};
ghost use Rattle.argo_model.specs.Rules.Query as query;
ghost use Rattle.paged_live.specs.Parts.{StandsStill};
ghost use Rattle.ring_core.specs.Held.{Becomes, IsSaid};

use argo_base::DomId;
use argo_model::Answer;
use ring_core::Ring;

/// Asks a ring for room.
pub(crate) fn ask(ring: &mut Ring, sender: DomId, need: u32) -> Answer
    ensures answer { IsSaid ring.old result
        (λ p. query.answer_of p (key_in ring.old.id) sender need) }
    ensures left { Becomes ring.old ring.new
        (λ p. after p (query.query_ring p (key_in ring.old.id) sender need)) }
    ensures still { StandsStill ring.old ring.new }
{
    let answer = ring.query(sender, need);
    ring.row().count();
    answer
}
