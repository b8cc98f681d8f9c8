ghost use Rattle.std.specs.Prelude.{◌≡◌, ◌≤◌, OnOk, OnErr};
ghost use Rattle.argo_outside.specs.Faults.{Rose};
ghost use Rattle.argo_outside.specs.Sink.{appended, CutShort};

use crate::{Failed, Sink};

/// Writes a piece to its end, by as many calls as the sink needs. It takes no memory.
#[tactic(auto, using(crate::proofs::OutsideLemmas::appended_more))]
pub fn write_whole<K: Sink>(out: &mut K, piece: &[u8]) -> Result<(), Failed>
    ensures count { K.faults out.old ≤ K.faults out.new }
    ensures whole { OnOk result (K.written out.new ≡ appended (K.written out.old) piece.now) }
    ensures failed { OnErr result (Rose (K.faults out.old) (K.faults out.new)) }
    ensures cut_short { OnErr result (CutShort (K.written out.old) (K.written out.new) piece.now) }
{
    let mut at = 0;
    while at < piece.len() {
        let (_, rest) = piece.split_at(at);
        at += out.write(rest)?;
    }
    Ok(())
}
