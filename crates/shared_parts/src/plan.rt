//! What never changes in the runs of a script, as the world's types know it.
ghost use Rattle.std.specs.Prelude.{[], List};
ghost use Rattle.argo_model.specs.declared.scripts.Actor.{Actor as AnyActor};
ghost use Rattle.argo_model.specs.Rules.Possible.{Facts as TheFacts};

use std::marker::Brand;
use std::sync::ledger::Ledger;

/// The first ledger of a world. It carries, for proofs alone, the facts of the world's script that never change and who its sections
/// are, so that the types of what lies behind the locks can speak of them.
pub trait Plan: Ledger {
    ghost facts: { TheFacts };

    ghost actors: { List AnyActor };
}

impl Plan for Brand {
    ghost facts = { record { domains = []; destroyed = [] } };

    ghost actors = { [] };
}
