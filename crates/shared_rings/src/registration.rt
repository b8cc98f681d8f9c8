//! What a domain asks for when it registers a ring, and how that finds the world.
ghost use Rattle.std.specs.Prelude.{◌≡◌, ◌&&◌, ◌||◌, not, IsTrue, IfSome, IfNone};
ghost use Rattle.argo_base.specs.Match.{is_wildcard};
ghost use Rattle.argo_model.specs.declared.action.Action.TheVariants.{Register};
ghost use Rattle.argo_model.specs.declared.action.Outcome.TheVariants.{Refused};
ghost use Rattle.argo_model.specs.Programs.Program.{caller_of};
ghost use Rattle.argo_model.specs.Rules.Possible.{is_on_line, is_possible, may_be_away};
ghost use Rattle.shared_rings.specs.Registering.{MayFind};

use argo_base::{DomId, Errno, PageList, RingId};
use shared_caller::Caller;
use shared_parts::{Plan, Rings};
use shared_steps::Pause;
use std::sync::ledger::Ledger;

/// What a domain asks for when it registers a ring.
#[derive(Drop)]
pub struct Registration {
    pub id: RingId,
    pub len: u32,
    pub pages: PageList,
    pub fail_exist: bool,
}

/// How a registration finds the caller's rings.
#[derive(Clone, Copy, Debug)]
pub(crate) enum Standing {
    Refused(Errno),
    /// The ring stands just so.
    Same,
    /// It stands, and is to start anew.
    Other,
    /// There is none under this key.
    None,
}

/// The refusals that are found without the caller's rings: a single partner that is not alive, a caller that is off, and a single
/// partner that is.
pub(crate) fn refusal<A: Plan, B: Ledger, C: Ledger, P: Pause>(
    caller: &Caller<'_, A, B, C, P>,
    r: &Registration,
) -> Option<Errno>
    ensures refused { IfSome result (λ e. IsTrue (is_possible A.facts caller.now
        (Register r.now.id.port r.now.id.partner r.now.len r.now.pages r.now.fail_exist)
        (Refused e))) }
    ensures on { IfNone result (IsTrue (is_on_line A.facts (caller_of caller.now))) }
    ensures other { IfNone result
        (IsTrue (is_wildcard r.now.id.partner || is_on_line A.facts r.now.id.partner)) }
{
    let Some(is_on) = is_on(caller, r.id.partner) else {
        return Some(Errno::Srch);
    };
    if !caller.party.on {
        return Some(Errno::NoDev);
    }
    if !is_on {
        return Some(Errno::ConnRefused);
    }
    None
}

// Whether a single partner is on, where it is alive. No wildcard is off.
fn is_on<A: Plan, B: Ledger, C: Ledger, P: Pause>(
    caller: &Caller<'_, A, B, C, P>,
    partner: DomId,
) -> Option<bool>
    ensures on { IfSome result
        (λ on. on ≡ (is_wildcard partner || is_on_line A.facts partner)) }
    ensures away { IfNone result
        (IsTrue (not (is_wildcard partner) && may_be_away A.facts partner)) }
{
    if partner.is_any() {
        return Some(true);
    }
    let Some(party) = caller.domains.party(partner) else {
        return None;
    };
    Some(party.on)
}

/// How a registration finds the caller's rings, where it is not refused before.
pub(crate) fn found(rings: &mut Rings, r: &Registration) -> Standing
    ensures { MayFind r.now.fail_exist result }
{
    let is_full = rings.is_full();
    match rings.stands_so(r.id.key(), r.len, r.pages.as_slice()) {
        Some(_) if r.fail_exist => Standing::Refused(Errno::Exist),
        Some(true) => Standing::Same,
        Some(false) => Standing::Other,
        None if is_full => Standing::Refused(Errno::NoSpc),
        None => Standing::None,
    }
}
