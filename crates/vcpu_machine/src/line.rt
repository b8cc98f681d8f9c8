//! A line from its first action to its reply.

ghost use Rattle.std.specs.Prelude.{◌≡◌, ◌<◌, ◌≤◌, List, [], ◌∷◌, IsTrue, IfOk, IsOk, OnOk, OnErr};
ghost use Rattle.argo_model.specs.Rules.Access.{has_steps_left};
ghost use Rattle.argo_model.specs.Rules.Fit.{is_fit};
ghost use Rattle.argo_model.specs.Programs.Asks.{CanFollow};
ghost use Rattle.argo_model.specs.Programs.Program.{Do};
ghost use Rattle.line_phase.specs.Acting.{MayGo};
ghost use Rattle.line_phase.specs.Phase.{rest_of, takes_none, IsAtPhase, phase_left};
ghost use Rattle.vcpu_machine.specs.Going.{Goes, Moves, Settles};
ghost use Rattle.vcpu_machine.specs.Line.{HasRoom, GoesOnAlike, StandsForAll, is_line_for};
ghost use Rattle.vcpu_machine.specs.Steps.{most_steps};

use crate::looking::looked;
use crate::receiving::{receive, received};
use argo_base::NoMemory;
use argo_model::{Access, Action, Actor, Line, Outcome, Reply};
use guest_lib::Recv;
use line_phase::{
    Call, Cursor, Followed, Moved, Phase, Question, Reader, Text, caller_of, fetch_first,
    fetch_moved, put_moved, read_on, reading, seen_moved,
};
use std::alloc::Global;

/// The phase at which a line of an actor begins.
#[inline(always)]
pub(crate) fn start(alloc: Global, actor: Actor, line: &Line) -> Phase
    requires { IsTrue (is_line_for actor line.now) }
    ensures at_phase { IsAtPhase line.now result }
    ensures starts { StandsForAll actor line.now result }
    ensures few { phase_left result ≤ most_steps line.now }
{
    match line {
        Line::Store { at, bytes } => Phase::Writing {
            rest: Cursor::over(*at, bytes.len() as u32),
            text: Text::Stored,
        },
        Line::Load { at, n } => reading(alloc, Cursor::over(*at, *n), Reader::Show),
        Line::Op { c, a1, a2, a3, a4 } => {
            let call = Call {
                caller: caller_of(actor),
                a1: *a1,
                a2: *a2,
                a3: *a3,
                a4: *a4,
            };
            call.start(alloc, *c)
        }
        Line::Await { turns } => Phase::Looking { later: *turns - 1 },
        Line::Recv { page, len } => Phase::Receiving(Recv::start(alloc, *page, *len)),
        Line::Destroy { dom } => Phase::Asking(Question::Destroy(*dom)),
        Line::Reset { dom } => Phase::Asking(Question::Reset(*dom)),
        Line::Create { dom } => Phase::Asking(Question::Create(*dom)),
    }
}

/// The next action, with the memory that its outcome will want.
pub(crate) fn next(phase: &mut Phase, alloc: Global, line: &Line) -> Result<Action, NoMemory>
    requires { IsAtPhase line.now phase.old }
    ensures action { IfOk result (λ a. rest_of line.now phase.old [] ≡ Do a) }
    ensures fit { IfOk result (λ a. IsTrue (is_fit a)) }
    ensures alike { GoesOnAlike line.now phase.old phase.new }
    ensures room { OnOk result (HasRoom phase.new) }
    ensures keeps { HasRoom phase.old → HasRoom phase.new }
    ensures given { IsTrue (takes_none (rest_of line.now phase.old [])) → IsOk result }
{
    match phase {
        Phase::Reading { rest, got, reader } => {
            got.reserve(reader.room(rest.left))?;
            Ok(fetch_first(*rest))
        }
        Phase::Writing { rest, text } => text.put_first(alloc, line, *rest),
        Phase::Asking(question) => question.action(alloc),
        Phase::Looking { .. } => Ok(Action::Look),
        Phase::Receiving(recv) => recv.next(),
        Phase::Ended => unreachable!(),
    }
}

/// Performs the next action as section `v` of a world, and answers the reply where the line then has it.
pub(crate) fn go<A: Access>(
    phase: &mut Phase,
    alloc: Global,
    line: &Line,
    v: u32,
    a: &mut A,
) -> Result<Option<Reply>, NoMemory>
    requires at_phase { IsAtPhase line.now phase.old }
    requires may { MayGo (A.actors a.old) v (rest_of line.now phase.old []) }
    requires few { IsTrue (has_steps_left (A.totals a.old) v) }
    ensures ok { IfOk result (λ reply. Goes (A.actors a.old) v line.now phase.old
        (A.told a.old) (A.totals a.old) reply phase.new (A.told a.new) (A.totals a.new)) }
    ensures err { OnErr result (GoesOnAlike line.now phase.old phase.new) }
    ensures err_room { OnErr result (HasRoom phase.old → HasRoom phase.new) }
    ensures actors { A.actors a.new ≡ A.actors a.old }
    ensures err_told { OnErr result (A.told a.new ≡ A.told a.old) }
    ensures err_totals { OnErr result (A.totals a.new ≡ A.totals a.old) }
{
    match phase {
        Phase::Reading { rest, got, reader } => {
            got.reserve(reader.room(rest.left))?;
            let (piece, _) = rest.split_first();
            let moved = seen_moved(rest, got, a.seen(v, piece));
            a.count(v);
            if let Moved::More = moved {
                return Ok(None);
            }
            let followed = read_on(alloc, got, reader, moved);
            Ok(settle(phase, followed))
        }
        Phase::Writing { rest, text } => {
            let outcome = text.put_in(line, *rest, v, a)?;
            let moved = put_moved(rest, &outcome);
            if let Moved::More = moved {
                return Ok(None);
            }
            let followed = text.put_on(alloc, moved);
            Ok(settle(phase, followed))
        }
        Phase::Asking(question) => {
            let followed = question.go(alloc, v, a)?;
            Ok(settle(phase, followed))
        }
        Phase::Looking { later } => {
            let outcome = a.act(v, Action::Look)?;
            Ok(looked(later, &outcome))
        }
        Phase::Receiving(recv) => receive(recv, v, a),
        Phase::Ended => unreachable!(),
    }
}

// Goes to the next phase, or answers the reply.
#[inline(always)]
fn settle(phase: &mut Phase, followed: Followed) -> Option<Reply>
    ensures { Settles followed result phase.new }
{
    match followed {
        Followed::To(next) => {
            *phase = next;
            None
        }
        Followed::Over(reply) => Some(reply),
    }
}

/// Takes the outcome of the next action, and answers the reply where the line then has it.
pub(crate) fn feed(
    phase: &mut Phase,
    alloc: Global,
    line: &Line,
    outcome: &Outcome,
) -> Option<Reply>
    requires at_phase { IsAtPhase line.now phase.old }
    requires room { HasRoom phase.old }
    requires can { CanFollow (rest_of line.now phase.old []) outcome.now }
    ensures { Moves line.now phase.old outcome.now result phase.new }
{
    match phase {
        Phase::Reading { rest, got, reader } => {
            let moved = fetch_moved(rest, got, outcome);
            if let Moved::More = moved {
                return None;
            }
            let followed = read_on(alloc, got, reader, moved);
            settle(phase, followed)
        }
        Phase::Writing { rest, text } => {
            let moved = put_moved(rest, outcome);
            if let Moved::More = moved {
                return None;
            }
            let followed = text.put_on(alloc, moved);
            settle(phase, followed)
        }
        Phase::Asking(question) => {
            let followed = question.asked(alloc, outcome);
            settle(phase, followed)
        }
        Phase::Looking { later } => looked(later, outcome),
        Phase::Receiving(recv) => received(recv, outcome),
        Phase::Ended => unreachable!(),
    }
}
