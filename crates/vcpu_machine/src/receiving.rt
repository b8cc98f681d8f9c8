//! A line that the guest's library works through.

ghost use Rattle.std.specs.Prelude.{◌≡◌, ◌^◌, ◌<◌, [], length, take, IsTrue, IfOk, IfErr, OnErr};
ghost use Rattle.argo_model.specs.Programs.Asks.{Say};
ghost use Rattle.argo_model.specs.Programs.Recv.{say_found};
ghost use Rattle.argo_model.specs.declared.action.Outcome.TheVariants.{Bytes as BytesCame};
ghost use Rattle.argo_model.specs.Rules.Access.{has_steps_left, outcome_unseen};
ghost use Rattle.guest_lib.specs.Receiving.{ahead, IsUnderWay, CanFeed, IsShort, ended};
ghost use Rattle.line_phase.specs.Acting.{MayGo};
ghost use Rattle.vcpu_machine.specs.Going.{ReceiveMoves, Receives, ReceivesAlike};

use argo_base::{Bytes, NoMemory};
use argo_model::{Access, Outcome, Reply, Unseen};
use guest_lib::{Ask, Received, Recv};

/// The first bytes of a body, which a reply shows.
const SHOWN_BYTES: usize = 64;

/// The reply with an outcome of the library's next action; none while the library goes on.
#[inline(always)]
pub(crate) fn received(recv: &mut Recv, outcome: &Outcome) -> Option<Reply>
    requires under_way { IsUnderWay recv.old }
    requires ready { IsTrue recv.old.ready }
    requires can { CanFeed recv.old outcome.now }
    ensures { ReceiveMoves recv.old outcome.now result recv.new }
{
    match recv.feed_by(outcome) {
        None => None,
        Some(found) => Some(reply_of(found)),
    }
}

/// Performs the library's next action as section `v` of a world, and answers the reply where the line then has it.
#[inline(always)]
pub(crate) fn receive<A: Access>(
    recv: &mut Recv,
    v: u32,
    a: &mut A,
) -> Result<Option<Reply>, NoMemory>
    requires under_way { IsUnderWay recv.old }
    requires may { MayGo (A.actors a.old) v (ahead say_found recv.old []) }
    requires few { IsTrue (has_steps_left (A.totals a.old) v) }
    ensures ok { IfOk result (λ reply. Receives (A.actors a.old) v recv.old (A.told a.old)
        (A.totals a.old) reply recv.new (A.told a.new) (A.totals a.new)) }
    ensures err { OnErr result (ReceivesAlike recv.old recv.new) }
    ensures err_room { OnErr result (IsTrue recv.old.ready → IsTrue recv.new.ready) }
    ensures actors { A.actors a.new ≡ A.actors a.old }
    ensures err_told { OnErr result (A.told a.new ≡ A.told a.old) }
    ensures err_totals { OnErr result (A.totals a.new ≡ A.totals a.old) }
{
    match recv.ask()? {
        Ask::Fetch(piece) => {
            let reply = heard(recv, a.seen(v, piece));
            a.count(v);
            Ok(reply)
        }
        Ask::Put { page, off, word } => {
            let outcome = a.put(v, page, off, &word)?;
            Ok(received(recv, &outcome))
        }
    }
}

// As `received`, with the bytes of a fetch where they stand, or why there are none.
#[inline(always)]
fn heard(recv: &mut Recv, seen: Result<&[u8], Unseen>) -> Option<Reply>
    requires under_way { IsUnderWay recv.old }
    requires ready { IsTrue recv.old.ready }
    requires can { IfOk seen (λ bytes. CanFeed recv.old (BytesCame bytes.now)) }
    requires can_not { IfErr seen (λ u. CanFeed recv.old (outcome_unseen u)) }
    ensures bytes { IfOk seen.entry
        (λ bytes. ReceiveMoves recv.old (BytesCame bytes.now) result recv.new) }
    ensures unseen { IfErr seen.entry
        (λ u. ReceiveMoves recv.old (outcome_unseen u) result recv.new) }
{
    match recv.hear(seen) {
        None => None,
        Some(found) => Some(reply_of(found)),
    }
}

// The reply that shows what the library came to: of a body its size and its first bytes.
#[inline(always)]
fn reply_of(found: Received) -> Reply
    requires { IsShort found }
    ensures { Say result ≡ ended say_found found }
{
    match found {
        Received::Msg(message) => Reply::Msg {
            src: message.src,
            port: message.port,
            kind: message.kind,
            size: message.body.len() as u32,
            head: head_of(message.body),
        },
        Received::Empty => Reply::Empty,
        Received::Bad => Reply::Bad,
        Received::Fault => Reply::Fault,
        Received::Gone => Reply::Gone,
    }
}

// The first bytes of a body, whose other memory is given back.
fn head_of(body: Bytes) -> Bytes
    ensures { result ≡ take 64 body }
{
    let mut bytes = body.into_vec();
    bytes.truncate(SHOWN_BYTES);
    bytes.shrink_to_fit();
    Bytes::from_vec(bytes)
}
