//! Whether outcomes, replies, and domains as they stand are the same in both worlds.
use super::Step;
use argo_base::Message;
use argo_board::Entry;
use argo_model::{ClosedDomain, ClosedRing, HeardLine, HeardLines, Outcome, Reply};
use vcpu_machine::short_of;

pub(super) fn outcomes(a: &Outcome, b: &Outcome) -> bool {
    match (a, b) {
        (Outcome::Bytes(a), Outcome::Bytes(b)) => a.as_slice() == b.as_slice(),
        (Outcome::Answer(a), Outcome::Answer(b)) => a == b,
        _ => short_of(a) == short_of(b),
    }
}

/// The journal, and the steps that were made.
pub(super) fn journal(entries: &[Entry], steps: &[Step]) -> bool {
    entries.len() == steps.len()
        && entries.iter().zip(steps.iter()).all(|(entry, step)| entry.vcpu == step.0
            && entry.short == step.1)
}

/// The replies of all sections, with their steps.
pub(super) fn heard(a: &[HeardLines], b: &[HeardLines]) -> bool {
    a.len() == b.len()
        && a.iter()
            .zip(b.iter())
            .all(|(a, b)| of_section(a.as_slice(), b.as_slice()))
}

fn of_section(a: &[HeardLine], b: &[HeardLine]) -> bool {
    a.len() == b.len()
        && a.iter()
            .zip(b.iter())
            .all(|(a, b)| a.step == b.step && replies(&a.reply, &b.reply))
}

fn replies(a: &Reply, b: &Reply) -> bool {
    match (a, b) {
        (Reply::Stored, Reply::Stored)
        | (Reply::Signal, Reply::Signal)
        | (Reply::NoSignal, Reply::NoSignal)
        | (Reply::Empty, Reply::Empty)
        | (Reply::Bad, Reply::Bad)
        | (Reply::Fault, Reply::Fault)
        | (Reply::Gone, Reply::Gone) => true,
        (Reply::Hex(a), Reply::Hex(b)) => a.as_slice() == b.as_slice(),
        (Reply::Number(a), Reply::Number(b)) => a == b,
        (
            Reply::Msg {
                src,
                port,
                kind,
                size,
                head,
            },
            Reply::Msg {
                src: other_src,
                port: other_port,
                kind: other_kind,
                size: other_size,
                head: other_head,
            },
        ) => {
            (src, port, kind, size) == (other_src, other_port, other_kind, other_size)
                && head.as_slice() == other_head.as_slice()
        }
        _ => false,
    }
}

pub(super) fn domains(a: &[ClosedDomain], b: &[ClosedDomain]) -> bool {
    a.len() == b.len() && a.iter().zip(b.iter()).all(|(a, b)| are_same_domains(a, b))
}

fn are_same_domains(a: &ClosedDomain, b: &ClosedDomain) -> bool {
    a.id == b.id
        && a.alive == b.alive
        && a.generation == b.generation
        && a.flag == b.flag
        && a.pages.as_slice() == b.pages.as_slice()
        && rings(a.rings.as_slice(), b.rings.as_slice())
}

fn rings(a: &[ClosedRing], b: &[ClosedRing]) -> bool {
    a.len() == b.len() && a.iter().zip(b.iter()).all(|(a, b)| are_same_rings(a, b))
}

fn are_same_rings(a: &ClosedRing, b: &ClosedRing) -> bool {
    a.key == b.key
        && a.serial == b.serial
        && a.len == b.len
        && a.tx == b.tx
        && a.clean == b.clean
        && a.notices.as_slice() == b.notices.as_slice()
        && a.pages.as_slice() == b.pages.as_slice()
        && messages(a.untaken.as_slice(), b.untaken.as_slice())
}

fn messages(a: &[Message], b: &[Message]) -> bool {
    a.len() == b.len() && a.iter().zip(b.iter()).all(|(a, b)| are_same_messages(a, b))
}

fn are_same_messages(a: &Message, b: &Message) -> bool {
    a.src == b.src && a.port == b.port && a.kind == b.kind && a.body.as_slice() == b.body.as_slice()
}
