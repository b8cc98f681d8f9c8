//! The single actions of lines, and what follows them.

ghost use Rattle.std.specs.Prelude.{◌≡◌, ◌+◌, IfOk, IsOk, OnErr, IsTrue};
ghost use Rattle.argo_model.specs.Rules.Access.{has_steps_left};
ghost use Rattle.argo_model.specs.Rules.Fit.{is_fit};
ghost use Rattle.argo_model.specs.Programs.Asks.{Do, say_done};
ghost use Rattle.argo_model.specs.Programs.Send.{say_accepted};
ghost use Rattle.line_phase.specs.Notifying.{swept_on};
ghost use Rattle.line_phase.specs.Entries.{most_of_notify};
ghost use Rattle.line_phase.specs.Followed.{Leads, Sends};

use crate::layout::read_numbers;
use crate::notify;
use crate::phase::{Followed, Phase, Question};
use crate::refusal::refusal;
use crate::send::delivery;
use argo_base::{Bytes, NoMemory, slots};
use argo_model::{Access, Action, Load, Outcome, Reply};
use std::alloc::Global;

impl Question {
    ghost use Rattle.line_phase.specs.Question.{action_of, answered_by, IsQuestion, most_after_answer};
    ghost use Rattle.line_phase.specs.Followed.{AskFollows};
    ghost use Rattle.line_phase.specs.Acting.{MayGo, Asks};
    ghost use Rattle.line_phase.specs.Phase.{takes_none};

    /// The action, with copies of what it takes.
    #[inline(always)]
    pub fn action(&self, alloc: Global) -> Result<Action, NoMemory>
        requires { IsQuestion self.now }
        ensures is { IfOk result (λ a. a ≡ action_of self.now) }
        ensures fit { IfOk result (λ a. IsTrue (is_fit a)) }
        ensures given { IsTrue (takes_none (Do (action_of self.now))) → IsOk result }
    {
        match self {
            Question::Refuse(_) => Ok(Action::Rest),
            Question::Destroy(dom) => Ok(Action::Destroy { dom: *dom }),
            Question::Reset(dom) => Ok(Action::Reset { dom: *dom }),
            Question::Create(dom) => Ok(Action::Create { dom: *dom }),
            Question::Unregister { port, partner } => Ok(Action::Unregister {
                port: *port,
                partner: *partner,
            }),
            Question::Register { ring, list } => {
                let pages = read_numbers(alloc, list.as_slice(), slots::page_count(ring.len))?;
                Ok(ring.on(pages))
            }
            Question::Deliver { address, load } => {
                let load = copy_of(alloc, load)?;
                Ok(delivery(address, load))
            }
            Question::Sweep { after, .. } => Ok(Action::Sweep { after: *after }),
            Question::Query {
                to,
                to_port,
                need,
                ..
            } => Ok(Action::Query {
                to: *to,
                to_port: *to_port,
                need: *need,
            }),
        }
    }

    /// Where a line goes that asks, with an outcome.
    #[inline(always)]
    pub fn asked(&self, alloc: Global, outcome: &Outcome) -> Followed
        requires { IsQuestion self.now }
        ensures { AskFollows self.now outcome.now result }
    {
        match outcome {
            Outcome::Gone => Followed::Over(Reply::Gone),
            _ => self.answered(alloc, outcome),
        }
    }

    /// Asks in a world: where the line then goes.
    pub fn go<A: Access>(&mut self, alloc: Global, v: u32, a: &mut A) -> Result<Followed, NoMemory>
        requires question { IsQuestion self.old }
        requires may { MayGo (A.actors a.old) v (Do (action_of self.old)) }
        requires few { IsTrue (has_steps_left (A.totals a.old) v) }
        ensures ok { IfOk result (λ followed. Asks (A.actors a.old) v self.old
            (A.told a.old) (A.totals a.old) followed (A.told a.new) (A.totals a.new)) }
        ensures err { OnErr result (self.new ≡ self.old) }
        ensures actors { A.actors a.new ≡ A.actors a.old }
        ensures err_told { OnErr result (A.told a.new ≡ A.told a.old) }
        ensures err_totals { OnErr result (A.totals a.new ≡ A.totals a.old) }
    {
        if let Question::Deliver { address, load } = self {
            let outcome = a.deliver(v, *address, load)?;
            return Ok(sent(&outcome));
        }
        let action = self.action(alloc)?;
        let outcome = a.act(v, action)?;
        Ok(self.asked(alloc, &outcome))
    }

    // Where the line goes with an outcome other than `Gone`.
    #[inline(always)]
    fn answered(&self, alloc: Global, outcome: &Outcome) -> Followed
        requires { IsQuestion self.now }
        ensures { Leads (answered_by self.now outcome.now) (most_after_answer self.now) result }
    {
        match self {
            Question::Refuse(e) => Followed::Over(refusal(*e)),
            Question::Deliver { .. } => delivered(outcome),
            Question::Sweep { base, later, .. } => swept(alloc, outcome, *base, *later),
            Question::Query { entry, .. } => entry.answered(alloc, outcome),
            _ => done(outcome),
        }
    }
}

// The same load once more.
fn copy_of(alloc: Global, load: &Load) -> Result<Load, NoMemory>
    ensures { IfOk result (λ copy. copy ≡ load.now) }
{
    match load {
        Load::Body(bytes) => {
            let copy = Bytes::copy_of(alloc, bytes.as_slice())?;
            Ok(Load::Body(copy))
        }
        Load::Faulted(n) => Ok(Load::Faulted(*n)),
        Load::Refused(e) => Ok(Load::Refused(*e)),
    }
}

// After an act that is done or refused.
fn done(outcome: &Outcome) -> Followed
    ensures { Leads (say_done outcome.now) 0 result }
{
    match outcome {
        Outcome::Refused(e) => Followed::Over(refusal(*e)),
        _ => Followed::Over(Reply::Number(0)),
    }
}

// After a delivery, of any load.
fn sent(outcome: &Outcome) -> Followed
    ensures { Sends outcome.now result }
{
    match outcome {
        Outcome::Gone => Followed::Over(Reply::Gone),
        _ => delivered(outcome),
    }
}

// After one with an outcome other than `Gone`.
fn delivered(outcome: &Outcome) -> Followed
    ensures { Leads (say_accepted outcome.now) 0 result }
{
    match outcome {
        Outcome::Refused(e) => Followed::Over(refusal(*e)),
        Outcome::Accepted(n) => Followed::Over(Reply::Number(i64::from(*n))),
        _ => Followed::Over(Reply::Number(0)),
    }
}

// After a sweep, with so many to come.
fn swept(alloc: Global, outcome: &Outcome, base: u64, later: u32) -> Followed
    ensures { Leads (swept_on base later outcome.now) (later + most_of_notify) result }
{
    match outcome {
        Outcome::Swept(serial) => notify::sweep(alloc, base, *serial, later),
        Outcome::Refused(e) => Followed::Over(refusal(*e)),
        _ => notify::begin(alloc, base),
    }
}
