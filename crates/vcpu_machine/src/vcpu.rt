//! The progress of one section.

ghost use Rattle.std.specs.Prelude.{◌≡◌, ◌<◌, ◌≤◌, ◌↔◌, ◌∷◌, [], Some, length, drop, sum_by, slice_get, true, IsTrue, IfOk, IsOk, OnOk, OnErr};
ghost use Rattle.argo_model.specs.Rules.Access.{has_steps_left, counted_at};
ghost use Rattle.argo_model.specs.Rules.Fit.{is_fit_for};
ghost use Rattle.argo_model.specs.Programs.Asks.{Do, CanFollow};
ghost use Rattle.argo_model.specs.Runs.Script.{turns_of};
ghost use Rattle.line_phase.specs.Phase.{takes_none};
ghost use Rattle.vcpu_machine.specs.Vcpu.{ahead, left_of, Begins, Begun, GoesOn, Fed, TakesTurn, TakesStep, CountsIn};

use crate::copies::copy_of_part;
use crate::line;
use crate::short::short_of;
use argo_base::NoMemory;
use argo_model::{Access, Action, Outcome, Part, Reply, Short};
use line_phase::Phase;
use std::alloc::Global;
use std::marker::Model;

/// The progress of one section: its lines, how many of them are done, and how far the next one is.
#[derive(Drop)]
pub struct Vcpu {
    alloc: Global,
    part: Part,
    done: u32,
    phase: Phase,
    ready: bool,
}

impl Model for Vcpu {
    ghost use Rattle.vcpu_machine.specs.Vcpu.{VcpuAt, IsVcpu};

    ghost Value = { VcpuAt };

    ghost view = { λ v. record { part = v.part; done = v.done; phase = v.phase; ready = v.ready } };

    ghost invariant = { λ v. IsVcpu (record { part = v.part; done = v.done; phase = v.phase; ready = v.ready }) };
}

impl Vcpu {
    /// The progress before the first action of a section. The section is copied.
    pub fn new(alloc: Global, p: &Part) -> Result<Vcpu, NoMemory>
        requires lines { length p.now.lines ≤ 8192 }
        requires turns { sum_by turns_of p.now.lines ≤ 1048576 }
        ensures { IfOk result (λ v. Begun p.now v) }
    {
        Ok(Vcpu::taking(alloc, copy_of_part(alloc, p)?))
    }

    /// As `new`, of a section that is given away.
    pub fn taking(alloc: Global, part: Part) -> Vcpu
        requires lines { length part.lines ≤ 8192 }
        requires turns { sum_by turns_of part.lines ≤ 1048576 }
        ensures { Begun part result }
    {
        let phase = phase_at(alloc, &part, 0);
        Vcpu {
            alloc,
            part,
            done: 0,
            phase,
            ready: false,
        }
    }

    /// Whether no line is left.
    pub fn finished(&self) -> bool
        ensures lines { IsTrue result ↔ (length self.now.part.lines ≤ self.now.done) }
        ensures left { IsTrue result ↔ (left_of self.now ≡ 0) }
    {
        is_past(&self.part, self.done)
    }

    /// How many lines are done.
    pub fn done_lines(&self) -> u32
        ensures is { result ≡ self.now.done }
        ensures few { result ≤ 8192 }
    {
        self.done
    }

    /// The next action of the current line, with all the memory that `feed` wants then. A look and a sweep take none.
    pub fn next(&mut self) -> Result<Action, NoMemory>
        requires unfinished { self.old.done < length self.old.part.lines }
        ensures action { IfOk result (λ a. ahead self.old [] ≡ Do a) }
        ensures fit { IfOk result (λ a. IsTrue (is_fit_for self.old.part.actor a)) }
        ensures ready { OnOk result (self.new.ready ≡ true) }
        ensures given { IsTrue (takes_none (ahead self.old [])) → IsOk result }
        ensures same { GoesOn self.old self.new }
        ensures err { OnErr result (self.new.ready ≡ self.old.ready) }
    {
        let part = &self.part;
        let line = part.lines.get(self.done as usize);
        let action = line::next(&mut self.phase, self.alloc, line)?;
        self.ready = true;
        Ok(action)
    }

    /// Takes the outcome of the next action, and answers the line's reply where the line then has it.
    pub fn feed(&mut self, o: Outcome) -> Option<Reply>
        requires ready { self.old.ready ≡ true }
        requires can { CanFollow (ahead self.old []) o }
        ensures fed { Fed self.old o result self.new }
    {
        self.feed_by(&o)
    }

    /// As `feed`, of an outcome that is wanted further.
    pub fn feed_by(&mut self, o: &Outcome) -> Option<Reply>
        requires ready { self.old.ready ≡ true }
        requires can { CanFollow (ahead self.old []) o.now }
        ensures fed { Fed self.old o.now result self.new }
    {
        let part = &self.part;
        let line = part.lines.get(self.done as usize);
        self.ready = false;
        let Some(reply) = line::feed(&mut self.phase, self.alloc, line, o) else {
            return None;
        };
        self.done += 1;
        self.phase = phase_at(self.alloc, &self.part, self.done);
        Some(reply)
    }

    /// Performs the next action as section `v` of a world: its outcome, and the line's reply where the line then has it.
    /// Where memory runs out, the world and the progress are as before.
    pub fn turn<A: Access>(
        &mut self,
        v: u32,
        a: &mut A,
    ) -> Result<(Outcome, Option<Reply>), NoMemory>
        requires unfinished { self.old.done < length self.old.part.lines }
        requires section { slice_get (A.actors a.old) v ≡ Some self.old.part.actor }
        requires few { IsTrue (has_steps_left (A.totals a.old) v) }
        ensures ok { IfOk result
            (λ r. TakesTurn (A.told a.old) self.old r.0 r.1 (A.told a.new) self.new) }
        ensures counts { IfOk result (λ r. A.totals a.new ≡ counted_at (A.totals a.old) v r.0) }
        ensures actors { A.actors a.new ≡ A.actors a.old }
        ensures err { OnErr result (GoesOn self.old self.new) }
        ensures err_ready { OnErr result (self.new.ready ≡ self.old.ready) }
        ensures err_told { OnErr result (A.told a.new ≡ A.told a.old) }
        ensures err_totals { OnErr result (A.totals a.new ≡ A.totals a.old) }
    {
        let ready = self.ready;
        let action = self.next()?;
        match a.act(v, action) {
            Ok(outcome) => {
                let reply = self.feed_by(&outcome);
                Ok((outcome, reply))
            }
            Err(e) => {
                self.ready = ready;
                Err(e)
            }
        }
    }

    /// As `turn`, of whose outcome nothing is wanted but the reply.
    #[inline(always)]
    pub fn go<A: Access>(&mut self, v: u32, a: &mut A) -> Result<Option<Reply>, NoMemory>
        requires unfinished { self.old.done < length self.old.part.lines }
        requires section { slice_get (A.actors a.old) v ≡ Some self.old.part.actor }
        requires few { IsTrue (has_steps_left (A.totals a.old) v) }
        ensures ok { IfOk result (λ reply. (o : Outcome)
            × TakesTurn (A.told a.old) self.old o reply (A.told a.new) self.new
            × (A.totals a.new ≡ counted_at (A.totals a.old) v o)) }
        ensures actors { A.actors a.new ≡ A.actors a.old }
        ensures err { OnErr result (GoesOn self.old self.new) }
        ensures err_ready { OnErr result (self.new.ready ≡ self.old.ready) }
        ensures err_told { OnErr result (A.told a.new ≡ A.told a.old) }
        ensures err_totals { OnErr result (A.totals a.new ≡ A.totals a.old) }
    {
        let part = &self.part;
        let line = part.lines.get(self.done as usize);
        let reply = line::go(&mut self.phase, self.alloc, line, v, a)?;
        self.ready = false;
        let Some(reply) = reply else {
            return Ok(None);
        };
        self.done += 1;
        self.phase = phase_at(self.alloc, &self.part, self.done);
        Ok(Some(reply))
    }

    /// As `turn`, with the outcome in short.
    pub fn step<A: Access>(&mut self, v: u32, a: &mut A) -> Result<(Short, Option<Reply>), NoMemory>
        requires unfinished { self.old.done < length self.old.part.lines }
        requires section { slice_get (A.actors a.old) v ≡ Some self.old.part.actor }
        requires few { IsTrue (has_steps_left (A.totals a.old) v) }
        ensures ok { IfOk result
            (λ r. TakesStep (A.told a.old) self.old r (A.told a.new) self.new) }
        ensures counts { IfOk result (λ r. CountsIn (A.totals a.old) v r.0 (A.totals a.new)) }
        ensures actors { A.actors a.new ≡ A.actors a.old }
        ensures err { OnErr result (GoesOn self.old self.new) }
        ensures err_ready { OnErr result (self.new.ready ≡ self.old.ready) }
        ensures err_told { OnErr result (A.told a.new ≡ A.told a.old) }
        ensures err_totals { OnErr result (A.totals a.new ≡ A.totals a.old) }
    {
        let (outcome, reply) = self.turn(v, a)?;
        Ok((short_of(&outcome), reply))
    }
}

// Whether so many lines are all of a section's.
fn is_past(part: &Part, done: u32) -> bool
    ensures { IsTrue result ↔ (length part.now.lines ≤ done) }
{
    part.lines.len() <= done as usize
}

// The phase at which a line of a section begins, or the end.
#[inline(always)]
fn phase_at(alloc: Global, part: &Part, done: u32) -> Phase
    ensures { Begins part.now.actor (drop done part.now.lines) result }
{
    let place = done as usize;
    if place < part.lines.len() {
        line::start(alloc, part.actor, part.lines.get(place))
    } else {
        Phase::Ended
    }
}
