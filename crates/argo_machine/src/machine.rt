//! The machine and what it keeps of a run.

ghost use Rattle.std.specs.Prelude.{OnOk, ◌≡◌, ◌<◌, ◌^◌, ◌↔◌, [], false, IfOk, OnErr, IsTrue, option_map, slice_get};
ghost use Rattle.std.specs.List.{list_all};
ghost use Rattle.argo_model.specs.Runs.Run.{run, is_open, is_finished, IsComplete};
ghost use Rattle.argo_model.specs.Runs.Final.{final_of};
ghost use Rattle.argo_model.specs.Runs.Closed.{closed_domains, heard_all};
ghost use Rattle.argo_machine.specs.Machine.{OneStep};

use crate::books::Books;
use crate::copies::copy_of_scripts;
use crate::replies::heard_of_all;
use crate::vcpus::{lines_of, vcpus_of};
use argo_base::NoMemory;
use argo_model::{
    ClosedDomains, DomainLines, DoneList, Final, Heard, Outcome, Runs, Scripts, SerialWorld,
};
use std::alloc::Global;
use std::marker::Model;
use vcpu_machine::Vcpu;

/// The machine over a script and a serial world: it runs the script, step by step, under any schedule. Contracts see what it runs,
/// the schedule so far, and how many steps are to come at most.
#[derive(Drop)]
pub struct Machine<W: SerialWorld> {
    version: u32,
    domains: DomainLines,
    kept: Kept<W>,
    alloc: Global,
}

impl<W: SerialWorld> Model for Machine<W> {
    ghost use Rattle.argo_machine.specs.Machine.{Standing, standing_of, IsKept};

    ghost Value = { Standing };

    ghost view = { standing_of };

    ghost invariant = { IsKept };
}

impl<W: SerialWorld> Machine<W> {
    /// The machine before the first step of a script.
    pub fn new(alloc: Global, scripts: &Scripts) -> Result<Machine<W>, NoMemory>
        ensures script { IfOk result (λ m. m.script ≡ scripts.now) }
        ensures schedule { IfOk result (λ m. m.schedule ≡ []) }
        ensures left { IfOk result (λ m. m.left < 2 ^ 32) }
    {
        Machine::taking(alloc, copy_of_scripts(alloc, scripts)?)
    }

    /// As `new`, of a script that is given away: none of its lines is copied.
    pub fn taking(alloc: Global, scripts: Scripts) -> Result<Machine<W>, NoMemory>
        ensures script { IfOk result (λ m. m.script ≡ scripts) }
        ensures schedule { IfOk result (λ m. m.schedule ≡ []) }
        ensures left { IfOk result (λ m. m.left < 2 ^ 32) }
    {
        let books = Books::with_room(alloc, lines_of(scripts.parts.as_slice()))?;
        let room = Vec::with_capacity(alloc, scripts.parts.len())?;
        let world = W::start(alloc, &scripts)?;
        let Scripts {
            version,
            domains,
            parts,
        } = scripts;
        let vcpus = vcpus_of(alloc, room, parts);
        Ok(Machine {
            version,
            domains,
            kept: Kept {
                vcpus,
                world,
                books,
            },
            alloc,
        })
    }

    /// Whether a section has no line left. It is true also of a number that is no section's.
    pub fn finished(&self, v: u32) -> bool
        ensures { IsTrue result ↔ (is_open (run self.now.script self.now.schedule) v ≡ false) }
    {
        let kept = &self.kept;
        match kept.vcpus.get(v as usize) {
            Some(vcpu) => vcpu.finished(),
            None => true,
        }
    }

    /// How many lines of a section are done, where the number is a section's.
    pub fn done_lines(&self, v: u32) -> Option<u32>
        ensures { result ≡ option_map (λ p. p.done)
            (slice_get (run self.now.script self.now.schedule).sections v) }
    {
        let kept = &self.kept;
        let vcpu = kept.vcpus.get(v as usize)?;
        Some(vcpu.done_lines())
    }

    /// One step of a section that is not finished, and its outcome. Where memory runs out, the machine is as before.
    pub fn step(&mut self, v: u32) -> Result<Outcome, NoMemory>
        requires { IsTrue (is_open (run self.old.script self.old.schedule) v) }
        ensures ok { IfOk result (λ o. OneStep self.old v o self.new) }
        ensures err { OnErr result (self.new ≡ self.old) }
    {
        self.kept.advance(v)
    }

    /// As `step`, of whose outcome nothing is wanted.
    #[inline(always)]
    pub fn go(&mut self, v: u32) -> Result<(), NoMemory>
        requires { IsTrue (is_open (run self.old.script self.old.schedule) v) }
        ensures ok { OnOk result ((o : Outcome) × OneStep self.old v o self.new) }
        ensures err { OnErr result (self.new ≡ self.old) }
    {
        self.kept.go(v)
    }

    /// The domains as they stand, and for each section its replies so far with their steps. All is copied, the domains' memory
    /// too.
    pub fn closed(&self) -> Result<(ClosedDomains, Heard), NoMemory>
        ensures domains { IfOk result
            (λ c. c.0 ≡ closed_domains (run self.now.script self.now.schedule).state) }
        ensures heard { IfOk result (λ c. c.1 ≡ heard_all (run self.now.script self.now.schedule)) }
    {
        let kept = &self.kept;
        let domains = kept.world.closed()?;
        let sections = kept.vcpus.len();
        let heard = heard_of_all(
            self.alloc,
            sections,
            kept.books.done.as_slice(),
            kept.books.reply_steps.as_slice(),
        )?;
        Ok((domains, heard))
    }

    /// What a report shows of the whole run. Where memory runs out, the machine is lost.
    pub fn finish(self) -> Result<Final, NoMemory>
        requires { IsTrue (list_all is_finished (run self.script self.schedule).sections) }
        ensures shown { IfOk result (λ f. f ≡ final_of self.script self.schedule) }
        ensures complete { IfOk result (λ f. IsComplete self.script self.schedule) }
    {
        let Machine { version, kept, .. } = self;
        let Kept { world, books, .. } = kept;
        let (domains, totals) = world.into_finals()?;
        Ok(Final {
            version,
            runs: Runs::from_vec(books.runs),
            done: DoneList::from_vec(books.done),
            domains,
            totals,
        })
    }
}

/// What a machine keeps of a run.
#[derive(Drop)]
pub(crate) struct Kept<W: SerialWorld> {
    vcpus: Vec<Vcpu>,
    world: W,
    books: Books,
}

impl<W: SerialWorld> Model for Kept<W> {
    ghost use Rattle.argo_machine.specs.Kept.{KeptAt};

    ghost Value = { KeptAt };

    ghost view = { λ k. record {
      vcpus = k.vcpus.items;
      world = record {
        told = W.told k.world;
        actors = W.actors k.world;
        totals = W.totals k.world;
      };
      runs = k.books.runs.items;
      done = k.books.done.items;
      reply_steps = k.books.reply_steps.items;
    } };
}

impl<W: SerialWorld> Kept<W> {
    ghost use Rattle.argo_machine.specs.Kept.{IsOpenIn, AdvancesBy, StaysKept};

    // One step of a section, of whose outcome nothing is wanted.
    #[inline(always)]
    fn go(&mut self, v: u32) -> Result<(), NoMemory>
        requires { IsOpenIn self.old v }
        ensures ok { OnOk result ((o : Outcome) × AdvancesBy self.old v o self.new) }
        ensures err { OnErr result (StaysKept self.old self.new) }
    {
        self.books.reserve()?;
        let vcpu = &mut self.vcpus[v as usize];
        let line = vcpu.done_lines() + 1;
        let reply = vcpu.go(v, &mut self.world)?;
        let step = self.world.steps(v);
        self.books.note(v, step, line, reply);
        Ok(())
    }

    // One step of a section.
    fn advance(&mut self, v: u32) -> Result<Outcome, NoMemory>
        requires { IsOpenIn self.old v }
        ensures ok { IfOk result (λ o. AdvancesBy self.old v o self.new) }
        ensures err { OnErr result (StaysKept self.old self.new) }
    {
        self.books.reserve()?;
        let vcpu = &mut self.vcpus[v as usize];
        let line = vcpu.done_lines() + 1;
        let (outcome, reply) = vcpu.turn(v, &mut self.world)?;
        let step = self.world.steps(v);
        self.books.note(v, step, line, reply);
        Ok(outcome)
    }
}
