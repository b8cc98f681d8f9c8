//! Why a line has its reply: its steps with their places in the schedule, and the reply.

ghost use Rattle.std.specs.Prelude.{◌≡◌, ◌∷◌, [], ◌++◌, IfOk, OnOk, IsTrue, flat_map, slice_get};
ghost use Rattle.argo_model.specs.Runs.Run.{IsComplete, is_open, run as run_under};
ghost use Rattle.argo_model.specs.Runs.Final.{schedule_of};
ghost use Rattle.argo_check.specs.Moves.{Goes, Replayed};
ghost use Rattle.argo_check.specs.Walks.{CanGo, IsWalk};
ghost use Rattle.argo_check.specs.Why.{has_line, is_asked, step_line, shown_step, reply_line, shown_reply, why_text};

use crate::words::Place;
use argo_base::{Bytes, NoMemory};
use argo_machine::Machine;
use argo_model::{DoneLine, Reply, Run, Scripts, Short};
use flat_world::FlatWorld;
use report_text::reply_text;
use std::alloc::Global;
use vcpu_machine::short_of;

/// The steps of a line and its reply, under the complete schedule of these runs.
pub(crate) fn why_text(
    alloc: Global,
    scripts: &Scripts,
    runs: &[Run],
    place: Place,
) -> Result<Bytes, NoMemory>
    requires { IsComplete scripts.now (schedule_of runs.now) }
    ensures { IfOk result (λ text. text ≡ why_text place scripts.now (schedule_of runs.now)) }
{
    if !has_line(scripts, place) {
        return Bytes::copy_of(alloc, b"no such line\n");
    }
    let walk = walk_through(alloc, scripts, runs, place)?;
    let Walk {
        machine,
        mut text,
        ..
    } = walk;
    let shown = machine.finish()?;
    push_replies(&mut text, alloc, shown.done.as_slice(), place)?;
    Ok(text)
}

// Whether the script has the line.
fn has_line(scripts: &Scripts, place: Place) -> bool
    ensures { result ≡ has_line (slice_get scripts.now.sections place.vcpu) place.line }
{
    match scripts.parts.as_slice().get(place.vcpu as usize) {
        Some(part) => 1 <= place.line && place.line <= part.lines.len() as u64,
        None => false,
    }
}

// Whether that is the line that is asked for.
fn is_asked(place: Place, vcpu: u32, line: u64) -> bool
    ensures { result ≡ is_asked place vcpu line }
{
    u64::from(vcpu) == place.vcpu && line == place.line
}

// A second replay, which shows the steps of one line.
#[derive(Drop)]
struct Walk {
    machine: Machine<FlatWorld>,
    /// How many steps were made.
    steps: u64,
    /// The lines that are shown of them.
    text: Bytes,
}

// Walks through a whole schedule.
fn walk_through(
    alloc: Global,
    scripts: &Scripts,
    runs: &[Run],
    place: Place,
) -> Result<Walk, NoMemory>
    requires { IsComplete scripts.now (schedule_of runs.now) }
    ensures replayed { IfOk result
        (λ w. Replayed scripts.now (schedule_of runs.now) w.machine) }
    ensures walk { IfOk result (λ w. IsWalk place w.machine w.steps w.text) }
{
    let mut walk = Walk {
        machine: Machine::<FlatWorld>::new(alloc, scripts)?,
        steps: 0,
        text: Bytes::new(alloc),
    };
    for run in runs {
        walk.make_run(alloc, *run, place)?;
    }
    Ok(walk)
}

impl Walk {
    // Makes the steps of a run.
    fn make_run(&mut self, alloc: Global, run: Run, place: Place) -> Result<(), NoMemory>
        requires can { CanGo self.old.machine run }
        requires walk { IsWalk place self.old.machine self.old.steps self.old.text }
        ensures goes { OnOk result (Goes self.old.machine run self.new.machine) }
        ensures walk { OnOk result
            (IsWalk place self.new.machine self.new.steps self.new.text) }
    {
        for _ in 0..run.count {
            self.make_step(alloc, run.vcpu, place)?;
        }
        Ok(())
    }

    // Makes one step, and shows it where it is one of the line.
    fn make_step(&mut self, alloc: Global, v: u32, place: Place) -> Result<(), NoMemory>
        requires open { IsTrue (is_open
            (run_under self.old.machine.script self.old.machine.schedule) v) }
        requires walk { IsWalk place self.old.machine self.old.steps self.old.text }
        ensures script { OnOk result (self.new.machine.script ≡ self.old.machine.script) }
        ensures schedule { OnOk result
            (self.new.machine.schedule ≡ self.old.machine.schedule ++ v ∷ []) }
        ensures walk { OnOk result
            (IsWalk place self.new.machine self.new.steps self.new.text) }
    {
        let line = u64::from(self.machine.done_lines(v).unwrap_or(0)) + 1;
        let outcome = self.machine.step(v)?;
        self.steps += 1;
        let made = Made {
            at: self.steps,
            vcpu: v,
            line,
            short: short_of(&outcome),
        };
        push_made(&mut self.text, alloc, made, place)?;
        Ok(())
    }
}

// A step that was made.
#[derive(Clone, Copy)]
struct Made {
    /// Its place in the schedule, from 1.
    at: u64,
    vcpu: u32,
    line: u64,
    /// Its outcome in short.
    short: Short,
}

// Adds the line of a step, where it is one of the line that is asked for.
fn push_made(text: &mut Bytes, alloc: Global, made: Made, place: Place) -> Result<(), NoMemory>
    ensures { OnOk result (text.new
        ≡ text.old ++ shown_step place made.at made.vcpu made.line made.short) }
{
    if is_asked(place, made.vcpu, made.line) {
        push_step(text, alloc, made.at, made.short)?;
    }
    Ok(())
}

// Adds the line of a step.
fn push_step(text: &mut Bytes, alloc: Global, at: u64, short: Short) -> Result<(), NoMemory>
    ensures { OnOk result (text.new ≡ text.old ++ step_line at short) }
{
    let line = format!(in alloc; "step {at} {}.{}\n", short.tag, short.value)?;
    text.append(line.as_bytes())
}

// Adds the reply of the line that is asked for.
fn push_replies(
    text: &mut Bytes,
    alloc: Global,
    done: &[DoneLine],
    place: Place,
) -> Result<(), NoMemory>
    ensures { OnOk result (text.new ≡ text.old ++ flat_map (shown_reply place) done.now) }
{
    for line in done {
        if is_asked(place, line.vcpu, u64::from(line.line)) {
            push_reply(text, alloc, &line.reply)?;
        }
    }
    Ok(())
}

// Adds the line of a reply.
fn push_reply(text: &mut Bytes, alloc: Global, reply: &Reply) -> Result<(), NoMemory>
    ensures { OnOk result (text.new ≡ text.old ++ reply_line reply.now) }
{
    let words = reply_text(alloc, reply)?;
    text.append(b"reply ")?;
    text.append(words.as_slice())?;
    text.append(b"\n")
}
