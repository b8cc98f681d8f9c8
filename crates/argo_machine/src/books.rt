//! What a machine writes down of its steps: the schedule in runs, the lines that are done, and the steps of their replies.

ghost use Rattle.std.specs.Prelude.{◌≡◌, ◌++◌, ◌^◌, ◌<◌, vec_len, vec_capacity, length};
ghost use Rattle.argo_model.specs.Runs.Final.{grown, done_lines, schedule_of};
ghost use Rattle.argo_machine.specs.Replies.{reply_steps};

use argo_base::NoMemory;
use argo_model::{DoneLine, Reply, Run};
use std::alloc::Global;

/// The schedule so far in runs, the lines that are done, and for each of these the number of its section's step at which its
/// reply came.
#[derive(Drop)]
pub(crate) struct Books {
    pub(crate) runs: Vec<Run>,
    pub(crate) done: Vec<DoneLine>,
    pub(crate) reply_steps: Vec<u64>,
}

impl Books {
    ghost use Rattle.std.specs.Prelude.{[], OnOk, IfOk};
    ghost use Rattle.argo_machine.specs.Books.{HasRoom, SameBooks, Notes};

    /// Empty books, with room for the replies of so many lines.
    pub(crate) fn with_room(alloc: Global, lines: usize) -> Result<Books, NoMemory>
        ensures runs { IfOk result (λ b. b.runs.items ≡ []) }
        ensures done { IfOk result (λ b. b.done.items ≡ []) }
        ensures steps { IfOk result (λ b. b.reply_steps.items ≡ []) }
    {
        let done = Vec::with_capacity(alloc, lines)?;
        let reply_steps = Vec::with_capacity(alloc, lines)?;
        Ok(Books {
            runs: Vec::new(alloc),
            done,
            reply_steps,
        })
    }

    /// Takes the memory that one `note` wants.
    #[inline(always)]
    pub(crate) fn reserve(&mut self) -> Result<(), NoMemory>
        ensures same { SameBooks self.old self.new }
        ensures room { OnOk result (HasRoom self.new) }
    {
        self.runs.reserve(1)?;
        self.done.reserve(1)?;
        self.reply_steps.reserve(1)?;
        Ok(())
    }

    /// Notes a step of section `v`, its `step`-th, at a line, and the reply where it came with it.
    #[inline(always)]
    pub(crate) fn note(&mut self, v: u32, step: u64, line: u32, reply: Option<Reply>)
        requires room { HasRoom self.old }
        requires small { length (schedule_of self.old.runs.items) < 2 ^ 63 }
        ensures { Notes self.old v step line reply self.new }
    {
        note_run(&mut self.runs, v);
        let Some(reply) = reply else {
            return;
        };
        self.reply_steps.push_reserved(step);
        self.done.push_reserved(DoneLine {
            vcpu: v,
            line,
            reply,
        });
    }
}

// Notes one step more of a section.
fn note_run(runs: &mut Vec<Run>, v: u32)
    requires room { vec_len runs.old < vec_capacity runs.old }
    requires small { length (schedule_of runs.old.items) < 2 ^ 63 }
    ensures { runs.new.items ≡ grown runs.old.items v }
{
    let n = runs.len();
    if n == 0 {
        runs.push_reserved(Run { vcpu: v, count: 1 });
        return;
    }
    let last = runs[n - 1];
    if last.vcpu == v {
        runs[n - 1] = Run {
            vcpu: v,
            count: last.count + 1,
        };
        return;
    }
    runs.push_reserved(Run { vcpu: v, count: 1 });
}
