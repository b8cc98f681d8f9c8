//! The replies of each section, out of what the machine writes down.

ghost use Rattle.std.specs.Prelude.{◌≡◌, ◌++◌, IfOk, OnOk, map, length};
ghost use Rattle.std.specs.List.{range_with_len};
ghost use Rattle.argo_machine.specs.Replies.{heard_among, heard_line_by};

use argo_base::{Bytes, NoMemory};
use argo_model::{DoneLine, Heard, HeardLine, HeardLines, Reply};
use std::alloc::Global;

/// The replies of each of `sections` sections, where these are the lines that are done and the numbers of their steps.
pub(crate) fn heard_of_all(
    alloc: Global,
    sections: usize,
    done: &[DoneLine],
    steps: &[u64],
) -> Result<Heard, NoMemory>
    requires { length steps.now ≡ length done.now }
    ensures { IfOk result
        (λ heard. heard ≡ map (heard_among done.now steps.now) (range_with_len 0 sections)) }
{
    let mut heard = Heard::new(alloc);
    for v in 0..sections {
        heard.push(heard_of_one(alloc, v, done, steps)?)?;
    }
    Ok(heard)
}

fn heard_of_one(
    alloc: Global,
    v: usize,
    done: &[DoneLine],
    steps: &[u64],
) -> Result<HeardLines, NoMemory>
    requires { length steps.now ≡ length done.now }
    ensures { IfOk result (λ heard. heard ≡ heard_among done.now steps.now v) }
{
    let mut heard = HeardLines::new(alloc);
    for (i, line) in done.iter().enumerate() {
        hear(alloc, &mut heard, v, line, steps[i])?;
    }
    Ok(heard)
}

// Adds the reply of a line that is done, where it is a line of section v.
fn hear(
    alloc: Global,
    heard: &mut HeardLines,
    v: usize,
    line: &DoneLine,
    step: u64,
) -> Result<(), NoMemory>
    ensures { OnOk result (heard.new ≡ heard.old ++ heard_line_by v line.now step) }
{
    if line.vcpu as usize == v {
        heard.push(HeardLine {
            reply: copy_of_reply(alloc, &line.reply)?,
            step,
        })?;
    }
    Ok(())
}

fn copy_of_reply(alloc: Global, reply: &Reply) -> Result<Reply, NoMemory>
    ensures { IfOk result (λ copy. copy ≡ reply.now) }
{
    Ok(match reply {
        Reply::Stored => Reply::Stored,
        Reply::Hex(bytes) => Reply::Hex(Bytes::copy_of(alloc, bytes.as_slice())?),
        Reply::Number(n) => Reply::Number(*n),
        Reply::Signal => Reply::Signal,
        Reply::NoSignal => Reply::NoSignal,
        Reply::Msg {
            src,
            port,
            kind,
            size,
            head,
        } => Reply::Msg {
            src: *src,
            port: *port,
            kind: *kind,
            size: *size,
            head: Bytes::copy_of(alloc, head.as_slice())?,
        },
        Reply::Empty => Reply::Empty,
        Reply::Bad => Reply::Bad,
        Reply::Fault => Reply::Fault,
        Reply::Gone => Reply::Gone,
    })
}
