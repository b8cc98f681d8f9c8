//! Copies of what is done from.

ghost use Rattle.std.specs.Prelude.{◌≡◌, IfOk};

use argo_base::{Bytes, NoMemory};
use argo_model::{Line, Lines, Part};
use std::alloc::Global;

/// A part with copies of its lines.
pub fn copy_of_part(alloc: Global, part: &Part) -> Result<Part, NoMemory>
    ensures { IfOk result (λ copy. copy ≡ part.now) }
{
    let lines = copy_of_lines(alloc, part.lines.as_slice())?;
    Ok(Part {
        actor: part.actor,
        lines,
    })
}

fn copy_of_lines(alloc: Global, lines: &[Line]) -> Result<Lines, NoMemory>
    ensures { IfOk result (λ copies. copies ≡ lines.now) }
{
    let mut copies = Lines::new(alloc);
    for line in lines {
        copies.push(copy_of_line(alloc, line)?)?;
    }
    Ok(copies)
}

fn copy_of_line(alloc: Global, line: &Line) -> Result<Line, NoMemory>
    ensures { IfOk result (λ copy. copy ≡ line.now) }
{
    Ok(match line {
        Line::Store { at, bytes } => Line::Store {
            at: *at,
            bytes: Bytes::copy_of(alloc, bytes.as_slice())?,
        },
        Line::Load { at, n } => Line::Load { at: *at, n: *n },
        Line::Op { c, a1, a2, a3, a4 } => Line::Op {
            c: *c,
            a1: *a1,
            a2: *a2,
            a3: *a3,
            a4: *a4,
        },
        Line::Await { turns } => Line::Await { turns: *turns },
        Line::Recv { page, len } => Line::Recv {
            page: *page,
            len: *len,
        },
        Line::Destroy { dom } => Line::Destroy { dom: *dom },
        Line::Reset { dom } => Line::Reset { dom: *dom },
        Line::Create { dom } => Line::Create { dom: *dom },
    })
}
