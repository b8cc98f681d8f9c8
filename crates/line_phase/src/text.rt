//! What is put into a range, and what follows it.

ghost use Rattle.std.specs.Prelude.{◌≡◌, ◌<◌, ◌≤◌, [], length, IsTrue, IfOk, OnErr};
ghost use Rattle.line_phase.specs.Cursor.{pieces_left, IsSound};
ghost use Rattle.argo_model.specs.Rules.Access.{has_steps_left};
ghost use Rattle.argo_model.specs.Rules.Fit.{is_fit};
ghost use Rattle.argo_model.specs.Programs.Asks.{Say, Do, Next, Rests, put_all};
ghost use Rattle.line_phase.specs.Acting.{MayPut, Puts};
ghost use Rattle.line_phase.specs.Ranges.{IsOver, PutsFirst};
ghost use Rattle.line_phase.specs.Text.{stored_by};

use crate::cursor::Cursor;
use crate::layout::{answer_bytes, answer_text};
use crate::phase::{Followed, Phase, Text};
use crate::ranges::Moved;
use crate::refusal::refusal;
use argo_base::{Bytes, Errno, NoMemory};
use argo_model::{Access, Action, Line, Outcome, Reply};
use std::alloc::Global;

impl Text {
    ghost use Rattle.line_phase.specs.Text.{text_of, after_put, if_not_put, IsText, most_after_put};
    ghost use Rattle.line_phase.specs.Phase.{rest_of, IsWriting};
    ghost use Rattle.line_phase.specs.Followed.{Leads, PutsTo};
    ghost use Rattle.line_phase.specs.Acting.{MayGo, Performs};

    /// The put of the first piece of what is left of a range.
    pub fn put_first(&self, alloc: Global, line: &Line, rest: Cursor) -> Result<Action, NoMemory>
        requires { IsWriting line.now rest self.now }
        ensures is { IfOk result (λ a. rest_of line.now (Phase.Writing rest self.now) [] ≡ Do a) }
        ensures fit { IfOk result (λ a. IsTrue (is_fit a)) }
    {
        match self {
            Text::Stored => put_last(alloc, rest, stored(line)),
            Text::Answer { answer, .. } => {
                let bytes = answer_text(alloc, *answer)?;
                put_last(alloc, rest, bytes.as_slice())
            }
        }
    }

    /// Performs the put of the first piece of what is left of a range, as section `v` of a world.
    pub fn put_in<A: Access>(
        &self,
        line: &Line,
        rest: Cursor,
        v: u32,
        a: &mut A,
    ) -> Result<Outcome, NoMemory>
        requires writing { IsWriting line.now rest self.now }
        requires may { MayGo (A.actors a.old) v
            (rest_of line.now (Phase.Writing rest self.now) []) }
        requires few { IsTrue (has_steps_left (A.totals a.old) v) }
        ensures ok { IfOk result (λ o. Performs (A.actors a.old) v
            (rest_of line.now (Phase.Writing rest self.now) []) (A.told a.old) (A.totals a.old) o
            (A.told a.new) (A.totals a.new)) }
        ensures actors { A.actors a.new ≡ A.actors a.old }
        ensures err_told { OnErr result (A.told a.new ≡ A.told a.old) }
        ensures err_totals { OnErr result (A.totals a.new ≡ A.totals a.old) }
    {
        match self {
            Text::Stored => put_part(rest, stored(line), v, a),
            Text::Answer { answer, .. } => put_part(rest, &answer_bytes(*answer), v, a),
        }
    }

    /// Where a line goes that puts, once an outcome has moved it past its last piece.
    pub fn put_on(&self, alloc: Global, moved: Moved) -> Followed
        requires over { IsOver moved }
        requires text { IsText self.now }
        ensures { PutsTo moved self.now result }
    {
        match moved {
            Moved::More => unreachable!(),
            Moved::Whole => self.put(alloc),
            Moved::Failed => Followed::Over(self.failed()),
            Moved::Ended => Followed::Over(Reply::Gone),
        }
    }

    // Where the line goes when all is put.
    fn put(&self, alloc: Global) -> Followed
        requires { IsText self.now }
        ensures { Leads (after_put self.now) (most_after_put self.now) result }
    {
        match self {
            Text::Stored => Followed::Over(Reply::Stored),
            Text::Answer { entry, .. } => entry.next(alloc),
        }
    }

    // The reply when a page is not there.
    fn failed(&self) -> Reply
        ensures { Say result ≡ if_not_put self.now }
    {
        match self {
            Text::Answer { .. } => refusal(Errno::Fault),
            Text::Stored => Reply::Fault,
        }
    }
}

// The bytes of a store.
fn stored(line: &Line) -> &[u8]
    ensures { result.now ≡ stored_by line.now }
{
    match line {
        Line::Store { bytes, .. } => bytes.as_slice(),
        _ => &[],
    }
}

// The put of the first piece of what is left of a range, which takes the last of the bytes.
fn put_last(alloc: Global, rest: Cursor, bytes: &[u8]) -> Result<Action, NoMemory>
    requires some { 0 < rest.left }
    requires sound { IsSound rest }
    requires size { rest.left ≤ length bytes.now }
    ensures is { IfOk result (PutsFirst rest bytes.now) }
    ensures fit { IfOk result (λ a. IsTrue (is_fit a)) }
{
    let (piece, _) = rest.split_first();
    let (_, left) = bytes.split_at(bytes.len() - rest.left as usize);
    let (part, _) = left.split_at(piece.n as usize);
    Ok(Action::Put {
        page: piece.page,
        off: piece.off,
        bytes: Bytes::copy_of(alloc, part)?,
    })
}

// Puts the first piece of what is left of a range, which takes the last of the bytes.
#[inline(always)]
fn put_part<A: Access>(rest: Cursor, bytes: &[u8], v: u32, a: &mut A) -> Result<Outcome, NoMemory>
    requires some { 0 < rest.left }
    requires sound { IsSound rest }
    requires size { rest.left ≤ length bytes.now }
    requires may { MayPut (A.actors a.old) v rest bytes.now }
    requires few { IsTrue (has_steps_left (A.totals a.old) v) }
    ensures ok { IfOk result (λ o. Puts (A.actors a.old) v rest bytes.now (A.told a.old)
        (A.totals a.old) o (A.told a.new) (A.totals a.new)) }
    ensures actors { A.actors a.new ≡ A.actors a.old }
    ensures err_told { OnErr result (A.told a.new ≡ A.told a.old) }
    ensures err_totals { OnErr result (A.totals a.new ≡ A.totals a.old) }
{
    let (piece, _) = rest.split_first();
    let (_, left) = bytes.split_at(bytes.len() - rest.left as usize);
    let (part, _) = left.split_at(piece.n as usize);
    a.put(v, piece.page, piece.off, part)
}
