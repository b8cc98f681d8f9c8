//! Fetches and puts of the caller's own pages, wherever they stand.
ghost use Rattle.std.specs.Prelude.{◌≡◌, ◌+◌, ◌<◌, ◌≤◌, ◌||◌, [], ◌∷◌, length, IsTrue, IfOk, OnErr};
ghost use Rattle.argo_base.specs.Limits.{page_bytes};
ghost use Rattle.argo_model.specs.declared.action.Action.TheVariants.{Fetch, Put};
ghost use Rattle.argo_model.specs.Rules.Outcomes.{is_done, is_fault, is_fetched};
ghost use Rattle.argo_model.specs.Rules.Possible.{is_possible};
ghost use Rattle.argo_board.specs.declared.entry.FlagChange.TheVariants.{Keep};
ghost use Rattle.argo_board.specs.Board.{most_steps};
ghost use Rattle.shared_steps.specs.Passes.{noted, stepped};

use argo_base::{Bytes, NoMemory, PAGE_BYTES, Piece, slots};
use argo_board::{Board, FlagChange};
use argo_model::Outcome;
use guest_pages::Private;
use lock_tokens::Gate;
use ring_core::Ring;
use shared_caller::Caller;
use shared_parts::Plan;
use shared_steps::{Pause, WorldPass};
use std::alloc::Global;
use std::sync::Wait;
use std::sync::ledger::Ledger;

/// Bytes that are put into a page, from an offset on.
#[derive(Clone, Copy)]
pub struct Writing<'a> {
    pub page: u64,
    pub off: u32,
    pub bytes: &'a [u8],
}

/// Fetches a piece of the caller's memory, from the ring that its page stands in or from the private pages.
pub fn fetch<A: Plan, B: Ledger, C: Ledger, P: Pause, R: Wait>(
    caller: &Caller<'_, A, B, C, P>,
    rt: &R,
    pass: &mut WorldPass<A, B, C>,
    from: Piece,
) -> Result<Outcome, NoMemory>
    requires held { pass.old.held ≡ 1 ∷ [] }
    requires few { pass.old.tally.steps < most_steps }
    requires in_page { from.off + from.n ≤ page_bytes }
    ensures possible { IfOk result
        (λ o. IsTrue (is_possible A.facts caller.now (Fetch from.page from.off from.n) o)) }
    ensures pass { IfOk result (λ o. pass.new ≡ stepped pass.old o) }
    ensures err { OnErr result (pass.new ≡ pass.old) }
{
    if from.page >= u64::from(caller.party.pages) {
        return caller.steps.note(rt, pass, Outcome::Fault);
    }
    let rings = pass.read(rt, &caller.party.live.rings);
    let outcome = match rings.value().home_of(from.page) {
        Some(home) => fetch_from_ring(caller, rt, pass, home, from),
        None => fetch_private(caller, rt, pass, from),
    };
    pass.end_read(rings);
    outcome
}

// Fetches a piece of a page that stands in a ring.
fn fetch_from_ring<A: Plan, B: Ledger, C: Ledger, P: Pause, R: Wait>(
    caller: &Caller<'_, A, B, C, P>,
    rt: &R,
    pass: &mut WorldPass<A, B, C>,
    home: (&Gate<Ring, 3>, usize),
    from: Piece,
) -> Result<Outcome, NoMemory>
    requires held { pass.old.held ≡ 1 ∷ 2 ∷ [] }
    requires few { pass.old.tally.steps < most_steps }
    requires in_page { from.off + from.n ≤ page_bytes }
    ensures can { IfOk result (λ o. IsTrue (is_fetched from.n o)) }
    ensures pass { IfOk result (λ o. pass.new ≡ stepped pass.old o) }
    ensures err { OnErr result (pass.new ≡ pass.old) }
{
    let (ring, place) = home;
    let ring = pass.lock(rt, ring);
    let outcome = match read_ring(caller.steps.alloc, ring.value(), place, from) {
        Ok(outcome) => caller.steps.note(rt, pass, outcome),
        Err(refused) => Err(refused),
    };
    pass.unlock(ring);
    outcome
}

// Fetches a piece of a private page.
fn fetch_private<A: Plan, B: Ledger, C: Ledger, P: Pause, R: Wait>(
    caller: &Caller<'_, A, B, C, P>,
    rt: &R,
    pass: &mut WorldPass<A, B, C>,
    from: Piece,
) -> Result<Outcome, NoMemory>
    requires held { pass.old.held ≡ 1 ∷ 2 ∷ [] }
    requires few { pass.old.tally.steps < most_steps }
    requires in_page { from.off + from.n ≤ page_bytes }
    ensures can { IfOk result (λ o. IsTrue (is_fetched from.n o)) }
    ensures pass { IfOk result (λ o. pass.new ≡ stepped pass.old o) }
    ensures err { OnErr result (pass.new ≡ pass.old) }
{
    let private = pass.lock(rt, &caller.party.live.private);
    let outcome = match read_private(private.value(), from) {
        Ok(outcome) => caller.steps.note(rt, pass, outcome),
        Err(refused) => Err(refused),
    };
    pass.unlock(private);
    outcome
}

/// Puts bytes into a page of the caller, in the ring that it stands in or among the private pages.
pub fn put<A: Plan, B: Ledger, C: Ledger, P: Pause, R: Wait>(
    caller: &Caller<'_, A, B, C, P>,
    rt: &R,
    pass: &mut WorldPass<A, B, C>,
    writing: Writing<'_>,
) -> Result<Outcome, NoMemory>
    requires held { pass.old.held ≡ 1 ∷ [] }
    requires few { pass.old.tally.steps < most_steps }
    requires in_page { writing.off + length writing.bytes.now ≤ page_bytes }
    ensures possible { IfOk result
        (λ o. IsTrue (is_possible A.facts caller.now
        (Put writing.entry.page writing.entry.off writing.entry.bytes.now) o)) }
    ensures pass { IfOk result (λ o. pass.new ≡ stepped pass.old o) }
    ensures err { OnErr result (pass.new ≡ pass.old) }
{
    if writing.page >= u64::from(caller.party.pages) {
        return caller.steps.note(rt, pass, Outcome::Fault);
    }
    let rings = pass.read(rt, &caller.party.live.rings);
    let outcome = match rings.value().home_of(writing.page) {
        Some(home) => put_into_ring(caller, rt, pass, home, writing),
        None => put_private(caller, rt, pass, writing),
    };
    pass.end_read(rings);
    outcome
}

// Puts bytes into a page that stands in a ring.
fn put_into_ring<A: Plan, B: Ledger, C: Ledger, P: Pause, R: Wait>(
    caller: &Caller<'_, A, B, C, P>,
    rt: &R,
    pass: &mut WorldPass<A, B, C>,
    home: (&Gate<Ring, 3>, usize),
    writing: Writing<'_>,
) -> Result<Outcome, NoMemory>
    requires held { pass.old.held ≡ 1 ∷ 2 ∷ [] }
    requires few { pass.old.tally.steps < most_steps }
    requires in_page { writing.off + length writing.bytes.now ≤ page_bytes }
    ensures can { IfOk result (λ o. IsTrue (is_done o || is_fault o)) }
    ensures pass { IfOk result (λ o. pass.new ≡ stepped pass.old o) }
    ensures err { OnErr result (pass.new ≡ pass.old) }
{
    let (ring, place) = home;
    let mut ring = pass.lock(rt, ring);
    let mut board = pass.lock(rt, &caller.steps.board);
    let at_place = Writing {
        page: place as u64,
        ..writing
    };
    let outcome = put_at(board.value_mut(), pass, ring.value_mut(), at_place);
    pass.unlock(board);
    pass.unlock(ring);
    outcome
}

// Puts bytes into a private page.
fn put_private<A: Plan, B: Ledger, C: Ledger, P: Pause, R: Wait>(
    caller: &Caller<'_, A, B, C, P>,
    rt: &R,
    pass: &mut WorldPass<A, B, C>,
    writing: Writing<'_>,
) -> Result<Outcome, NoMemory>
    requires held { pass.old.held ≡ 1 ∷ 2 ∷ [] }
    requires few { pass.old.tally.steps < most_steps }
    requires in_page { writing.off + length writing.bytes.now ≤ page_bytes }
    ensures can { IfOk result (λ o. IsTrue (is_done o || is_fault o)) }
    ensures pass { IfOk result (λ o. pass.new ≡ stepped pass.old o) }
    ensures err { OnErr result (pass.new ≡ pass.old) }
{
    let mut private = pass.lock(rt, &caller.party.live.private);
    let mut board = pass.lock(rt, &caller.steps.board);
    let outcome = put_at(board.value_mut(), pass, private.value_mut(), writing);
    pass.unlock(board);
    pass.unlock(private);
    outcome
}

// A copy of a piece of a ring's page. A place that is none of the ring's has no bytes.
fn read_ring(alloc: Global, ring: &Ring, place: usize, from: Piece) -> Result<Outcome, NoMemory>
    requires { from.off + from.n ≤ page_bytes }
    ensures { IfOk result (λ o. IsTrue (is_fetched from.n o)) }
{
    let row = ring.row();
    if place >= row.count() {
        return Ok(Outcome::Fault);
    }
    let (_, rest) = row.page(place).split_at(from.off as usize);
    let (part, _) = rest.split_at(from.n as usize);
    Ok(Outcome::Bytes(Bytes::copy_of(alloc, part)?))
}

// A copy of a piece of a private page, if it is there.
fn read_private(private: &Private, from: Piece) -> Result<Outcome, NoMemory>
    requires { from.off + from.n ≤ page_bytes }
    ensures { IfOk result (λ o. IsTrue (is_fetched from.n o)) }
{
    match private.read(from.page, from.off, from.n)? {
        Some(bytes) if bytes.as_slice().len() == from.n as usize => Ok(Outcome::Bytes(bytes)),
        _ => Ok(Outcome::Fault),
    }
}

// Pages that bytes are put into.
trait Pages {
    // Puts bytes into a page, and tells whether the page is there.
    fn put_bytes(&mut self, writing: Writing<'_>) -> Result<bool, NoMemory>
        requires in_page { writing.off + length writing.bytes.now ≤ page_bytes };
}

// A ring's own pages are known by their places. An empty put touches nothing.
impl Pages for Ring {
    fn put_bytes(&mut self, writing: Writing<'_>) -> Result<bool, NoMemory> {
        if writing.page >= u64::from(slots::page_count(self.len())) {
            return Ok(false);
        }
        if !writing.bytes.is_empty() {
            self.write(
                writing.page as u32 * PAGE_BYTES + writing.off,
                writing.bytes,
            );
        }
        Ok(true)
    }
}

impl Pages for Private {
    fn put_bytes(&mut self, writing: Writing<'_>) -> Result<bool, NoMemory> {
        self.write(writing.page, writing.off, writing.bytes)
    }
}

// Puts bytes into a page, as a step.
fn put_at<A: Ledger, B: Ledger, C: Ledger, T: Pages>(
    board: &mut Board<A, B, C>,
    pass: &mut WorldPass<A, B, C>,
    pages: &mut T,
    writing: Writing<'_>,
) -> Result<Outcome, NoMemory>
    requires few { pass.old.tally.steps < most_steps }
    requires in_page { writing.off + length writing.bytes.now ≤ page_bytes }
    ensures can { IfOk result (λ o. IsTrue (is_done o || is_fault o)) }
    ensures pass { IfOk result (λ o. pass.new ≡ stepped pass.old o) }
    ensures entry { IfOk result
        (λ o. board.new.entries ≡ noted board.old.entries pass.old o Keep) }
    ensures err { OnErr result (pass.new ≡ pass.old) }
    ensures stays { OnErr result (board.new.entries ≡ board.old.entries) }
{
    board.reserve()?;
    let outcome = if pages.put_bytes(writing)? {
        Outcome::Done
    } else {
        Outcome::Fault
    };
    Ok(pass.append(board, outcome, FlagChange::Keep))
}
