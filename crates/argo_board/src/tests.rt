//! Three passes note every kind of outcome, in two segments.
ghost use Rattle.std.specs.Prelude.{◌≡◌, ◌+◌, ◌<◌, [], ◌∷◌, IfOk, IfSome};
ghost use Rattle.argo_board.specs.Board.{most_steps};
ghost use Rattle.argo_board.specs.Journal.{IsOutcome};

use crate::examples::noted;
use crate::{Board, Entry, EntryList, FlagChange, Pass};
use argo_base::{DomId, DomList, NoMemory};
use argo_model::{Short, TotalList};
use std::alloc::Global;
use std::marker::Brand;
use std::sync::ledger::{Blank, Ledger};
use std::test::Fail;

/// The steps of each pass: with three passes, more entries than a segment has.
const TURNS: u32 = 400;

/// What comes out of a closed board, and the flags of the domains 7, 8 and 9 before it.
#[derive(Drop)]
struct Closed {
    entries: EntryList,
    totals: TotalList,
    flags: [bool; 3],
}

fn outcome(turn: u32, vcpu: u32) -> Short
    requires { (turn < 1000) × (vcpu < 3) }
    ensures { IsOutcome result }
{
    Short {
        tag: (turn % 10) as u8,
        value: u64::from(turn + vcpu),
    }
}

fn change(turn: u32) -> FlagChange {
    match turn % 10 {
        4 => {
            let mut doms = DomList::new();
            doms.push(DomId(7));
            doms.push(DomId(8));
            FlagChange::Raise(doms)
        }
        8 => FlagChange::Clear(DomId(7)),
        _ => FlagChange::Keep,
    }
}

fn step<A: Ledger, B: Ledger, C: Ledger>(
    board: &mut Board<A, B, C>,
    pass: &mut Pass<A, B, C>,
    turn: u32,
    vcpu: u32,
) -> Result<(), NoMemory>
    requires turn { (turn < 1000) × (vcpu < 3) }
    requires own { pass.old.vcpu ≡ vcpu }
    ensures { pass.new.vcpu ≡ pass.old.vcpu }
{
    if pass.steps() >= 1 << 32 {
        return Err(NoMemory);
    }
    let short = outcome(turn, vcpu);
    let change = change(turn);
    noted(
        board,
        pass,
        Entry {
            vcpu,
            short,
            change,
        },
    )
}

/// The three passes of a board of three, if they are those of virtual CPU 0, 1 and 2.
fn taken<A: Ledger, B: Ledger, C: Ledger>(
    passes: Vec<Pass<A, B, C>>,
) -> Option<(Pass<A, B, C>, Pass<A, B, C>, Pass<A, B, C>)>
    ensures first { IfSome result (λ r. r.0.vcpu ≡ 0) }
    ensures second { IfSome result (λ r. r.1.vcpu ≡ 1) }
    ensures third { IfSome result (λ r. r.2.vcpu ≡ 2) }
{
    let mut passes = passes;
    let third = passes.pop()?;
    let second = passes.pop()?;
    let first = passes.pop()?;
    if first.vcpu() != 0 || second.vcpu() != 1 || third.vcpu() != 2 {
        return None;
    }
    Some((first, second, third))
}

/// All turns of the three passes.
fn turns<A: Ledger, B: Ledger, C: Ledger>(
    board: &mut Board<A, B, C>,
    first: &mut Pass<A, B, C>,
    second: &mut Pass<A, B, C>,
    third: &mut Pass<A, B, C>,
) -> Result<(), NoMemory>
    requires passes { (first.old.vcpu ≡ 0) × (second.old.vcpu ≡ 1) × (third.old.vcpu ≡ 2) }
    ensures passes { (first.new.vcpu ≡ 0) × (second.new.vcpu ≡ 1) × (third.new.vcpu ≡ 2) }
{
    for turn in 0..TURNS {
        step(board, first, turn, 0)?;
        step(board, second, turn, 1)?;
        step(board, third, turn, 2)?;
    }
    Ok(())
}

/// The three passes in the order of their virtual CPUs.
fn in_order<A: Ledger, B: Ledger, C: Ledger>(
    alloc: Global,
    first: Pass<A, B, C>,
    second: Pass<A, B, C>,
    third: Pass<A, B, C>,
) -> Result<Vec<Pass<A, B, C>>, NoMemory>
    requires passes { (first.vcpu ≡ 0) × (second.vcpu ≡ 1) × (third.vcpu ≡ 2) }
    ensures { IfOk result (λ v. v.items ≡ first ∷ second ∷ third ∷ []) }
{
    let mut passes = Vec::new(alloc);
    passes.push(first)?;
    passes.push(second)?;
    passes.push(third)?;
    Ok(passes)
}

fn run_board<A: Ledger, B: Ledger, C: Ledger>(
    alloc: Global,
    room: Blank,
    sends: Blank,
    loads: Blank,
) -> Result<Closed, NoMemory>
    requires parts { (A.parts ≡ 4) × (B.parts ≡ 4) × (C.parts ≡ 4) }
    requires room { (room.name ≡ A.name) × (room.parts ≡ A.parts) }
    requires sends { (sends.name ≡ B.name) × (sends.parts ≡ B.parts) }
    requires loads { (loads.name ≡ C.name) × (loads.parts ≡ C.parts) }
{
    let (board, passes) = Board::<A, B, C>::build(alloc, 3, room, sends, loads)?;
    let Some((first, second, third)) = taken(passes) else {
        return Err(NoMemory);
    };
    run_passes(alloc, board, first, second, third)
}

fn run_passes<A: Ledger, B: Ledger, C: Ledger>(
    alloc: Global,
    board: Board<A, B, C>,
    first: Pass<A, B, C>,
    second: Pass<A, B, C>,
    third: Pass<A, B, C>,
) -> Result<Closed, NoMemory>
    requires parts { A.parts ≡ 4 }
    requires passes { (first.vcpu ≡ 0) × (second.vcpu ≡ 1) × (third.vcpu ≡ 2) }
{
    let mut board = board;
    let mut first = first;
    let mut second = second;
    let mut third = third;
    turns(&mut board, &mut first, &mut second, &mut third)?;
    let flags = [
        board.look(DomId(7)),
        board.look(DomId(8)),
        board.look(DomId(9)),
    ];
    let passes = in_order(alloc, first, second, third)?;
    let (entries, totals) = board.close(passes)?;
    Ok(Closed {
        entries,
        totals,
        flags,
    })
}

#[test]
fn three_passes_fill_two_segments(rt: HostRuntime) -> Result<(), Fail> {
    let mut all = run_board::<Brand, Brand, Brand>(
        rt.alloc(),
        Blank::new(4),
        Blank::new(4),
        Blank::new(4),
    )?;
    assert_eq!(rt; all.flags, [false, true, false]);
    assert_eq!(rt; all.entries.len(), 1200);
    let mut place: u32 = 0;
    for e in all.entries.as_slice() {
        let turn = place / 3;
        let vcpu = place % 3;
        assert_eq!(rt; e.vcpu, vcpu);
        assert_eq!(rt; u32::from(e.short.tag), turn % 10);
        assert_eq!(rt; e.short.value, u64::from(turn) + u64::from(vcpu));
        place = place.wrapping_add(1);
    }
    all.entries.set(
        1199,
        Entry {
            vcpu: 0,
            short: Short { tag: 9, value: 0 },
            change: FlagChange::Keep,
        },
    );
    let mut empty: u32 = 0;
    for e in all.entries.iter() {
        if e.short.value == 0 {
            empty = empty.wrapping_add(1);
        }
    }
    assert_eq!(rt; empty, 2);
    let totals = all.totals.as_slice();
    assert_eq!(rt; totals.len(), 3);
    for (own, bytes) in totals.iter().zip([7960, 8000, 8040].iter()) {
        assert_eq!(rt; own.steps, 400);
        assert_eq!(rt; own.accepted, 40);
        assert_eq!(rt; own.bytes, *bytes);
    }
    Ok(())
}
