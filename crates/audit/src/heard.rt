//! Replies and totals, section by section.
ghost use Rattle.std.specs.Prelude.{◌≡◌, [], slice_get, slice_index_or, IfOk};
ghost use Rattle.audit.specs.Heard.{heard_texts, heard_steps, lines_texts, lines_steps, lines_of, texts_at, text_of, step_of, totals_differ, section_totals};
ghost use Rattle.audit.specs.First.{text_end};

use crate::lists::bytes_differ;
use crate::values::{MISSING, Values, differ};
use argo_base::{Bytes, NoMemory};
use argo_model::{HeardLine, HeardLines, Totals};
use report_text::reply_text;
use std::alloc::Global;

/// The number behind the end of a text, which is no byte's.
pub(crate) const TEXT_END: u64 = 256;

/// How the replies of all sections differ in their texts.
pub(crate) fn heard_texts(
    alloc: Global,
    threads: &[HeardLines],
    machine: &[HeardLines],
) -> Result<Option<Values>, NoMemory>
    ensures { IfOk result (λ r. r ≡ heard_texts threads.now machine.now) }
{
    for v in 0..threads.len().max(machine.len()) {
        let found = lines_texts(alloc, lines_of(threads, v), lines_of(machine, v))?;
        if found.is_some() {
            return Ok(found);
        }
    }
    Ok(None)
}

/// How they differ in the steps at which they came.
pub(crate) fn heard_steps(threads: &[HeardLines], machine: &[HeardLines]) -> Option<Values>
    ensures { result ≡ heard_steps threads.now machine.now }
{
    for v in 0..threads.len().max(machine.len()) {
        let found = lines_steps(lines_of(threads, v), lines_of(machine, v));
        if found.is_some() {
            return found;
        }
    }
    None
}

// The replies of a section. One that is not there has none.
fn lines_of(heard: &[HeardLines], v: usize) -> &[HeardLine]
    ensures { result.now ≡ lines_of heard.now v }
{
    match heard.get(v) {
        Some(lines) => lines.as_slice(),
        None => &[],
    }
}

fn lines_texts(
    alloc: Global,
    threads: &[HeardLine],
    machine: &[HeardLine],
) -> Result<Option<Values>, NoMemory>
    ensures { IfOk result (λ r. r ≡ lines_texts threads.now machine.now) }
{
    for at in 0..threads.len().max(machine.len()) {
        let found = texts_at(alloc, threads, machine, at)?;
        if found.is_some() {
            return Ok(found);
        }
    }
    Ok(None)
}

fn texts_at(
    alloc: Global,
    threads: &[HeardLine],
    machine: &[HeardLine],
    at: usize,
) -> Result<Option<Values>, NoMemory>
    ensures { IfOk result (λ r. r ≡ texts_at threads.now machine.now at) }
{
    let one = text_at(alloc, threads, at)?;
    let other = text_at(alloc, machine, at)?;
    Ok(bytes_differ(TEXT_END, one.as_slice(), other.as_slice()))
}

fn text_at(alloc: Global, lines: &[HeardLine], at: usize) -> Result<Bytes, NoMemory>
    ensures { IfOk result (λ text. text ≡ text_of (slice_get lines.now at)) }
{
    match lines.get(at) {
        Some(line) => reply_text(alloc, &line.reply),
        None => Ok(Bytes::new(alloc)),
    }
}

fn lines_steps(threads: &[HeardLine], machine: &[HeardLine]) -> Option<Values>
    ensures { result ≡ lines_steps threads.now machine.now }
{
    for at in 0..threads.len().max(machine.len()) {
        let found = differ(step_at(threads, at), step_at(machine, at));
        if found.is_some() {
            return found;
        }
    }
    None
}

fn step_at(lines: &[HeardLine], at: usize) -> u64
    ensures { result ≡ step_of (slice_get lines.now at) }
{
    match lines.get(at) {
        Some(line) => line.step,
        None => 0,
    }
}

/// How the totals of all sections differ.
pub(crate) fn totals_differ(threads: &[Totals], machine: &[Totals]) -> Option<Values>
    ensures { result ≡ totals_differ threads.now machine.now }
{
    for v in 0..threads.len().max(machine.len()) {
        let found = section_totals(totals_at(threads, v), totals_at(machine, v));
        if found.is_some() {
            return found;
        }
    }
    None
}

fn totals_at(totals: &[Totals], v: usize) -> Option<Totals>
    ensures { result ≡ slice_get totals.now v }
{
    totals.get(v).copied()
}

fn section_totals(threads: Option<Totals>, machine: Option<Totals>) -> Option<Values>
    ensures { result ≡ section_totals threads machine }
{
    let threads = threads.unwrap_or(NONE);
    let machine = machine.unwrap_or(NONE);
    differ(threads.steps, machine.steps)
        .or(differ(threads.accepted, machine.accepted))
        .or(differ(threads.bytes, machine.bytes))
}

/// The totals of a section that is not there.
const NONE: Totals = Totals {
    steps: MISSING,
    accepted: MISSING,
    bytes: MISSING,
};
