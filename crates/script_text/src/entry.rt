ghost use Rattle.std.specs.Prelude.{◌≡◌};
ghost use Rattle.std.specs.Option.{option_copied};
ghost use Rattle.argo_model.specs.declared.scripts.Actor.TheVariants as actors;
ghost use Rattle.script_text.specs.Lines.{words_of};
ghost use Rattle.script_text.specs.Entries.{domain_entry, section_entry, control_section, store_line, load_line, op_line, await_line, recv_line, vcpu_entry, vcpu_line, named_domain, is_off};
ghost use Rattle.script_text.specs.Gives.{Reads, Gives};

use crate::hex::{bytes_of, is_hex, is_short_hex};
use crate::kind::{Cause, ScriptKind};
use crate::numbers::number;
use crate::ranges::{
    has_domain, is_domain_id, is_generation, is_page_count, is_ring_length, is_short, is_turn_count,
};
use crate::verb::is_word;
use crate::words::{domain_words, five_words, no_words, one_word, two_words, vcpu_words};
use argo_base::DomId;
use argo_model::{Actor, DomainLine, DomainLines, Line};
use std::alloc::Global;

/// What a line adds to the script.
#[derive(Debug, Drop)]
pub(crate) enum Entry {
    Domain(DomainLine),
    /// The beginning of a section.
    Section(Actor),
    /// A line of the last section.
    Line(Line),
}

// Whether the word at the end of a domain line is none or the one that it should be.
fn is_off(word: Option<&[u8]>) -> bool
    ensures { result ≡ is_off (option_copied word.entry) }
{
    match word {
        None => true,
        Some(word) => is_word(word, b"off"),
    }
}

/// `domain D pages P`, or `domain D pages P off`.
pub(crate) fn domain_entry(domains: &DomainLines, rest: &[u8]) -> Result<Entry, ScriptKind>
    ensures { Reads (λ e. e) result (domain_entry domains.now (words_of rest.now)) }
{
    let (id, name, pages, off) = domain_words(rest)?;
    let on = off.is_none();
    if !is_word(name, b"pages") || !is_off(off) {
        return Err(ScriptKind::Word);
    }
    let id = number(id)?;
    let pages = number(pages)?;
    if !is_domain_id(id) || !is_page_count(pages) {
        return Err(ScriptKind::Range);
    }
    let id = DomId(id as u16);
    if has_domain(domains, id) {
        return Err(ScriptKind::Domain);
    }
    Ok(Entry::Domain(DomainLine {
        id,
        pages: pages as u32,
        on,
    }))
}

fn vcpu_of(version: u32, rest: &[u8]) -> Result<(u64, u64), ScriptKind>
    ensures { Reads (λ a. actors.Vcpu a.0 a.1) result (vcpu_line version (words_of rest.now)) }
{
    let (id, more) = vcpu_words(rest)?;
    let Some((name, generation)) = more else {
        return Ok((number(id)?, 1));
    };
    if version != 2 {
        return Err(ScriptKind::Count);
    }
    if !is_word(name, b"gen") {
        return Err(ScriptKind::Word);
    }
    let id = number(id)?;
    let generation = number(generation)?;
    Ok((id, generation))
}

/// `vcpu D`, or in format 2 `vcpu D gen G`.
pub(crate) fn section_entry(
    version: u32,
    domains: &DomainLines,
    rest: &[u8],
) -> Result<Entry, ScriptKind>
    ensures { Reads (λ e. e) result (section_entry version domains.now (words_of rest.now)) }
{
    let (id, generation) = vcpu_of(version, rest)?;
    if !is_domain_id(id) || !is_generation(generation) {
        return Err(ScriptKind::Range);
    }
    let id = DomId(id as u16);
    if !has_domain(domains, id) {
        return Err(ScriptKind::Domain);
    }
    Ok(Entry::Section(Actor::Vcpu(id, generation as u32)))
}

/// `control`.
pub(crate) fn control_section(rest: &[u8]) -> Result<Entry, ScriptKind>
    ensures { Reads (λ e. e) result (control_section (words_of rest.now)) }
{
    no_words(rest)?;
    Ok(Entry::Section(Actor::Control))
}

/// `store ADDR HEX`.
pub(crate) fn store_entry(alloc: Global, rest: &[u8]) -> Result<Entry, Cause>
    ensures { Gives (λ e. e) result (vcpu_entry (store_line (words_of rest.now))) }
{
    let (at, hex) = two_words(rest)?;
    let at = number(at)?;
    if !is_hex(hex) {
        return Err(Cause::Kind(ScriptKind::Hex));
    }
    if !is_short_hex(hex) {
        return Err(Cause::Kind(ScriptKind::Range));
    }
    let bytes = bytes_of(alloc, hex)?;
    Ok(Entry::Line(Line::Store { at, bytes }))
}

/// `load ADDR N`.
pub(crate) fn load_entry(rest: &[u8]) -> Result<Entry, ScriptKind>
    ensures { Reads (λ e. e) result (vcpu_entry (load_line (words_of rest.now))) }
{
    let (at, n) = two_words(rest)?;
    let at = number(at)?;
    let n = number(n)?;
    if !is_short(n) {
        return Err(ScriptKind::Range);
    }
    Ok(Entry::Line(Line::Load { at, n: n as u32 }))
}

/// `op C A1 A2 A3 A4`.
pub(crate) fn op_entry(rest: &[u8]) -> Result<Entry, ScriptKind>
    ensures { Reads (λ e. e) result (vcpu_entry (op_line (words_of rest.now))) }
{
    let (c, a1, a2, a3, a4) = five_words(rest)?;
    Ok(Entry::Line(Line::Op {
        c: number(c)?,
        a1: number(a1)?,
        a2: number(a2)?,
        a3: number(a3)?,
        a4: number(a4)?,
    }))
}

/// `await N`.
pub(crate) fn await_entry(rest: &[u8]) -> Result<Entry, ScriptKind>
    ensures { Reads (λ e. e) result (vcpu_entry (await_line (words_of rest.now))) }
{
    let turns = number(one_word(rest)?)?;
    if !is_turn_count(turns) {
        return Err(ScriptKind::Range);
    }
    Ok(Entry::Line(Line::Await {
        turns: turns as u32,
    }))
}

/// `recv PAGE LEN`.
pub(crate) fn recv_entry(rest: &[u8]) -> Result<Entry, ScriptKind>
    ensures { Reads (λ e. e) result (vcpu_entry (recv_line (words_of rest.now))) }
{
    let (page, len) = two_words(rest)?;
    let page = number(page)?;
    let len = number(len)?;
    if page > 4607 || !is_ring_length(len) {
        return Err(ScriptKind::Range);
    }
    Ok(Entry::Line(Line::Recv {
        page: page as u32,
        len: len as u32,
    }))
}

/// The domain that a line of the control section names.
pub(crate) fn named_domain(domains: &DomainLines, rest: &[u8]) -> Result<DomId, ScriptKind>
    ensures { Reads (λ d. d) result (named_domain domains.now (words_of rest.now)) }
{
    let id = number(one_word(rest)?)?;
    if !is_domain_id(id) {
        return Err(ScriptKind::Range);
    }
    let id = DomId(id as u16);
    if !has_domain(domains, id) {
        return Err(ScriptKind::Domain);
    }
    Ok(id)
}
