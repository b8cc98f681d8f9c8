ghost use Rattle.std.specs.Prelude.{◌≡◌, ◌+◌, ◌-◌, ◌<◌, ◌≤◌, ◌==◌, OnOk, OnErr, IsErrOf, flat_map, length, take, drop};
ghost use Rattle.std.specs.Int.{div_ceil};
ghost use Rattle.std.specs.List.{list_all};
ghost use Rattle.argo_outside.specs.Faults.{Rose};
ghost use Rattle.argo_outside.specs.Sink.{appended, CutShort};
ghost use Rattle.argo_model.specs.Runs.Report.{report_of, summary_of, closing_text, domain_text, ring_text, message_lines, message_line, notice_line, done_line, slots_lines, shown_row, totals_lines};
ghost use Rattle.report_text.specs.Wrote.{Wrote};
ghost use Rattle.report_text.specs.Lines.{rows_text, text_of};

use crate::WriteFault;
use crate::line::ReportLine;
use argo_base::{DomId, Message};
use argo_model::{DoneLine, Final, FinalDomain, FinalRing, NoticeLine, Totals};
use argo_outside::{Sink, write_whole};
use std::alloc::Global;

/// The slot bytes of a line.
const ROW_BYTES: usize = 32;

/// The rows that are looked at together.
const BLOCK_ROWS: usize = 128;

/// Writes a report, by one call of `write_whole` a line. It keeps the memory of the longest line and no more.
pub fn write_report<K: Sink>(alloc: Global, out: &mut K, f: &Final) -> Result<(), WriteFault>
    ensures count { K.faults out.old ≤ K.faults out.new }
    ensures whole { OnOk result
        (K.written out.new ≡ appended (K.written out.old) (report_of f.now)) }
    ensures cut_short { OnErr result
        (CutShort (K.written out.old) (K.written out.new) (report_of f.now)) }
    ensures failed { IsErrOf result WriteFault.Sink → Rose (K.faults out.old) (K.faults out.new) }
{
    let mut text = String::new(alloc);
    write_report_lines(out, &mut text, f)
}

/// Writes the summary of a report, in the same way.
pub fn write_summary<K: Sink>(alloc: Global, out: &mut K, f: &Final) -> Result<(), WriteFault>
    ensures count { K.faults out.old ≤ K.faults out.new }
    ensures whole { OnOk result
        (K.written out.new ≡ appended (K.written out.old) (summary_of f.now)) }
    ensures cut_short { OnErr result
        (CutShort (K.written out.old) (K.written out.new) (summary_of f.now)) }
    ensures failed { IsErrOf result WriteFault.Sink → Rose (K.faults out.old) (K.faults out.new) }
{
    let mut text = String::new(alloc);
    write_summary_lines(out, &mut text, f)
}

fn write_summary_lines<K: Sink>(out: &mut K, text: &mut String, f: &Final) -> Result<(), WriteFault>
    ensures { Wrote K.written K.faults out.old out.new (summary_of f.now) result }
{
    write_line(out, text, &ReportLine::SummaryOpening)?;
    write_closing(out, text, f)
}

fn write_report_lines<K: Sink>(out: &mut K, text: &mut String, f: &Final) -> Result<(), WriteFault>
    ensures { Wrote K.written K.faults out.old out.new (report_of f.now) result }
{
    write_line(out, text, &ReportLine::Opening(f.version))?;
    write_line(out, text, &ReportLine::Schedule(f.runs.as_slice()))?;
    write_done(out, text, f.done.as_slice())?;
    write_domains(out, text, f.version, f.domains.as_slice())?;
    write_closing(out, text, f)
}

fn write_line<K: Sink>(out: &mut K, text: &mut String, line: &ReportLine) -> Result<(), WriteFault>
    ensures { Wrote K.written K.faults out.old out.new (text_of line.now) result }
{
    line.fill(text)?;
    write_whole(out, text.as_bytes())?;
    Ok(())
}

fn write_done<K: Sink>(out: &mut K, text: &mut String, all: &[DoneLine]) -> Result<(), WriteFault>
    ensures { Wrote K.written K.faults out.old out.new (flat_map done_line all.now) result }
{
    for done in all {
        write_line(out, text, &ReportLine::Done(done))?;
    }
    Ok(())
}

fn write_domains<K: Sink>(
    out: &mut K,
    text: &mut String,
    version: u32,
    all: &[FinalDomain],
) -> Result<(), WriteFault>
    ensures { Wrote K.written K.faults out.old out.new
        (flat_map (domain_text version) all.now) result }
{
    for domain in all {
        write_domain(out, text, version, domain)?;
    }
    Ok(())
}

fn write_domain<K: Sink>(
    out: &mut K,
    text: &mut String,
    version: u32,
    domain: &FinalDomain,
) -> Result<(), WriteFault>
    ensures { Wrote K.written K.faults out.old out.new (domain_text version domain.now) result }
{
    write_line(out, text, &ReportLine::Domain(version, domain))?;
    write_rings(out, text, domain.id, domain.rings.as_slice())
}

fn write_rings<K: Sink>(
    out: &mut K,
    text: &mut String,
    owner: DomId,
    all: &[FinalRing],
) -> Result<(), WriteFault>
    ensures { Wrote K.written K.faults out.old out.new (flat_map (ring_text owner) all.now) result }
{
    for ring in all {
        write_ring(out, text, owner, ring)?;
    }
    Ok(())
}

fn write_ring<K: Sink>(
    out: &mut K,
    text: &mut String,
    owner: DomId,
    ring: &FinalRing,
) -> Result<(), WriteFault>
    ensures { Wrote K.written K.faults out.old out.new (ring_text owner ring.now) result }
{
    write_line(out, text, &ReportLine::Ring(owner, ring))?;
    write_untaken(out, text, ring)?;
    write_notices(out, text, ring.notices.as_slice())?;
    write_slots(out, text, ring.slots.as_slice())
}

fn write_untaken<K: Sink>(
    out: &mut K,
    text: &mut String,
    ring: &FinalRing,
) -> Result<(), WriteFault>
    ensures { Wrote K.written K.faults out.old out.new (message_lines ring.now) result }
{
    if ring.clean {
        write_messages(out, text, ring.untaken.as_slice())
    } else {
        Ok(())
    }
}

fn write_messages<K: Sink>(
    out: &mut K,
    text: &mut String,
    all: &[Message],
) -> Result<(), WriteFault>
    ensures { Wrote K.written K.faults out.old out.new (flat_map message_line all.now) result }
{
    for message in all {
        write_line(out, text, &ReportLine::Message(message))?;
    }
    Ok(())
}

fn write_notices<K: Sink>(
    out: &mut K,
    text: &mut String,
    all: &[NoticeLine],
) -> Result<(), WriteFault>
    ensures { Wrote K.written K.faults out.old out.new (flat_map notice_line all.now) result }
{
    for notice in all {
        write_line(out, text, &ReportLine::Notice(notice))?;
    }
    Ok(())
}

fn write_slots<K: Sink>(out: &mut K, text: &mut String, slots: &[u8]) -> Result<(), WriteFault>
    ensures { Wrote K.written K.faults out.old out.new (slots_lines slots.now) result }
{
    let rows = slots.len().div_ceil(ROW_BYTES);
    let mut from = 0;
    'blocks: while from < rows {
        let to = rows.min(from + BLOCK_ROWS);
        write_rows(out, text, slots, from, to)?;
        from = to;
    }
    Ok(())
}

// The rows of these numbers. A ring is mostly zeros, so they are looked at together first.
fn write_rows<K: Sink>(
    out: &mut K,
    text: &mut String,
    slots: &[u8],
    from: usize,
    to: usize,
) -> Result<(), WriteFault>
    requires order { from < to }
    requires inside { to ≤ div_ceil (length slots.now) 32 }
    ensures { Wrote K.written K.faults out.old out.new
        (rows_text slots.now from (to - from)) result }
{
    if is_blank(rows_at(slots, ROW_BYTES * from, ROW_BYTES * (to - from))) {
        return Ok(());
    }
    for k in from..to {
        let at = ROW_BYTES * k;
        write_row(out, text, at, rows_at(slots, at, ROW_BYTES))?;
    }
    Ok(())
}

// So many bytes from a place on, or what is left there.
fn rows_at(slots: &[u8], at: usize, n: usize) -> &[u8]
    requires { at ≤ length slots.now }
    ensures { result.now ≡ take n (drop at slots.now) }
{
    let (_, rest) = slots.split_at(at);
    let (row, _) = rest.split_at(n.min(rest.len()));
    row
}

fn write_row<K: Sink>(
    out: &mut K,
    text: &mut String,
    at: usize,
    row: &[u8],
) -> Result<(), WriteFault>
    requires { length row.now ≤ ROW_BYTES }
    ensures { Wrote K.written K.faults out.old out.new (shown_row at row.now) result }
{
    if is_blank(row) {
        Ok(())
    } else {
        write_line(out, text, &ReportLine::Slots(at, row))
    }
}

// Whether all bytes of some rows are zero. It looks at each to the end, so that many are looked at in one instruction.
fn is_blank(bytes: &[u8]) -> bool
    ensures { result ≡ list_all (λ b. b == 0) bytes.now }
{
    let mut most = 0;
    for byte in bytes {
        most = most.max(*byte);
    }
    most == 0
}

fn write_closing<K: Sink>(out: &mut K, text: &mut String, f: &Final) -> Result<(), WriteFault>
    ensures { Wrote K.written K.faults out.old out.new (closing_text f.now) result }
{
    write_totals(out, text, f.totals.as_slice())?;
    write_line(out, text, &ReportLine::End)
}

fn write_totals<K: Sink>(out: &mut K, text: &mut String, all: &[Totals]) -> Result<(), WriteFault>
    ensures { Wrote K.written K.faults out.old out.new (totals_lines all.now) result }
{
    for (vcpu, totals) in all.iter().enumerate() {
        write_line(out, text, &ReportLine::Totals(vcpu, totals))?;
    }
    Ok(())
}
